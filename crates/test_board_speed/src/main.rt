// Runs a board many times over records from power-on and writes the packed answers of the last run: what the benchmark times, with no text.
#![tactic(auto)]

use std::io;
use std::io::Write;

// How often. The witness is told the same number.
const RUNS: usize = 100;

// The number of units, and the records behind it.
const INPUT: usize = 1 + board_run::RECORD * board_run::MOST;

const ROOM: usize = board_packed::BYTES * board_run::MOST;

// The records run that often; the answers of the last run are left. A twin of test_speed's: each program has one call to time.
fn again(records: &[u8], count: u8, answers: &mut [u8]) -> usize {
    let mut cycles = 0;
    for _ in 0..RUNS {
        cycles = board_run::run(records, count, answers);
    }
    cycles
}

// The answers of all records.
fn show<W: Write>(out: &mut W, input: &[u8], answers: &mut [u8]) -> io::Result<()> {
    if let Some((&count, records)) = input.split_first() {
        let cycles = again(records, count, answers);
        if cycles <= answers.len() / board_packed::BYTES {
            streams::write_all(out, &answers[..board_packed::BYTES * cycles])?;
        }
    }
    Ok(())
}

// What fails is not told: the program ends as ever.
fn main(rt: HostRuntime) {
    let mut records = [0; INPUT];
    let n = streams::read_full(&mut rt.stdin(), &mut records).count;
    let mut answers = [0; ROOM];
    let _ = show(&mut rt.stdout(), &records[..n], &mut answers);
}
