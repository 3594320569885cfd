// Runs a trace many times from power-on and writes the packed answers of the last run: what the benchmark times, with no text.
#![tactic(auto)]

use rules::refusal::Refusal;
use std::io;
use std::io::Write;

// How often. The witness is told the same number.
const RUNS: usize = 500;

// The trace run that often; the answers of the last run are left. A twin of test_board_speed's: each program has one call to time.
fn again(trace: &[u8], answers: &mut [u8]) -> Result<(), Refusal> {
    let mut outcome = Ok(());
    for _ in 0..RUNS {
        outcome = run::run(trace, answers);
    }
    outcome
}

// The answers of a good trace; a refused one has none.
fn show<W: Write>(out: &mut W, trace: &[u8], answers: &mut [u8]) -> io::Result<()> {
    let outcome = again(trace, answers);
    let count = trace_records::count(trace);
    if outcome.is_ok() && count <= answers.len() / unit_packed::BYTES {
        streams::write_all(out, &answers[..unit_packed::BYTES * count])?;
    }
    Ok(())
}

// The buffer has room for more than the longest good trace, so that a longer one is refused. What fails is not told: the program ends as ever.
fn main(rt: HostRuntime) {
    let mut trace = [0; streams::LARGE];
    let n = streams::read_full(&mut rt.stdin(), &mut trace).count;
    let mut answers = [0; run::ROOM];
    let _ = show(&mut rt.stdout(), &trace[..n], &mut answers);
}
