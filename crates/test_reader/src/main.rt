// Reads a trace from standard input, goes through it with the reader, and steps a unit in place with each cycle that the reader gives. What it
// prints is mmurun's text of the trace, and each part of it is the reader's or the unit's, so that both are held to the same lines as the run.
// Its own trace is samples/every.mbt.
// Nothing here is public: most functions write to standard output, of which a contract can say nothing, and what the others do is seen there.
#![tactic(auto)]

use rules::refusal::Refusal;
use rules::{Answer, Unit};
use std::io;
use std::io::Write;
use test_lines::show::{Lossy, line_of};
use trace_header::RECORD;
use trace_reader::{read_at, shown_at};
use trace_records::count;
use unit_lent::step_by_lending;

// The first line, by what the reader answers at its end: that it is past the count, at a number that stays, with no byte shown, or what refuses
// the trace.
fn head<W: Write>(out: &mut W, trace: &[u8]) -> io::Result<()> {
    let end = count(trace);
    let found = read_at(trace, end);
    let at_end = matches!(found.step, Err(Refusal::PastTheCount));
    if at_end && shown_at(trace, end).is_empty() {
        writeln!(out, "MBT 1 {}", found.next)
    } else {
        writeln!(out, "X{}", found.step.map_or_else(u8::from, |_| 0))
    }
}

// The line of record n. It is made as record 0's, and the number is put in the 0's place.
fn line<W: Write>(out: &mut W, n: usize, a: Answer) -> io::Result<()> {
    let (line, end) = line_of(&unit_packed::packed(a));
    streams::print_decimal(out, n as u64)?;
    if 1 < end {
        streams::write_all(out, &line[1..end])?;
    }
    Ok(())
}

// Every record that the reader gives and shows, by its own number, at which it is asked again.
fn through<W: Write>(out: &mut W, trace: &[u8]) -> io::Result<()> {
    let mut unit = Unit::power_on();
    let mut n = 0;
    for _ in 0..count(trace) {
        let found = read_at(trace, n);
        if let Ok(cycle) = found.step
            && shown_at(trace, n).len() == RECORD
        {
            let stepped = step_by_lending(unit, cycle);
            line(out, n, stepped.answer)?;
            unit = stepped.unit;
        }
        n = found.next;
    }
    Ok(())
}

// The text of the trace.
fn whole<W: Write>(out: &mut W, trace: &[u8]) -> io::Result<()> {
    head(out, trace)?;
    through(out, trace)
}

// What fails is not told: what comes behind it is written, and the program ends as ever.
fn main(rt: HostRuntime) {
    let mut trace = [0; streams::LARGE];
    let n = streams::read_full(&mut rt.stdin(), &mut trace).count;
    let _ = whole(&mut Lossy(rt.stdout()), &trace[..n]);
}
