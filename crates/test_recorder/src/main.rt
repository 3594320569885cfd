// Reads a script from standard input, and writes what the recorder gives at its start and for each cycle, with the bytes of the lent buffer that
// the call changed, and mmurun's text of the trace. The functions here only have to be safe and to end: what they read and write is held to the
// stored text, and to the second model.
#![tactic(auto)]

mod lines;
mod show;

use lines::Line;
use rules::refusal::Refusal;
use std::io;
use std::io::Write;
use test_lines::show::{Lossy, other};
use trace_header::{HEAD, RECORD};
use trace_writer::{record_cycle, record_start};

// One byte more than a `B` line can lend.
const ALL: usize = 65536;

// What the next call is given: so many of the bytes, and the count.
#[derive(Drop)]
struct Given {
    buffer: [u8; ALL],
    lent: u16,
    count: usize,
}

// So many bytes, all of one value, and no record.
fn lend(lent: u16, byte: u8) -> Given {
    Given {
        buffer: [byte; ALL],
        lent,
        count: 0,
    }
}

// A call of the recorder with the lent bytes, which is shown; where it is refused, the count is then this one.
fn call<W: Write, F: FnOnce(&mut [u8]) -> Result<usize, Refusal>>(
    out: &mut W,
    given: &mut Given,
    kept: usize,
    recorder: F,
) -> io::Result<()>
    requires { F.IsAlwaysCallable recorder }
{
    let before = given.buffer;
    let end = usize::from(given.lent);
    let outcome = recorder(&mut given.buffer[..end]);
    given.count = outcome.unwrap_or(kept);
    show::call(
        out,
        outcome,
        given.count,
        &before[..end],
        &given.buffer[..end],
    )
}

// The text of a trace of so many records, or of all lent bytes where these are fewer.
fn show_trace<W: Write>(out: &mut W, given: &Given) -> io::Result<()> {
    let end = RECORD
        .saturating_mul(given.count)
        .saturating_add(HEAD)
        .min(usize::from(given.lent));
    show::trace(out, &given.buffer[..end])
}

// Does what a line says; one that asks for nothing is answered at once.
fn obey<W: Write>(out: &mut W, given: &mut Given, line: &[u8]) -> io::Result<()> {
    let count = given.count;
    match lines::line_in(line) {
        Some(Line::Lend(lent, byte)) => *given = lend(lent, byte),
        Some(Line::Put(at, byte)) => {
            if at < given.lent {
                given.buffer[usize::from(at)] = byte;
            }
        }
        Some(Line::Count(n)) => given.count = n,
        Some(Line::Start) => call(out, given, 0, record_start)?,
        Some(Line::Cycle(c)) => call(out, given, count, |bytes| record_cycle(bytes, count, c))?,
        Some(Line::Trace) => show_trace(out, given)?,
        None => other(out, line)?,
    }
    Ok(())
}

// Before any line the buffer has no bytes. What fails is not told: what comes behind it is written, and the program ends as ever.
fn main(rt: HostRuntime) {
    let mut out = Lossy(rt.stdout());
    let mut given = lend(0, 0);
    let _ = test_lines::each_line(&mut rt.stdin(), |line| obey(&mut out, &mut given, line));
}
