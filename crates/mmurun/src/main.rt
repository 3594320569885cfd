// mmurun: reads a trace from standard input, and writes the text that `text::listing` makes of it to standard output.
#![tactic(auto)]

ghost use Rattle.std.specs.Prelude.{◌≡◌, ◌≤◌, IfSome, OnOk, length};
ghost use Rattle.std.specs.Io.KnownBytes.{Appends};
ghost use Rattle.std.proofs.lemmas.List.Edits.{sets};
ghost use Rattle.text.specs.Listed.{text_room};
ghost use Rattle.text.specs.Text.{printed};

use std::io;
use std::io::{Read, Write};
use text::listing::{ROOM, list};

// Writes the text of the trace, and asks that it is that: so this call can hand on nothing else, and no other writes. Where standard output is closed or
// fails, the rest is not written, and the program ends.
fn write_text<W: Write>(out: &mut W, trace: &[u8], text: &[u8]) -> io::Result<()>
    requires { text.now ≡ printed trace.now }
    ensures { OnOk result (Appends (W.contents out.old) (W.contents out.new) (printed trace.now)) }
{
    streams::write_all(out, text)
}

// Writes the text of the trace by way of `text`, which holds it afterwards.
fn show<W: Write>(out: &mut W, trace: &[u8], text: &mut [u8]) -> io::Result<()>
    requires { text_room ≤ length text.old }
    ensures held { text.new ≡ sets text.old 0 (printed trace.now) }
    ensures written { OnOk result (Appends (W.contents out.old) (W.contents out.new) (printed trace.now)) }
{
    let n = list(trace, text).unwrap_or(0);
    write_text(out, trace, &text[..n])
}

// Reads a trace and writes its text. Where the answer is Ok, which says that no read and no write failed, what was written is the text of the
// whole input, and nothing else. The longest good trace has 64,007 bytes: of a longer input the first 65,536 bytes are read, and their text is
// that of the whole.
fn whole<R: Read, W: Write>(from: &mut R, out: &mut W) -> io::Result<()>
    ensures { OnOk result (IfSome (R.remaining from.old) (λ trace.
        Appends (W.contents out.old) (W.contents out.new) (printed trace))) }
{
    let mut trace = [0; streams::LARGE];
    let taken = streams::read_full(from, &mut trace);
    let mut text = [0; ROOM];
    let written = show(out, &trace[..taken.count], &mut text);
    taken.outcome?;
    written
}

// What fails is not told: what was read before is listed, and the program ends as ever.
fn main(rt: HostRuntime) {
    let _ = whole(&mut rt.stdin(), &mut rt.stdout());
}
