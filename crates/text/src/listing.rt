// The text of a trace, as mmurun prints it, into a lent buffer.
ghost use Rattle.std.specs.Prelude.{◌≡◌, ◌≤◌, ◌↔◌, IsSome, length, unwrap_or};
ghost use Rattle.run.specs.Run.{answers_room};
ghost use Rattle.text.specs.Listed.{Listed, Counts, text_room};

use crate::numbers::Line;
use trace_header::MOST;

// The bytes that any text has room in, 496,012: the longest first line, and the longest line for each record of the longest trace. The
// longest text is that of two commands and 15,998 cycles 100 blocks or more from the edge of their segment, 372,898 bytes.
pub const ROOM: usize = crate::lines::HEAD + crate::lines::LINE * MOST;

// Zeros, with room for the answers of the longest trace. They have a function of their own, since the proof of `list` wants their length alone.
fn zeros() -> [u8; run::ROOM]
    ensures { answers_room ≡ length result }
{
    [0; run::ROOM]
}

// Fills the buffer with the text of the trace, and answers the text's length. A buffer that is shorter than ROOM is left as it was, and
// the answer is None.
// The length, and not that part of the buffer, since `distantarm_list` has to answer it in C.
pub fn list(trace: &[u8], out: &mut [u8]) -> Option<usize>
    ensures listed { Listed trace.now out.old out.new (unwrap_or result 0) }
    ensures counts { Counts (unwrap_or result 0) out.new }
    ensures room { IsSome result ↔ (text_room ≤ length out.old) }
{
    if out.len() < ROOM {
        return None;
    }
    let mut packed = zeros();
    let mut line = Line { out, at: 0 };
    if let Err(refusal) = run::run(trace, &mut packed) {
        line.put_refusal(refusal.into());
        return Some(line.at);
    }
    let count = trace_records::count(trace);
    line.put_head(count);
    line.put_lines(&packed, count);
    Some(line.at)
}
