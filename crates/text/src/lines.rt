// The lines of the text.
ghost use Rattle.std.specs.Prelude.{◌≡◌, ◌*◌, ◌<◌, ◌≤◌, length};
ghost use Rattle.unit_packed.specs.Packed.{width};
ghost use Rattle.text.specs.Digits.{decimals};
ghost use Rattle.text.specs.Fields.{mark_room, mark_text, head_text, refusal_text};
ghost use Rattle.text.specs.Lines.{head_room, line_room, line_of, lines_of};
ghost use Rattle.text.specs.Puts.{HasRoom, Puts};

use crate::numbers::Line;
use trace_header::MARK;

// The most bytes of the first line, or of a refused trace's only line, and of the line of a record.
pub const HEAD: usize = 12;

pub const LINE: usize = 31;

impl Line<'_> {
    // A record's line, from its packed answer.
    #[tactic(auto, unfolding(crate::specs::Lines::line_of))]
    fn put_line(&mut self, n: usize, packed: &[u8])
        requires { HasRoom self.old line_room × (n < decimals) × (length packed.now ≡ width) }
        ensures { Puts self.old line_room (line_of n packed.now) self.new }
    {
        let flags = packed[unit_packed::FLAGS_AT];
        self.put_opening(
            n,
            packed[unit_packed::LETTER_AT],
            packed[unit_packed::NUMBER_AT],
        );
        self.put_address(
            flags & unit_packed::ADDRESS != 0,
            packed[unit_packed::HIGH_AT],
            packed[unit_packed::LOW_AT],
        );
        self.put(b' ');
        self.put_signals(flags, packed[unit_packed::DATA_BYTE_AT]);
        self.put_ending(packed[unit_packed::DISTANCE_AT]);
    }

    // The lines of all records, from their packed answers.
    pub fn put_lines(&mut self, packed: &[u8], count: usize)
        requires { (width * count ≤ length packed.now) × HasRoom self.old (line_room * count) × (count ≤ decimals) }
        ensures { Puts self.old (line_room * count) (lines_of 0 count packed.now) self.new }
    {
        for (n, answer) in packed.chunks(unit_packed::BYTES).enumerate().take(count) {
            self.put_line(n, answer);
        }
    }

    // What the first line has before the count: mark and version, and a space after each.
    fn put_mark(&mut self)
        requires { HasRoom self.old mark_room }
        ensures { Puts self.old mark_room mark_text self.new }
    {
        self.put(MARK[0]);
        self.put(MARK[1]);
        self.put(MARK[2]);
        self.put(b' ');
        self.put(b'1');
        self.put(b' ');
    }

    // The first line.
    #[tactic(auto, unfolding(crate::specs::Fields::head_text))]
    pub fn put_head(&mut self, count: usize)
        requires { HasRoom self.old head_room × (count < decimals) }
        ensures { Puts self.old head_room (head_text count) self.new }
    {
        self.put_mark();
        self.put_decimal(count);
        self.put(b'\n');
    }

    // The only line of a refused trace.
    #[tactic(auto, unfolding(crate::specs::Fields::refusal_text))]
    pub fn put_refusal(&mut self, number: u8)
        requires { HasRoom self.old head_room }
        ensures { Puts self.old head_room (refusal_text number) self.new }
    {
        self.put_kind(b'X', number);
        self.put(b'\n');
    }
}
