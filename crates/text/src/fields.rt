// The fields of a line of the text.
ghost use Rattle.std.specs.Prelude.{◌≡◌, ◌<◌};
ghost use Rattle.rules.specs.Flags.{has};
ghost use Rattle.unit_packed.specs.Packed.{SUP, TRAP, DRIVES};
ghost use Rattle.text.specs.Digits.{decimals, hex_room};
ghost use Rattle.text.specs.Fields.{kind_room, kind_text, opening_room, opening, address_room, address_text};
ghost use Rattle.text.specs.Fields.{bit_text, byte_text, signals_room, signals, ending_room, ending};
ghost use Rattle.text.specs.Puts.{HasRoom, Puts};

use crate::numbers::Line;

// 0 or 1.
fn bit_text(on: bool) -> u8
    ensures { result ≡ bit_text on }
{
    if on { b'1' } else { b'0' }
}

impl Line<'_> {
    // A kind's letter, and its number unless that is 0, as the two bytes of a packed answer have them.
    #[tactic(auto, unfolding(crate::specs::Fields::kind_text))]
    pub fn put_kind(&mut self, letter: u8, number: u8)
        requires { HasRoom self.old kind_room }
        ensures { Puts self.old kind_room (kind_text letter number) self.new }
    {
        self.put(letter);
        if number != 0 {
            self.put_decimal(usize::from(number));
        }
    }

    // A record's number and its kind.
    #[tactic(auto, unfolding(crate::specs::Fields::opening))]
    pub fn put_opening(&mut self, n: usize, letter: u8, number: u8)
        requires { HasRoom self.old opening_room × (n < decimals) }
        ensures { Puts self.old opening_room (opening n letter number) self.new }
    {
        self.put_decimal(n);
        self.put(b' ');
        self.put_kind(letter, number);
        self.put(b' ');
    }

    // The address lines, or dashes. Mark and bytes apart, here and below, as in a packed answer: an Option would be made to be taken apart at once.
    #[tactic(auto, unfolding(crate::specs::Fields::address_text))]
    pub fn put_address(&mut self, driven: bool, high: u8, low: u8)
        requires { HasRoom self.old address_room }
        ensures { Puts self.old address_room (address_text driven high low) self.new }
    {
        self.put_byte(driven, high);
        self.put_byte(driven, low);
    }

    // A byte, or dashes.
    #[tactic(auto, unfolding(crate::specs::Fields::byte_text))]
    fn put_byte(&mut self, driven: bool, byte: u8)
        requires { HasRoom self.old hex_room }
        ensures { Puts self.old hex_room (byte_text driven byte) self.new }
    {
        if driven {
            self.put_hex(byte);
        } else {
            self.put_dashes();
        }
    }

    // SUP, the request and the data byte, by an answer's flags, and the space after each.
    #[tactic(auto, unfolding(crate::specs::Fields::signals))]
    pub fn put_signals(&mut self, flags: u8, byte: u8)
        requires { HasRoom self.old signals_room }
        ensures { Puts self.old signals_room (signals (has flags SUP) (has flags TRAP) (has flags DRIVES) byte) self.new }
    {
        self.put(bit_text(flags & unit_packed::SUP != 0));
        self.put(b' ');
        self.put(bit_text(flags & unit_packed::TRAP != 0));
        self.put(b' ');
        self.put_byte(flags & unit_packed::DRIVES != 0, byte);
        self.put(b' ');
    }

    // The distance, and the end of a line.
    #[tactic(auto, unfolding(crate::specs::Fields::ending))]
    pub fn put_ending(&mut self, distance: u8)
        requires { HasRoom self.old ending_room }
        ensures { Puts self.old ending_room (ending distance) self.new }
    {
        self.put_decimal(usize::from(distance));
        self.put(b'\n');
    }
}
