// Numbers as text, put one after the other into a line.
ghost use Rattle.std.specs.Prelude.{[], ◌∷◌, ◌≡◌, ◌+◌, ◌<◌, ◌≤◌, length};
ghost use Rattle.unit_stores.specs.Put.{Put};
ghost use Rattle.text.specs.Digits.{decimal_room, decimals, place_text, decimal, value, digit, hex_room, hex_text, dashes};
ghost use Rattle.text.specs.Puts.{HasRoom, Puts};

use unit_stores::put;

// A text in the making: the lent buffer that holds it, and the index after what was put.
#[derive(Drop)]
pub struct Line<'a> {
    pub out: &'a mut [u8],
    pub at: usize,
}

impl Line<'_> {
    // One byte.
    pub fn put(&mut self, b: u8)
        requires { HasRoom self.old 1 }
        ensures { Puts self.old 1 (b ∷ []) self.new }
    {
        self.at = put(self.out, self.at, b);
    }

    // A decimal digit where the number reaches its place. It is cast, since it is proved to fit.
    fn put_place(&mut self, reached: bool, d: usize)
        requires { HasRoom self.old 1 × (d < 10) }
        ensures { Puts self.old 1 (place_text reached d) self.new }
    {
        if reached {
            self.put(b'0' + d as u8);
        }
    }

    // A number below 100,000 in decimal, with no zero in front. The digits say the number: those of 100,000 would not. They are not core::fmt's:
    // what that promises of the bytes holds where it answers Ok, and `listing::list` promises its text on every trace (clause `listed`).
    #[tactic(auto, unfolding(crate::specs::Digits::decimal))]
    pub fn put_decimal(&mut self, n: usize)
        requires { HasRoom self.old decimal_room × (n < decimals) }
        ensures put { Puts self.old decimal_room (decimal n) self.new }
        ensures n_value { value 0 (decimal n) ≡ n }
    {
        self.put_place(10000 <= n, n / 10000 % 10);
        self.put_place(1000 <= n, n / 1000 % 10);
        self.put_place(100 <= n, n / 100 % 10);
        self.put_place(10 <= n, n / 10 % 10);
        self.put_place(true, n % 10);
    }

    // Two capital hexadecimal digits.
    pub fn put_hex(&mut self, n: u8)
        requires { HasRoom self.old hex_room }
        ensures { Puts self.old hex_room (hex_text n) self.new }
    {
        self.put(digit(n / 16));
        self.put(digit(n % 16));
    }

    // Two dashes.
    pub fn put_dashes(&mut self)
        requires { HasRoom self.old hex_room }
        ensures { Puts self.old hex_room dashes self.new }
    {
        self.put(b'-');
        self.put(b'-');
    }
}

// A capital hexadecimal digit.
#[tactic(auto, unfolding(crate::specs::Digits::digit))]
fn digit(d: u8) -> u8
    requires { d < 16 }
    ensures { result ≡ digit d }
{
    if d < 10 { b'0' + d } else { b'A' - 10 + d }
}

// Two capital hexadecimal digits, put at an index of a lent buffer; the answer is the index after them. docs/LIBRARY.md names it as something to
// use, so that it stays beside the method.
pub fn put_hex(out: &mut [u8], at: usize, n: u8) -> usize
    requires { at + hex_room ≤ length out.old }
    ensures put { Put out.old at (hex_text n) out.new result }
    ensures upper_bound { result ≤ at + hex_room }
{
    let mut line = Line { out, at };
    line.put_hex(n);
    line.at
}
