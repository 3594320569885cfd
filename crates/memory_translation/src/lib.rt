// Document 01, "Translation": how a memory cycle goes through the unit, and the address lines.
#![tactic(auto)]

ghost use Rattle.std.specs.Prelude.{◌≡◌};
ghost use Rattle.rules.specs.Translation.{way_of, block_of, address_of};

use rules::{Address, Cycle, Unit, Way};

// How a memory cycle goes through the unit.
#[tactic(auto, unfolding(rules::specs::Translation::way_of))]
pub fn way_of(mr: u8, c: Cycle) -> Way
    ensures { result ≡ way_of mr c }
{
    let disabled = mr & Unit::MSEN == 0;
    if disabled {
        return Way::Silent;
    }
    let passing = mr & Unit::TRNS == 0;
    if passing {
        return Way::Passed;
    }
    let half = (mr & Unit::URS != 0) == (c.segment & Unit::UPPER != 0);
    if half {
        let either = mr & Unit::MST == 0;
        if either {
            return Way::Translated;
        }
        let mode = (mr & Unit::NMS != 0) == c.normal;
        if mode {
            return Way::Translated;
        }
    }
    Way::Silent
}

// The physical block number: base + offset byte, modulo 65,536. It is worked out in the order in which a byte-wide datapath adds: the low
// byte first, in nine bits, then its carry into the high byte. The high sum stands in its place, A23 to A16, so that it is a wrapping add on
// u16: what is lost is the carry out of the high byte, and that is the modulo.
#[tactic(auto, unfolding(rules::specs::Translation::block_of))]
pub fn block_of(base: u16, offset: u8) -> u16
    ensures { result ≡ block_of base offset }
{
    let nine_bits = base % 256 + u16::from(offset);
    let low_sum = nine_bits % 256;
    let carry = nine_bits / 256;
    let high_sum = std::num::wrapping_add_u16(base / 256 * 256, carry * 256);
    high_sum + low_sum
}

// The address lines.
#[tactic(auto, unfolding(rules::specs::Translation::address_of))]
pub fn address_of(w: Way, base: u16, c: Cycle) -> Address
    ensures { result ≡ address_of w base c }
{
    match w {
        Way::Silent => Address {
            driven: false,
            block: 0,
        },
        Way::Passed => Address {
            driven: true,
            block: u16::from(c.segment) * 256 + u16::from(c.offset),
        },
        Way::Translated => Address {
            driven: true,
            block: block_of(base, c.offset),
        },
    }
}
