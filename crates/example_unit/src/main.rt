// An example for users of the crates: a unit from power-on, stepped through two records of a capture. It writes the address that is driven.
#![tactic(auto)]

ghost use Rattle.std.specs.Prelude.{◌≡◌};

use rules::Unit;
use text::numbers::put_hex;
use trace_records::decode;
use unit_step::step::step;

// A command writes %80 to MR, MSEN without TRNS. A system data read of segment 5, offset byte %15, is then passed: row P10 of document 01.
fn passed() -> u16
    ensures { result ≡ 0x0515 }
{
    let written = step(Unit::power_on(), decode(b"\x83\x00\x00\x80"));
    let read = step(written.unit, decode(b"\x18\x05\x15\x00"));
    read.answer.address.block
}

fn main(rt: HostRuntime) {
    let [high, low] = passed().to_be_bytes();
    let mut line = *b"xxxx\n";
    put_hex(&mut line, 0, high);
    put_hex(&mut line, 2, low);
    let _ = streams::write_all(&mut rt.stdout(), &line);
}
