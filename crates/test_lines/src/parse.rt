// The lines of a script: whether one is of a form, and what its numbers say.
ghost use Rattle.std.specs.Prelude.{◌<◌, IfSome};

use rules::{Cycle, Descriptor};
use trace_header::byte_at;
use unit_bytes::snapshot;

// The value of a hexadecimal digit.
fn digit_of(b: u8) -> Option<u32>
    ensures { IfSome result (λ d. d < 16) }
{
    char::from(b).to_digit(16)
}

// Whether a byte may stand where a form has `f`: any digit at `x`, else the byte itself.
fn stands(b: u8, f: u8) -> bool {
    if f == b'x' {
        b.is_ascii_hexdigit()
    } else {
        b == f
    }
}

// Whether the line is of the form.
pub fn fits(line: &[u8], form: &[u8]) -> bool {
    line.len() == form.len() && line.iter().zip(form).all(|(&b, &f)| stands(b, f))
}

// The numbers of a line of the form, of two digits each. The line's letter is no digit of theirs. A number of two digits is cast, since it is proved
// to fit.
pub fn numbers<const N: usize>(line: &[u8], form: &[u8]) -> Option<[u8; N]> {
    if !fits(line, form) {
        return None;
    }
    let mut digits = line.iter().skip(1).filter_map(|&b| digit_of(b));
    let mut numbers = [0; N];
    for number in &mut numbers {
        let high = digits.next()?;
        let low = digits.next()?;
        *number = (high * 16 + low) as u8;
    }
    Some(numbers)
}

// The bytes of the unit that the numbers of a `U` line say, with a table of zeros: they are the first of these, and the last.
pub fn unit_in(numbers: &[u8]) -> [u8; snapshot::BYTES] {
    let mut bytes = [0; snapshot::BYTES];
    for (byte, number) in bytes[..snapshot::TABLE].iter_mut().zip(numbers) {
        *byte = *number;
    }
    bytes[snapshot::LOW] = byte_at(numbers, snapshot::TABLE);
    bytes
}

// The descriptor that the numbers of a `D` line say, and its place before it.
pub fn descriptor_in([place, high, low, limit, attributes]: [u8; 5]) -> (u8, Descriptor) {
    let d = Descriptor {
        base: u16::from_be_bytes([high, low]),
        limit,
        attributes,
    };
    (place, d)
}

// The cycle that the numbers of a `C` line say: status, flags, segment, offset byte, low byte, data byte. The flags, from bit 0 up: read, normal,
// DMA, select, reset line.
pub fn cycle_in([status, flags, segment, offset, low, byte]: [u8; 6]) -> Cycle {
    Cycle {
        status,
        read: flags & 1 != 0,
        normal: flags & 2 != 0,
        dma: flags & 4 != 0,
        select: flags & 8 != 0,
        segment,
        offset,
        low,
        byte,
        reset: flags & 16 != 0,
    }
}
