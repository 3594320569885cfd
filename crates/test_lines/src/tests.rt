// What becomes of the pieces of a line where a write fails.
use crate::show::{Lossy, number};
use std::io;
use std::io::Write;
use std::test::Fail;

// An output whose second write fails.
#[derive(Drop)]
struct FullForAWhile {
    bytes: Vec<u8>,
    writes: u8,
}

impl Write for FullForAWhile {
    fn write(&mut self, bytes: &[u8]) -> io::Result<usize> {
        self.writes = self.writes.wrapping_add(1);
        if self.writes == 2 {
            return Err(io::Error::from(io::ErrorKind::WouldBlock));
        }
        self.bytes.write(bytes)
    }

    fn flush(&mut self) -> io::Result<()> {
        Ok(())
    }
}

#[test]
fn what_comes_behind_a_write_that_fails_is_written(rt: HostRuntime) -> Result<(), Fail> {
    let mut out = Lossy(FullForAWhile {
        bytes: Vec::new(rt.alloc()),
        writes: 0,
    });
    for n in 1..4 {
        number(&mut out, n)?;
    }
    write!(out, "!")?;
    assert!(rt; out.0.bytes.as_slice() == b"0103!".as_slice());
    Ok(())
}
