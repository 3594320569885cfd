// What the programs that read a script share: its lines, what they say, and what is written of them. These functions only have to be safe and to
// end: what they read and write is held to the stored text of the programs, and to the second model.
#![tactic(auto)]

pub mod parse;
pub mod show;
#[cfg(test)]
mod tests;

use std::io;
use std::io::Read;

// Hands on each line of the script that an input is, without its line feed, until one fails. At most 65,536 bytes are read; of a longer script
// the rest is left.
pub fn each_line<R: Read, F: FnMut(&[u8]) -> io::Result<()>>(
    from: &mut R,
    mut obey: F,
) -> io::Result<()>
    requires { F.IsAlwaysCallable obey }
{
    let mut script = [0; streams::LARGE];
    let taken = streams::read_full(from, &mut script);
    for line in script[..taken.count].split_inclusive(|&b| b == b'\n') {
        obey(line.strip_suffix(b"\n").unwrap_or(line))?;
    }
    taken.outcome
}
