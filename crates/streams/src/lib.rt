// What a program reads and writes, with the failures told: a call of the system that fails is not the end of what it reads, and behind a write that
// failed nothing is written. Which bytes come and go cannot be promised, as the system moves them.
#![tactic(auto)]

mod arguments;
mod errno;
mod progress;

ghost use Rattle.std.specs.Prelude.{◌≡◌, ◌<◌, ◌≤◌, pos, length, IsOk, Err};
ghost use Rattle.io.specs.Counts.{IsPrefixLen};
ghost use Rattle.streams.specs.Error.{error_of, Told, number_in, came_in};

pub use arguments::argument;
pub use errno::{Errno, failed};
pub use progress::Progress;
use std::io::{Read, Write};

// A read that failed, behind the bytes that came at the start of the buffer.
#[derive(Clone, Copy, PartialEq, Eq, Debug)]
pub struct CutOff {
    pub came: usize,
    pub error: Errno,
}

impl From<CutOff> for Errno {
    ghost from_gives = { λ cut error. error ≡ cut.error };

    fn from(cut: CutOff) -> Errno {
        cut.error
    }
}

// Reads until the buffer is full, the input ends or a read fails, and answers how many bytes came. Where it is full, none failed.
pub fn fill<R: Read>(from: &mut R, buf: &mut [u8]) -> Result<usize, CutOff>
    ensures prefix_len { IsPrefixLen (came_in result) buf.new }
    ensures error_value { came_in result ≡ length buf.new → IsOk result }
{
    let mut came: usize = 0;
    // no `for`: the system says how many bytes come at a time
    while came < buf.len() {
        match from.read(&mut buf[came..]) {
            Ok(0) => break,
            Ok(more) => came += more,
            Err(error) => {
                return Err(CutOff {
                    came,
                    error: failed(&error),
                });
            }
        }
    }
    Ok(came)
}

// Writes all of these bytes.
pub fn write<W: Write>(to: &mut W, bytes: &[u8]) -> Result<(), Errno>
    ensures told { Told (number_in result) }
    ensures never_0 { (e : _) → result ≡ Err e → 1 ≤ e.number }
{
    to.write_all(bytes)?;
    Ok(())
}

// Writes the bytes of a page before a place. A place behind the page is none: nothing is written, and that is an error. Page and place are apart, as
// this promise is of both.
#[tactic(auto, unfolding(crate::specs::Error::error_of))]
pub fn write_first<W: Write>(to: &mut W, page: &[u8], end: usize) -> Result<(), Errno>
    ensures { length page.now < end → number_in result ≡ error_of (pos 0) }
{
    match page.get(..end) {
        Some(bytes) => write(to, bytes),
        None => Err(Errno::EIO),
    }
}
