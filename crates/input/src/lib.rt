// A reel that comes from a reader, as standard input is one, in pieces: its header, the bytes before its first superframe and its superframes; and the
// radius that it shall be read at. What comes from outside is not promised; what is made of it is. A read that fails is not the end of the reel.
#![tactic(auto)]

mod fault;
mod radius;
mod superframes;

ghost use Rattle.std.specs.Prelude.{◌≤◌, IfOk, IsOk};
ghost use Rattle.input.specs.Header.{SomeHeader, said_in};
ghost use Rattle.input.specs.Fault.{header_told, fault_in};

use ending::Fault;
pub use fault::header_in;
pub use radius::{radius_at, radius_of};
use reel::Header;
use std::io::Read;
use streams::Errno;
pub use superframes::{reach, read_all, read_places};

// A read that failed, and what the bytes that came before say as a header.
#[derive(Clone, Copy, PartialEq, Eq, Debug)]
pub struct CutHeader {
    pub said: Result<Header, Fault>,
    pub error: Errno,
}

// What the first 16 bytes say, or fewer where there are not so many.
pub fn header<R: Read>(from: &mut R) -> Result<Result<Header, Fault>, CutHeader>
    ensures { SomeHeader (header_told (said_in result)) (fault_in (said_in result)) }
{
    let mut bytes = [0u8; 16];
    match streams::fill(from, &mut bytes) {
        Ok(came) => Ok(header_in(&bytes[..came])),
        Err(cut) => Err(CutHeader {
            said: header_in(&bytes[..cut.came]),
            error: cut.error,
        }),
    }
}

// Reads past at most so many bytes, and answers how many came.
fn pass<R: Read>(from: &mut R, most: u32) -> Result<u32, Errno>
    ensures { IfOk result (λ came. came ≤ most) }
{
    let mut piece = [0u8; 4096];
    let want = piece.len().min(most as usize);
    let came = streams::fill(from, &mut piece[..want])?;
    Ok(came as u32)
}

// Reads on past so many bytes, without holding them, or to the end of input.
fn skip<R: Read>(from: &mut R, count: u32) -> Result<(), Errno> {
    let mut left = count;
    // no `for`: what is left falls by as many bytes as come
    while 0 < left {
        match pass(from, left)? {
            0 => break,
            came => left -= came,
        }
    }
    Ok(())
}

// Behind the 16 bytes of a header, reads on to the first superframe.
pub fn skip_to<R: Read>(from: &mut R, offset: u32) -> Result<(), Errno>
    ensures { offset ≤ 16 → IsOk result }
{
    if 16 < offset {
        return skip(from, offset - 16);
    }
    Ok(())
}
