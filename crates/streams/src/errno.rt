// What was wrong with a call of the system that failed, by C's number of it.
ghost use Rattle.std.specs.Prelude.{◌≡◌, ◌≤◌};
ghost use Rattle.text.specs.Digits.{decimal};
ghost use Rattle.streams.specs.Error.{error_of, Told};

use std::io;
use text::{Pen, Text};

#[derive(Clone, Copy, PartialEq, Eq, Debug)]
pub struct Errno {
    pub number: u32,
}

impl Errno {
    // A failure of input and output.
    pub const EIO: Errno = Errno { number: 5 };

    // A file that is not open.
    pub const EBADF: Errno = Errno { number: 9 };
}

// A number below 1 names no error, and counts as a failure of input and output.
fn error_of(number: i32) -> Errno
    ensures { result.number ≡ error_of number }
{
    if number < 1 {
        return Errno::EIO;
    }
    Errno {
        number: number as u32,
    }
}

// What was wrong with a call of the system that has failed.
pub fn failed(error: &io::Error) -> Errno
    ensures { Told result.number × (1 ≤ result.number) }
{
    error_of(error.raw_os_error().unwrap_or(0))
}

impl From<io::Error> for Errno {
    ghost from_gives = { λ _ error. Told error.number × (1 ≤ error.number) };

    fn from(error: io::Error) -> Errno {
        failed(&error)
    }
}

// Its number in decimal.
impl Text for Errno {
    ghost text = { λ error. decimal error.number };

    fn put_on(self, pen: &mut Pen<'_>) {
        pen.put_text(u64::from(self.number));
    }
}
