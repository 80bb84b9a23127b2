// A code as the number that its 14 bits make, first bit highest, and back (document 01, "The block" and "Samples").
ghost use Rattle.std.specs.Prelude.{◌≡◌};
ghost use Rattle.sample.specs.Pattern.{signed_of, pattern_of};

use super::reach;

// Of a number of more than 14 bits the lowest 14.
pub fn signed_of(pattern: u16) -> i16
    ensures { result ≡ signed_of 8192 pattern }
{
    let low = (pattern % 16384) as i16;
    if low < 8192 { low } else { low - 16384 }
}

// Of a number that no 14 bits hold, what it leaves over 16384.
pub fn pattern_of(code: i16) -> u16
    ensures { result ≡ pattern_of 8192 code }
{
    let low = reach(code) % 16384;
    if code < 0 { 16383 - low } else { low }
}
