// The arguments that a program is started with, as the bytes that they are.
ghost use Rattle.io.specs.Counts.{IsPrefixLen};

use std::env::Env;

// Puts an argument at the start of a buffer, and answers how many bytes it has. One that is missing, or does not fit, counts as one of none.
pub fn argument<E: Env>(env: &E, number: usize, buf: &mut [u8]) -> usize
    ensures { IsPrefixLen result buf.new }
{
    env.arg(number, buf).unwrap_or(0)
}
