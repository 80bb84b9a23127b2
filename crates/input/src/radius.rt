// The radius that a program is told to read at, by an argument (document 02, P9).
ghost use Rattle.std.specs.Prelude.{◌≡◌};
ghost use Rattle.input.specs.Radius.{radius_of, SomeRadius};

use std::env::{Env, FillError};

// None where it is neither 2 nor 3.
#[tactic(auto, unfolding(crate::specs::Radius::radius_of))]
pub fn radius_of(argument: &[u8]) -> Option<u8>
    ensures { result ≡ radius_of argument.now }
{
    match argument {
        b"2" => Some(2),
        b"3" => Some(3),
        _ => None,
    }
}

// That of the argument with a number, and the ordinary one where there are not so many. One that is too long is none.
pub fn radius_at<E: Env>(env: &E, number: usize) -> Option<u8>
    ensures { SomeRadius result }
{
    let mut argument = [0u8; 4];
    match env.arg(number, &mut argument) {
        Ok(n) => radius_of(&argument[..n]),
        Err(FillError::TooLong) => None,
        Err(FillError::NotPresent) => Some(reading::ORDINARY),
    }
}
