// Numbers that look random and are the second program's too (second/README.md, "The superframe of a call"). Each has a seed and a name: what it is for, and
// a place.

// What a number is for, by the first of its names: there are 65,536 places in each.
#[derive(Clone, Copy)]
pub(crate) enum Use {
    Code = 0,
    Factor = 65_536,
    Extra = 131_072,
    Block = 196_608,
}

fn stirred(x: u32, more: u32) -> u32 {
    (x ^ (x >> 16)).wrapping_mul(1_664_525).wrapping_add(more)
}

pub(crate) fn number(seed: u32, what: Use, place: u16) -> u16 {
    let named = stirred(seed, what as u32 + u32::from(place));
    (stirred(stirred(named, 1_013_904_223), 1_013_904_223) >> 16) as u16
}

// 1 where a bit is turned, of 256 as many as the rate says.
pub(crate) fn turn(seed: u32, what: Use, place: u16, rate: u8) -> u8 {
    u8::from(number(seed, what, place) % 256 < u16::from(rate))
}
