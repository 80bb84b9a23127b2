// The function of `outside`, exported for C: a static library, whose one symbol is `outside_take`. A `&[u8]` passes as a pointer and then a length.
#![tactic(auto)]

ghost use Rattle.outside.specs.Outside.{TookOutside};

// Number 0 or 3, and the 88 bytes follow; or 1 or 2, and they stay.
#[unsafe(no_mangle)]
pub extern "C" fn outside_take(
    radius: u8,
    beside: &mut [u8],
    bytes: &[u8],
    samples: &mut [i16],
    marks: &mut [u8],
) -> u8
    ensures { TookOutside radius beside.old bytes.now samples.old marks.old result beside.new samples.new marks.new }
{
    outside::outside_take(radius, beside, bytes, samples, marks)
}
