// Sums that tell values and their order: 0, and with each value 31 times the sum so far and the value, in 32 bits.
ghost use Rattle.std.specs.Prelude.{◌<◌};

pub(crate) fn added(sum: u32, value: u32) -> u32 {
    sum.wrapping_mul(31).wrapping_add(value)
}

// Of the numbers that stand for the items of a list.
pub(crate) fn of<T: Copy, F: Fn(T) -> u32>(items: &[T], number: F) -> u32
    requires { F.IsAlwaysCallable number }
{
    items.iter().fold(0, |sum, item| added(sum, number(*item)))
}

// A sample or a code as a number without a sign: 32768 more.
pub(crate) fn shifted(z: i16) -> u32
    ensures { result < 65536 }
{
    (i32::from(z) + 32768).cast_unsigned()
}
