// The calls on samples, codes and factors.
ghost use Rattle.std.specs.Prelude.{◌<◌};

use crate::line_words::{Words, number_in};
use crate::pages::Page;
use crate::sums;
use bits::Refusal;

// One call: a sample or a code, and a factor.
pub(crate) fn single<F: Fn(i16, u8) -> Result<i16, Refusal>>(
    mut words: Words<'_>,
    page: &mut Page<'_>,
    ask: F,
) -> Option<()>
    requires { F.IsAlwaysCallable ask }
{
    let n = words.number()?;
    let factor = words.number()?;
    words.end()?;
    page.told(ask(n, factor), |page, value| page.signed(value));
    Some(())
}

// What an answer adds to a sum; 65538 where it is refused, which it is with number 2.
fn weight(answer: Result<i16, Refusal>) -> u32
    ensures { result < 65539 }
{
    answer.map_or(65538, sums::shifted)
}

// The same call for so many numbers from one on, none of them above 32767.
pub(crate) fn swept<F: Fn(i16, u8) -> Result<i16, Refusal>>(
    mut words: Words<'_>,
    page: &mut Page<'_>,
    ask: F,
) -> Option<()>
    requires { F.IsAlwaysCallable ask }
{
    let factor = words.number()?;
    let first: i16 = words.number()?;
    let count = words.up_to(4096)?;
    words.end()?;
    if usize::from(i16::MAX.abs_diff(first)) + 1 < count {
        return None;
    }
    let mut sum = 0;
    for n in (first..=i16::MAX).take(count) {
        sum = sums::added(sum, weight(ask(n, factor)));
    }
    page.put(b'0');
    page.next(sum);
    Some(())
}

// All that are left on the line, or a dash for none, in the first places of a list.
fn read<'a>(mut words: Words<'_>, room: &'a mut [i16; 80]) -> Option<&'a [i16]> {
    let first = words.next()?;
    if first == "-" {
        words.end()?;
        return Some(&room[..0]);
    }
    room[0] = number_in(first)?;
    let mut count = 1;
    for word in words.rest() {
        *room.get_mut(count)? = number_in(word)?;
        count += 1;
    }
    room.get(..count)
}

pub(crate) fn factor(words: Words<'_>, page: &mut Page<'_>) -> Option<()> {
    let mut room = [0; 80];
    let samples = read(words, &mut room)?;
    page.told(sample::factor_of(samples), |page, factor| page.next(factor));
    Some(())
}
