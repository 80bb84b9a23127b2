// Times as text: a number of pairs over 32,000, with eight decimals.
ghost use Rattle.text.specs.Pens.{Puts};
ghost use Rattle.label.specs.Seconds.{padded, seconds};

use text::Pen;

// The lowest digits of a number, so many, zeros in front among them, which `put_text` does not put.
#[tactic(auto, unfolding(crate::specs::Seconds::padded))]
fn put_padded(pen: &mut Pen<'_>, digits: u32, x: u64)
    ensures { Puts pen.old pen.new (padded digits x) }
{
    if digits == 0 {
        return;
    }
    put_padded(pen, digits - 1, x / 10);
    pen.put(48 + (x % 10) as u8);
}

pub(crate) fn put_seconds(pen: &mut Pen<'_>, n: u64)
    ensures { Puts pen.old pen.new (seconds n) }
{
    pen.put_text(n / 32000);
    pen.put(b'.');
    put_padded(pen, 8, n % 32000 * 3125);
}
