// The header of a RIFF WAVE file of pairs, put into a lent buffer: of a programme's sound, two bytes a sample, and of its marks, one. Its numbers stand
// with their lowest byte first.
#![tactic(auto)]

ghost use Rattle.std.specs.Prelude.{◌≡◌, ◌*◌, ◌≤◌};
ghost use Rattle.text.specs.Pens.{on, Puts};
ghost use Rattle.wav.specs.Header.{capped, format, header, entered_header, PutsAs};

use bits::Refusal;
use text::Pen;

fn size(n: u64) -> u32
    ensures { result ≡ capped n }
{
    u32::try_from(n).unwrap_or(u32::MAX)
}

fn put_format(pen: &mut Pen<'_>, bytes: u16)
    requires { bytes ≤ 2 }
    ensures { Puts pen.old pen.new (format bytes) }
{
    pen.put_all(b"fmt ");
    pen.put_all(&16u32.to_le_bytes());
    pen.put_all(&1u16.to_le_bytes());
    pen.put_all(&2u16.to_le_bytes());
    pen.put_all(&32000u32.to_le_bytes());
    pen.put_all(&(32000 * (2 * u32::from(bytes))).to_le_bytes());
    pen.put_all(&(2 * bytes).to_le_bytes());
    pen.put_all(&(8 * bytes).to_le_bytes());
}

fn put_fields(pen: &mut Pen<'_>, bytes: u16, pairs: u64)
    requires { (1 ≤ bytes) × (bytes ≤ 2) }
    ensures { Puts pen.old pen.new (header bytes pairs) }
{
    // of more pairs than a size can say, the bytes are too many as well
    let all = u64::from(size(pairs)) * (2 * u64::from(bytes));
    pen.put_all(b"RIFF");
    pen.put_all(&size(36 + all).to_le_bytes());
    pen.put_all(b"WAVE");
    put_format(pen, bytes);
    pen.put_all(b"data");
    pen.put_all(&size(all).to_le_bytes());
}

// The header of a file of so many pairs, its samples of one byte or of two each.
#[tactic(auto, unfolding(crate::specs::Header::entered_header, crate::specs::Header::refused_as))]
pub fn put_header(pen: &mut Pen<'_>, bytes: u16, pairs: u64) -> Result<(), Refusal>
    ensures { PutsAs pen.old pen.new result (entered_header (on pen.old) bytes pairs) }
{
    if bytes < 1 || 2 < bytes {
        return Err(Refusal::Range);
    }
    pen.put_whole(|pen| put_fields(pen, bytes, pairs))
}
