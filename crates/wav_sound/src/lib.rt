// The bytes of a programme's 64 pairs in a superframe: its sound, and its marks.
#![tactic(auto)]

ghost use Rattle.std.specs.Prelude.{◌≡◌, [], ◌∷◌, ◌≤◌, length};
ghost use Rattle.bits.specs.Refused.{number_in};
ghost use Rattle.text.specs.Pens.{on, Puts};
ghost use Rattle.wav.specs.Header.{PutsAs};
ghost use Rattle.text_rows.specs.Turns.{in_turn};
ghost use Rattle.wav_sound.specs.Sound.{pair_of, PutsElement, sample_bytes, sound_bytes, mark_byte, mark_bytes, lost_bytes, programme_number, entered_of, entered_lost};

use bits::Refusal;
use text::Pen;

// Refused for its length where a superframe's list has not 2,048 elements, and for its range where there is no programme q.
#[tactic(auto, unfolding(crate::specs::Sound::programme_number))]
pub fn number_of(q: usize, n: usize) -> Result<(), Refusal>
    ensures { number_in result ≡ programme_number q n }
{
    if n != 2048 {
        return Err(Refusal::Length);
    }
    if q < 1 || 16 < q {
        return Err(Refusal::Range);
    }
    Ok(())
}

// The 64 pairs of programme q, each of its two elements as a closure puts it.
fn put_pairs<T: Copy, F: Fn(&mut Pen<'_>, T)>(pen: &mut Pen<'_>, q: usize, list: &[T], put: &F)
    requires within { (1 ≤ q) × (q ≤ 16) × (length list.now ≡ 2048) }
    requires can { F.IsAlwaysCallable put.now }
    ensures { (g : _) (d : _) → PutsElement (F.post put.now) g → Puts pen.old pen.new (in_turn 64 (pair_of q list.now g d)) }
{
    for f in 0..64 {
        let at = 32 * f + 2 * (q - 1);
        put(pen, list[at]);
        put(pen, list[at + 1]);
    }
}

// The pairs of programme q where there are such, out of a superframe's list.
fn put_programme<T: Copy, F: Fn(&mut Pen<'_>, T)>(
    pen: &mut Pen<'_>,
    q: usize,
    list: &[T],
    put: F,
) -> Result<(), Refusal>
    requires { F.IsAlwaysCallable put }
    ensures { (g : _) (d : _) → PutsElement (F.post put) g → PutsAs pen.old pen.new result (entered_of q list.now (on pen.old) (in_turn 64 (pair_of q list.now g d))) }
{
    number_of(q, list.len())?;
    pen.put_whole(
        |pen|
            requires { (1 ≤ q) × (q ≤ 16) × (length list.now ≡ 2048) × F.IsAlwaysCallable put }
            ensures { (g : _) (d : _) → PutsElement (F.post put) g → Puts pen.old pen.new (in_turn 64 (pair_of q list.entry.now g d)) }
        {
            put_pairs(pen, q, list, &put);
        },
    )
}

fn put_sample(pen: &mut Pen<'_>, z: i16)
    ensures { Puts pen.old pen.new (sample_bytes z) }
{
    pen.put_all(&z.to_le_bytes());
}

// The 256 bytes of programme q, 1 to 16, out of a superframe's 2,048 samples.
pub fn put_sound(pen: &mut Pen<'_>, q: usize, samples: &[i16]) -> Result<(), Refusal>
    ensures { PutsAs pen.old pen.new result (entered_of q samples.now (on pen.old) (sound_bytes q samples.now)) }
{
    put_programme(pen, q, samples, put_sample)
}

#[tactic(auto, unfolding(crate::specs::Sound::mark_byte))]
fn mark_byte(m: u8) -> u8
    ensures { result ≡ mark_byte m }
{
    if m < 5 { 128 + 16 * m } else { 160 }
}

fn put_mark(pen: &mut Pen<'_>, m: u8)
    ensures { Puts pen.old pen.new (mark_byte m ∷ []) }
{
    pen.put(mark_byte(m));
}

// The 128 bytes of the marks of programme q, out of a superframe's 2,048 marks.
pub fn put_marks(pen: &mut Pen<'_>, q: usize, marks: &[u8]) -> Result<(), Refusal>
    ensures { PutsAs pen.old pen.new result (entered_of q marks.now (on pen.old) (mark_bytes q marks.now)) }
{
    put_programme(pen, q, marks, put_mark)
}

fn put_same(pen: &mut Pen<'_>, n: usize, byte: u8)
    ensures { Puts pen.old pen.new (in_turn n (λ i. byte ∷ [])) }
{
    text_rows::put_turns(pen, n, |pen, _| pen.put(byte));
}

fn put_lost_bytes(pen: &mut Pen<'_>, bytes: u16)
    ensures { Puts pen.old pen.new (lost_bytes bytes) }
{
    if bytes == 1 {
        put_same(pen, 128, 255);
    } else {
        put_same(pen, 256, 0);
    }
}

// The bytes of a programme in a lost superframe: those of its sound where a sample has two, those of its marks where it has one.
#[tactic(auto, unfolding(crate::specs::Sound::entered_lost, wav::specs::Header::refused_as))]
pub fn put_lost(pen: &mut Pen<'_>, bytes: u16) -> Result<(), Refusal>
    ensures { PutsAs pen.old pen.new result (entered_lost (on pen.old) bytes) }
{
    if bytes < 1 || 2 < bytes {
        return Err(Refusal::Range);
    }
    pen.put_whole(|pen| put_lost_bytes(pen, bytes))
}
