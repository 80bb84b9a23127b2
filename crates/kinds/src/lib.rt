// The kind of each pair of a programme: 0 untroubled, 1 bad, 2 no factor, 3 lost. The kinds stay numbers: `stretches` counts any number from 3 on as lost,
// and its theorems speak of lists of numbers.
#![tactic(auto)]

ghost use Rattle.std.specs.Prelude.{◌≡◌};
ghost use Rattle.bits.specs.Refused.{told};
ghost use Rattle.kinds.specs.Kinds.{troubling, kind_of, kinds_of, lost_kinds};

use bits::Refusal;

fn troubles(m: u8) -> bool
    ensures { result ≡ troubling m }
{
    m == 2 || 4 < m
}

#[tactic(auto, unfolding(crate::specs::Kinds::kind_of))]
fn kind_of(a: u8, b: u8) -> u8
    ensures { result ≡ kind_of a b }
{
    if a == 3 || b == 3 {
        return 2;
    }
    u8::from(troubles(a) || troubles(b))
}

// Of a lost superframe.
pub fn lost() -> [u8; 64]
    ensures { result ≡ lost_kinds }
{
    [3u8; 64]
}

// Of programme q, 1 to 16, out of a superframe's 2,048 marks.
pub fn of_programme(q: usize, marks: &[u8]) -> Result<[u8; 64], Refusal>
    ensures { told (λ kinds. kinds) result ≡ kinds_of q marks.now }
{
    wav_sound::number_of(q, marks.len())?;
    Ok(std::array::from_fn(|f| {
        let at = 32 * f + 2 * (q - 1);
        kind_of(marks[at], marks[at + 1])
    }))
}
