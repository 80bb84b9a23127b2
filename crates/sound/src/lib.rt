// The samples and marks of a superframe, read at a radius, at given factors (docs/FORMAT.md, "Superframe"; document 02, P9), each of its 512 blocks into its
// own four places of two lent slices.
#![tactic(auto)]

ghost use Rattle.std.specs.Prelude.{◌≡◌, true, ◌+◌, ◌*◌, ◌<◌, length};
ghost use Rattle.bits.specs.Table.{tabulate};
ghost use Rattle.sample.specs.Sample.{is_code};
ghost use Rattle.reading.specs.Reading.{is_radius};
ghost use Rattle.words.specs.Words.{true_reader};
ghost use Rattle.tape.specs.Tape.{block_mark, in_eights};
ghost use Rattle.sound.specs.Sound.{sound_at, mark_with, in_rows, sample_at, mark_at, samples_of, marks_of, lengths_fit, Filled};

use bits::Refusal;
use tape::Counted;
use words::Reader;

// 0 where there is no factor.
fn sound_of(code: i16, factor: u8) -> i16
    requires { is_code code ≡ true }
    ensures { result ≡ sound_at code factor }
{
    sample::sample_of(code, factor).unwrap_or(0)
}

// 3 where there is no factor.
#[tactic(auto, unfolding(crate::specs::Sound::mark_with))]
fn marked(mark: u8, factor: u8) -> u8
    ensures { result ≡ mark_with mark factor }
{
    if 7 < factor { 3 } else { mark }
}

// Block n, frame number by frame number: four samples and four marks, and the block's own mark. n is less than 512, so that its frame number and its position fit a byte.
// A reader may have any tables, so that they are the true ones is required.
fn four(
    reader: &Reader,
    radius: u8,
    sf: &[u8; 5120],
    n: usize,
    factors: &[u8; 32],
    samples: &mut [i16],
    marks: &mut [u8],
) -> u8
    requires there { n < 512 }
    requires samples_len { length samples.old ≡ 4 }
    requires marks_len { length marks.old ≡ 4 }
    requires tables { reader.now ≡ true_reader }
    requires radius_value { is_radius radius ≡ true }
    ensures value { result ≡ in_eights (block_mark radius sf.now) n }
    ensures samples_after { samples.new ≡ tabulate 4 (λ j. in_rows (sample_at radius sf.now factors.now) (4 * n + j)) }
    ensures marks_after { marks.new ≡ tabulate 4 (λ j. in_rows (mark_at radius sf.now factors.now) (4 * n + j)) }
{
    let block = tape::read_at(reader, radius, sf, (n / 8) as u8, (n % 8) as u8).unwrap();
    let first = 4 * (n % 8);
    for j in 0..4 {
        let factor = factors[first + j];
        samples[j] = sound_of(block.codes[j], factor);
        marks[j] = marked(block.mark, factor);
    }
    block.mark
}

// All 2,048 places of both; the blocks' own marks are handed back.
fn fill_by(
    reader: &Reader,
    radius: u8,
    sf: &[u8; 5120],
    factors: &[u8; 32],
    samples: &mut [i16],
    marks: &mut [u8],
) -> [u8; 512]
    requires samples_len { length samples.old ≡ 2048 }
    requires marks_len { length marks.old ≡ 2048 }
    requires tables { reader.now ≡ true_reader }
    requires radius_value { is_radius radius ≡ true }
    ensures value { result ≡ tabulate 512 (in_eights (block_mark radius sf.now)) }
    ensures samples_after { samples.new ≡ samples_of radius sf.now factors.now }
    ensures marks_after { marks.new ≡ marks_of radius sf.now factors.now }
{
    let mut out = [0u8; 512];
    for n in 0..512 {
        let a = 4 * n;
        let e = a + 4;
        let mark = four(
            reader,
            radius,
            sf,
            n,
            factors,
            &mut samples[a..e],
            &mut marks[a..e],
        );
        out[n] = mark;
    }
    out
}

// The same, with the reader made.
fn fill_all(
    radius: u8,
    sf: &[u8; 5120],
    factors: &[u8; 32],
    samples: &mut [i16],
    marks: &mut [u8],
) -> [u8; 512]
    requires samples_len { length samples.old ≡ 2048 }
    requires marks_len { length marks.old ≡ 2048 }
    requires radius_value { is_radius radius ≡ true }
    ensures value { result ≡ tabulate 512 (in_eights (block_mark radius sf.now)) }
    ensures samples_after { samples.new ≡ samples_of radius sf.now factors.now }
    ensures marks_after { marks.new ≡ marks_of radius sf.now factors.now }
{
    let reader = Reader::new();
    fill_by(&reader, radius, sf, factors, samples, marks)
}

// Whether a superframe and the two lists for its samples and marks have their lengths.
#[tactic(auto, unfolding(crate::specs::Sound::lengths_fit))]
pub fn lengths_fit(bytes: usize, samples: usize, marks: usize) -> bool
    ensures { result ≡ lengths_fit bytes samples marks }
{
    bytes == 5120 && samples == 2048 && marks == 2048
}

// Refused, nothing is written: all 128 syncs are looked at before the first sample.
pub fn fill(
    radius: u8,
    bytes: &[u8],
    factors: &[u8; 32],
    samples: &mut [i16],
    marks: &mut [u8],
) -> Result<Counted, Refusal>
    ensures { Filled radius bytes.now factors.now samples.old marks.old result samples.new marks.new }
{
    let Some(sf) = bytes.as_array::<5120>() else {
        return Err(Refusal::Length);
    };
    if !lengths_fit(bytes.len(), samples.len(), marks.len()) {
        return Err(Refusal::Length);
    }
    if !reading::is_radius(radius) {
        return Err(Refusal::Range);
    }
    let wrong = tape::syncs(bytes)?;
    let read = fill_all(radius, sf, factors, samples, marks);
    tape::gathered(wrong, read)
}
