// The 512 blocks of a superframe, read at a radius by the tables (document 02, P3 and P9) and counted, from its bytes alone.
ghost use Rattle.std.specs.Prelude.{◌≡◌, ◌<◌, eqb};
ghost use Rattle.bits.specs.Table.{tabulate};
ghost use Rattle.reading.specs.Reading.{ordinary};
ghost use Rattle.block.specs.Mark.{counted_as};
ghost use Rattle.words.specs.Words.{told_in, true_reader};
ghost use Rattle.tape.specs.Tape.{block_in, block_mark, quad_with, how_many, tallied_by, in_eights, mark_among, counted_marks, gathered_from, counts_of};

use super::frames;
use bits::Refusal;
use words::{Reader, Told};

// For each of the eight block positions, how many of its 64 blocks read so: a list for each kind, as the totals add them up (tally::sum, Running::take).
#[derive(Clone, Copy)]
pub struct Blocks {
    pub clean: [u8; 8],
    pub mended: [u8; 8],
    pub bad: [u8; 8],
}

// How many bits of the 128 syncs are wrong, and the readings counted.
#[derive(Clone, Copy)]
pub struct Counted {
    pub wrong: u16,
    pub blocks: Blocks,
}

// The block in position p of frame number f.
fn block_at(sf: &[u8; 5120], f: u8, p: u8) -> [u8; 77]
    requires { (f < 64) × (p < 8) }
    ensures { result ≡ block_in sf.now f p }
{
    let frame = u16::from(f) + 64 * u16::from(p / 4);
    frame::block_of(frames::frame_at(sf, frame), usize::from(p % 4)).unwrap()
}

// The same block as it is read.
fn quad_at(reader: &Reader, radius: u8, sf: &[u8; 5120], f: u8, p: u8) -> Told
    requires { (f < 64) × (p < 8) }
    ensures { result ≡ told_in reader.now radius (block_in sf.now f p) }
{
    reader.read(radius, block_at(sf, f, p))
}

// The same for any bytes, any radius and any place: its mark, and the codes of its four channels. Another length is refused, then what is out of range.
#[tactic(auto, unfolding(crate::specs::Tape::quad_by))]
pub fn read_at(reader: &Reader, radius: u8, sf: &[u8], f: u8, p: u8) -> Result<Told, Refusal>
    ensures { result ≡ quad_with reader.now radius sf.now f p }
{
    let Some(sf) = sf.as_array::<5120>() else {
        return Err(Refusal::Length);
    };
    if !reading::is_radius(radius) || 64 <= f || 8 <= p {
        return Err(Refusal::Range);
    }
    Ok(quad_at(reader, radius, sf, f, p))
}

// The marks of all blocks at the ordinary radius, frame number by frame number. n is less than 512, so that its frame number and its position fit a byte.
// A reader may have any tables, so that they are the true ones is required.
fn marks_by(reader: &Reader, sf: &[u8; 5120]) -> [u8; 512]
    requires { reader.now ≡ true_reader }
    ensures { result ≡ tabulate 512 (in_eights (block_mark ordinary sf.now)) }
{
    let mut out = [0u8; 512];
    for n in 0..512 {
        let block = quad_at(reader, reading::ORDINARY, sf, (n / 8) as u8, (n % 8) as u8);
        out[n] = block.mark;
    }
    out
}

fn all_marks(sf: &[u8; 5120]) -> [u8; 512]
    ensures { result ≡ tabulate 512 (in_eights (block_mark ordinary sf.now)) }
{
    let reader = Reader::new();
    marks_by(&reader, sf)
}

// What a block with a mark counts as: 0 clean, 1 mended, 2 bad. Mark 4 counts as mended. Marks are document 01's numbers, as they lie in the lent list.
fn kind_of(mark: u8) -> u8
    ensures { result ≡ counted_as mark }
{
    if mark == 4 { 1 } else { mark }
}

fn kinds_of(marks: [u8; 512]) -> [u8; 512]
    ensures { result ≡ counted_marks marks }
{
    std::array::from_fn(|n| kind_of(marks[n]))
}

// How many blocks of a position count as one kind.
fn tally(marks: [u8; 512], mark: u8, p: usize) -> u8
    requires { p < 8 }
    ensures { result ≡ how_many 64 (λ f. eqb (mark_among marks f p) mark) }
{
    let mut sum: u8 = 0;
    for f in 0..64 {
        if marks[8 * f + p] == mark {
            sum += 1;
        }
    }
    sum
}

fn tallies(marks: [u8; 512], mark: u8) -> [u8; 8]
    ensures { result ≡ tallied_by (mark_among marks) mark }
{
    std::array::from_fn(|p| tally(marks, mark, p))
}

// The counts of 512 marks, frame number by frame number, beside the wrong bits of syncs. A mark that no block has is refused.
pub fn gathered(wrong: u16, marks: [u8; 512]) -> Result<Counted, Refusal>
    ensures { result ≡ gathered_from wrong marks }
{
    let kinds = kinds_of(marks);
    if !bits::all_below(&kinds, 3) {
        return Err(Refusal::Range);
    }
    let blocks = Blocks {
        clean: tallies(kinds, 0),
        mended: tallies(kinds, 1),
        bad: tallies(kinds, 2),
    };
    Ok(Counted { wrong, blocks })
}

// The ordinary readings of a superframe, counted without a state.
pub fn counts(bytes: &[u8]) -> Result<Counted, Refusal>
    ensures { result ≡ counts_of bytes.now }
{
    let Some(sf) = bytes.as_array::<5120>() else {
        return Err(Refusal::Length);
    };
    let wrong = frames::syncs(sf)?;
    gathered(wrong, all_marks(sf))
}
