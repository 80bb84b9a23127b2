// The reel file's header, and runs of superframes (docs/FORMAT.md, "Reel file and listing").
#![tactic(auto)]

ghost use Rattle.std.specs.Prelude.{◌≡◌, ◌+◌, ◌<◌, ◌≤◌, length};
ghost use Rattle.reel.specs.Header.{number_at, good_header, header_of, header_answer};
ghost use Rattle.bits.specs.Refused.{number_in};
ghost use Rattle.reel.specs.Run.{run_of, run_answer, part_number, part_of};

use bits::Refusal;

// What a header says: the count of superframes and the offset of the first.
#[derive(Clone, Copy, PartialEq, Eq, Debug)]
pub struct Header {
    pub count: u32,
    pub offset: u32,
}

// The big-endian number in four bytes.
fn number_at(bytes: &[u8], at: usize) -> u32
    requires { at + 4 ≤ length bytes.now }
    ensures { result ≡ number_at bytes.now at }
{
    u32::from_be_bytes([bytes[at], bytes[at + 1], bytes[at + 2], bytes[at + 3]])
}

#[tactic(auto, unfolding(crate::specs::Header::good_header))]
fn is_header(count: u32, offset: u32, summary: u32, entries: u32) -> bool
    ensures { result ≡ good_header count offset summary entries }
{
    count <= 1_000_000 && 16 <= offset && summary == 0 && entries == 0
}

// Refused with number 8 where the first 16 bytes are no good header, or are not there.
#[tactic(auto, unfolding(crate::specs::Header::header_of))]
pub fn read_header(bytes: &[u8]) -> Result<Header, Refusal>
    ensures { header_answer result ≡ header_of bytes.now }
{
    if bytes.len() < 16 {
        return Err(Refusal::Header);
    }
    let count = number_at(bytes, 0);
    let offset = number_at(bytes, 4);
    if !is_header(count, offset, number_at(bytes, 8), number_at(bytes, 12)) {
        return Err(Refusal::Header);
    }
    Ok(Header { count, offset })
}

// How many superframes a run has; refused with number 1 where the bytes are no run.
#[tactic(auto, unfolding(crate::specs::Run::run_of, crate::specs::Run::is_run))]
pub fn run_count(bytes: &[u8]) -> Result<usize, Refusal>
    ensures { run_answer result ≡ run_of bytes.now }
{
    let n = bytes.len();
    if n % 5120 != 0 {
        return Err(Refusal::Length);
    }
    let superframes = n / 5120;
    if 1_000_000 < superframes {
        return Err(Refusal::Length);
    }
    Ok(superframes)
}

// What asking for superframe k of a run is refused for: number 1 where there is no run, then number 2 where it has no such superframe.
pub fn superframe_number_of(run: &[u8], k: usize) -> Result<(), Refusal>
    ensures { number_in result ≡ part_number run.now k }
{
    let count = run_count(run)?;
    if k < 1 || count < k {
        return Err(Refusal::Range);
    }
    Ok(())
}

// Superframe k of a run, counted from 1; where it is refused an empty part, as document 01 has it ("Numbers given").
pub fn superframe_of<'a>(run: &'a [u8], k: usize) -> &'a [u8]
    ensures { result.now ≡ part_of run.now k }
{
    match superframe_number_of(run, k) {
        Err(_) => &run[0..0],
        Ok(()) => {
            let start = (k - 1) * 5120;
            let end = start + 5120;
            &run[start..end]
        }
    }
}
