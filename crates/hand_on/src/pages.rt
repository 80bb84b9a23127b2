// The sound, the marks and the words of up to 64 superframes, before they are written: file f of the first 32 has the 16,384 bytes from 16384 f on,
// and the words stand behind them.
ghost use Rattle.std.specs.Prelude.{◌≡◌, ◌<◌, ◌≤◌, length};

use crate::files;
use crate::files::{FileFault, Opened};
use bits::Refusal;
use streams::Errno;
use text::Pen;

// How many bytes the parts of the 32 files have together: there the words begin.
pub const WORDS: usize = 524288;

// As many zeros. The contract says only how many they are, which is what lending them needs.
pub(crate) fn zeros<const N: usize>() -> [u8; N]
    ensures { N ≡ length result }
{
    [0; N]
}

// What was heard in a superframe that is not lost.
#[derive(Clone, Copy)]
pub struct Sound<'a> {
    pub samples: &'a [i16],
    pub marks: &'a [u8],
}

// The bytes of superframe n, from 0, in the two parts of programme q, from 0.
fn put_programme(
    pages: &mut [u8],
    n: usize,
    q: usize,
    heard: Option<Sound<'_>>,
) -> Result<(), Refusal>
    requires { (n < 64) × (q < 16) }
{
    let mut sound = Pen::new(pages, 16384 * q + 256 * n);
    match heard {
        Some(heard) => wav_sound::put_sound(&mut sound, q + 1, heard.samples)?,
        None => wav_sound::put_lost(&mut sound, 2)?,
    }
    let mut marks = Pen::new(pages, 262144 + 16384 * q + 128 * n);
    match heard {
        Some(heard) => wav_sound::put_marks(&mut marks, q + 1, heard.marks),
        None => wav_sound::put_lost(&mut marks, 1),
    }
}

// In all 32 parts.
fn put_parts(pages: &mut [u8], n: usize, heard: Option<Sound<'_>>) -> Result<(), Refusal>
    requires { n < 64 }
{
    for q in 0..16 {
        put_programme(pages, n, q, heard)?;
    }
    Ok(())
}

// Superframe k, from 0. It is the first in the pages where k is a multiple of 64, and else stands behind the one before it.
pub fn put(pages: &mut [u8], k: u32, heard: Option<Sound<'_>>) -> Result<(), FileFault> {
    put_parts(pages, (k % 64) as usize, heard).map_err(|_| FileFault {
        file: 0,
        error: Errno::EIO,
    })
}

// How many bytes n superframes have in a file of sound or of marks.
fn share(file: u8, n: u32) -> usize
    requires { n ≤ 64 }
{
    let bytes = files::sample_bytes(file).unwrap_or(0);
    128 * usize::from(bytes) * n as usize
}

// A file's part of the pages, n superframes from its start.
fn write_part(opened: &Opened, file: u8, pages: &[u8], n: u32) -> Result<(), Errno>
    requires { n ≤ 64 }
{
    let part = pages.get(16384 * usize::from(file)..).ok_or(Errno::EIO)?;
    opened.put(file, part, share(file, n))
}

fn write_words(opened: &Opened, pages: &[u8], end: usize) -> Result<(), Errno> {
    let words = pages.get(WORDS..end).ok_or(Errno::EIO)?;
    opened.put(49, words, words.len())
}

// Writes n superframes, whose words end at a place.
pub fn write(opened: &Opened, pages: &[u8], n: u32, end: usize) -> Result<(), FileFault>
    requires { n ≤ 64 }
{
    files::each(0..32, |file| write_part(opened, file, pages, n))?;
    write_words(opened, pages, end).map_err(|error| FileFault { file: 49, error })
}
