// How a program ended, and the word that says so. A proved program has no status of its own: it says how it ended in a word, on the descriptor that
// its first argument names, and without such an argument it says nothing.
#![tactic(auto)]

mod descriptor;

ghost use Rattle.std.specs.Prelude.{◌≡◌};
ghost use Rattle.text.specs.Pens.{Puts};
ghost use Rattle.ending.specs.Word.{descriptor_of, ending_of, error_line, file_line, word_of};

use std::env::Env;
use std::rt::Files;
use streams::Errno;
use text::Pen;

// Why a program did not read and write all that it should.
#[derive(Clone, Copy, PartialEq, Eq, Debug)]
pub enum Fault {
    // the reel ends before the last superframe that its header promises
    Short,
    // the header is refused: it has fewer than 16 bytes, or its count, its offset or its summary is none
    HeaderShort,
    CountTooLarge,
    OffsetTooSmall,
    HasSummary,
    // the argument for the radius is neither 2 nor 3
    NoRadius,
    // a read or a write failed
    NotRead(Errno),
    NotWritten(Errno),
}

// By the superframes that a header promises, and those that were read.
#[tactic(auto, unfolding(crate::specs::Word::ending_of))]
pub fn ending_of(promised: u32, read: u64) -> Result<(), Fault>
    ensures { result ≡ ending_of promised read }
{
    if u64::from(promised) == read {
        return Ok(());
    }
    Err(Fault::Short)
}

fn put_error(pen: &mut Pen<'_>, word: &[u8], why: Errno)
    ensures { Puts pen.old pen.new (error_line word.now why.number) }
{
    pen.put_all(word);
    pen.put_next(why);
    pen.put(b'\n');
}

// The word of a file that failed, with its name.
pub fn put_file(pen: &mut Pen<'_>, error: Errno, name: &[u8])
    ensures { Puts pen.old pen.new (file_line error.number name.now) }
{
    pen.put_all(b"file");
    pen.put_next(error);
    pen.put(b' ');
    pen.put_all(name);
    pen.put(b'\n');
}

#[tactic(auto, unfolding(crate::specs::Word::error_line, bits::specs::Letters::letters))]
pub fn put_word(pen: &mut Pen<'_>, ended: Result<(), Fault>)
    ensures { Puts pen.old pen.new (word_of ended) }
{
    match ended {
        Ok(()) => pen.put_all(b"ok\n"),
        Err(Fault::Short) => pen.put_all(b"short\n"),
        Err(Fault::HeaderShort) => pen.put_all(b"header\n"),
        Err(Fault::CountTooLarge) => pen.put_all(b"count\n"),
        Err(Fault::OffsetTooSmall) => pen.put_all(b"offset\n"),
        Err(Fault::HasSummary) => pen.put_all(b"summary\n"),
        Err(Fault::NoRadius) => pen.put_all(b"radius\n"),
        Err(Fault::NotRead(error)) => put_error(pen, b"read", error),
        Err(Fault::NotWritten(error)) => put_error(pen, b"write", error),
    }
}

// The descriptor that an argument names.
#[tactic(auto, unfolding(crate::specs::Word::descriptor_of))]
pub fn descriptor_of(argument: &[u8]) -> Option<u8>
    ensures { result ≡ descriptor_of argument.now }
{
    match argument {
        [digit @ b'3'..=b'9'] => Some(digit - b'0'),
        _ => None,
    }
}

// Writes the first bytes of a page to whoever asked for a word.
fn write_word<R: Env + Files>(rt: &R, page: &[u8], end: usize) {
    let mut argument = [0u8; 16];
    let n = streams::argument(rt, 1, &mut argument);
    if let Some(fd) = descriptor_of(&argument[..n]) {
        descriptor::write_first(rt, fd, page, end);
    }
}

// Says how the program ended, to whoever asked for it.
pub fn say<R: Env + Files>(rt: &R, ended: Result<(), Fault>) {
    let mut out = [0u8; 32];
    let mut pen = Pen::new(&mut out, 0);
    put_word(&mut pen, ended);
    let end = pen.to;
    write_word(rt, &out, end);
}

// Says which file failed, by its name, and how.
pub fn say_file<R: Env + Files>(rt: &R, error: Errno, name: &[u8]) {
    let mut out = [0u8; 64];
    let mut pen = Pen::new(&mut out, 0);
    put_file(&mut pen, error, name);
    let end = pen.to;
    write_word(rt, &out, end);
}
