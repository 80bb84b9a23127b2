// Makes the calls that standard input asks for, a line each, and writes each line with its answer behind it, so that a program that shares
// nothing with this one can check the answers. second/README.md, "Call lines", has the form of lines and answers.
#![tactic(auto)]

mod blocks; // blocks.rt: bwrite, bread, bcodes
mod draws; // draws.rt: numbers that look random
mod frames; // frames.rt: fwrite, fread
mod line_words; // line_words.rt: the words of a line
mod lines; // lines.rt: a line answered by what it calls
mod pages; // pages.rt: a line and its answer, as text
mod programmes; // programmes.rt: pread, pwrite, name
mod recipes; // recipes.rt: the superframe of a call
mod reels; // reels.rt: header, run, part
mod samples; // samples.rt: code, sample, codes, samples, factor
mod scales; // scales.rt: swrite, sread, sextra
mod states; // states.rt: fresh, lose, reset, service
mod sums; // sums.rt: what stands for a long list in an answer
mod takes; // takes.rt: take
mod totals; // totals.rt: the words of running totals

ghost use Rattle.std.specs.Prelude.{◌≤◌};

use std::io;
use std::io::{Read, Write};

// What is held of the line that is being read: so many characters in fixed memory, as no program here has a heap.
#[derive(Drop)]
struct Line {
    bytes: [u8; 1185],
    // how many characters
    count: usize,
    // whether earlier ones have gone out already: the line is longer than any call. No value goes with it
    spilled: bool,
    ghost fits: { count ≤ 1185 },
}

impl Line {
    fn blank() -> Self {
        Line {
            bytes: [0; 1185],
            count: 0,
            spilled: false,
        }
    }

    // A line of any length goes through: what does not fit is echoed at once.
    fn hold<W: Write>(&mut self, out: &mut W, byte: u8) -> io::Result<()> {
        if self.count == self.bytes.len() {
            out.write_all(&self.bytes)?;
            self.count = 0;
            self.spilled = true;
        }
        self.bytes[self.count] = byte;
        self.count += 1;
        Ok(())
    }

    fn finish<W: Write>(&self, out: &mut W) -> io::Result<()> {
        let line = &self.bytes[..self.count];
        if self.spilled {
            out.write_all(line)?;
            return out.write_all(b" = ?\n");
        }
        let mut room = [0; 2816];
        let end = lines::answer(line, &mut room);
        match room.get(..end) {
            Some(text) => out.write_all(text),
            None => Ok(()),
        }
    }

    fn take<W: Write>(&mut self, out: &mut W, byte: u8) -> io::Result<()> {
        if byte != b'\n' {
            return self.hold(out, byte);
        }
        self.finish(out)?;
        self.count = 0;
        self.spilled = false;
        Ok(())
    }
}

// A proved loop has to end, and nothing says that the input does: so the turns are counted, up to a number that no run uses up. A read or a write
// that fails ends the program with its error.
fn main(rt: HostRuntime) -> io::Result<()> {
    let mut input = rt.stdin();
    let mut out = rt.stdout();
    let mut line = Line::blank();
    for _ in 0..u64::MAX {
        let mut piece = [0u8; 4096];
        let n = input.read(&mut piece)?;
        if n == 0 {
            break;
        }
        for &byte in &piece[..n] {
            line.take(&mut out, byte)?;
        }
    }
    if 0 < line.count {
        line.finish(&mut out)?;
    }
    Ok(())
}
