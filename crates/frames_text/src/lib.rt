// The text of a superframe's sound in a transcript (docs/TRANSCRIPT.md), put by a pen: two lines for each frame.
#![tactic(auto)]

ghost use Rattle.std.specs.Prelude.{◌≡◌, ◌<◌, length};
ghost use Rattle.text.specs.Pens.{on, Puts};
ghost use Rattle.frames_text.specs.Frames.{marks_line, samples_line, frame_text, frames_text, frames_put};

use text::Pen;

#[tactic(auto, using(text::proofs::Pens::puts_then), unfolding(crate::specs::Frames::marks_line, bits::specs::Letters::letters))]
fn put_marks(pen: &mut Pen<'_>, f: usize, marks: &[u8])
    ensures { Puts pen.old pen.new (marks_line f marks.now) }
{
    pen.put_all(b"marks");
    pen.put_next(f as u64);
    pen.put(b' ');
    text_rows::put_row(pen, marks);
    pen.put(b'\n');
}

fn put_samples(pen: &mut Pen<'_>, f: usize, samples: &[i16])
    ensures { Puts pen.old pen.new (samples_line f samples.now) }
{
    pen.put_all(b"samples");
    pen.put_next(f as u64);
    text_rows::put_turns(pen, samples.len(), |pen, c| pen.put_next(samples[c]));
    pen.put(b'\n');
}

// The lengths are required, here and in `transcript_text`: arrays of 2,048 would be two conversions that can fail in place of two comparisons.
fn put_frame(pen: &mut Pen<'_>, n: usize, samples: &[i16], marks: &[u8])
    requires { (length samples.now ≡ 2048) × (length marks.now ≡ 2048) × (n < 64) }
    ensures { Puts pen.old pen.new (frame_text samples.now marks.now n) }
{
    let a = 32 * n;
    let e = a + 32;
    put_marks(pen, n + 1, &marks[a..e]);
    put_samples(pen, n + 1, &samples[a..e]);
}

// Of other lengths than 2,048 no line is put, and the pen's place is then past the end of every buffer, as for a text that does not fit: nothing is
// refused here (`frames_put`).
pub fn put_frames(pen: &mut Pen<'_>, samples: &[i16], marks: &[u8])
    ensures same_buffer { pen.new.out.ghost_name ≡ pen.old.out.ghost_name }
    ensures told { on pen.new ≡ frames_put (on pen.old) samples.now marks.now }
{
    if samples.len() != 2048 || marks.len() != 2048 {
        pen.to = usize::MAX;
        return;
    }
    text_rows::put_turns(pen, 64, |pen, n| put_frame(pen, n, samples, marks));
}
