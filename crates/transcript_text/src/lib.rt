// The text of a transcript (docs/TRANSCRIPT.md): the lines of a superframe, put by a pen.
#![tactic(auto)]

ghost use Rattle.std.specs.Prelude.{◌≡◌, length};
ghost use Rattle.text.specs.Pens.{on, Puts};
ghost use Rattle.text.specs.Entry.{entered};
ghost use Rattle.transcript_text.specs.Superframe.{head_line, sync_line, blocks_line, superframe_text, entered_superframe};

use bits::Refusal;
use superframe::{NotTaken, Taken};
use tape::Blocks;
use text::Pen;

fn put_head(pen: &mut Pen<'_>, k: u32, number: u8)
    ensures { Puts pen.old pen.new (head_line k number) }
{
    pen.put_all(b"superframe");
    pen.put_next(u64::from(k));
    pen.put_all(b" number");
    pen.put_next(u64::from(number));
    pen.put(b'\n');
}

fn put_blocks(pen: &mut Pen<'_>, blocks: Blocks)
    ensures { Puts pen.old pen.new (blocks_line blocks) }
{
    let Blocks { clean, mended, bad } = blocks;
    pen.put_all(b"blocks");
    pen.put_next(tally::sum(clean));
    pen.put_next(tally::sum(mended));
    pen.put_next(tally::sum(bad));
    pen.put(b'\n');
}

// How many bits of the syncs are wrong.
fn put_wrong(pen: &mut Pen<'_>, wrong: u16)
    ensures { Puts pen.old pen.new (sync_line wrong) }
{
    pen.put_all(b"sync");
    pen.put_next(u64::from(wrong));
    pen.put(b'\n');
}

fn put_lines(
    pen: &mut Pen<'_>,
    k: u32,
    taken: Result<Taken, NotTaken>,
    samples: &[i16],
    marks: &[u8],
)
    requires { (length samples.now ≡ 2048) × (length marks.now ≡ 2048) }
    ensures { Puts pen.old pen.new (superframe_text k taken samples.now marks.now) }
{
    match taken {
        Ok(taken) => {
            put_head(pen, k, 0);
            beside_text::put_beside(pen, taken);
            put_wrong(pen, taken.wrong);
            put_blocks(pen, taken.blocks);
            frames_text::put_frames(pen, samples, marks);
        }
        Err(refused) => put_head(pen, k, refused.why.number()),
    }
}

// The lines of superframe k from the pen's place on, by what taking it answered.
pub fn put_superframe(
    pen: &mut Pen<'_>,
    k: u32,
    taken: Result<Taken, NotTaken>,
    samples: &[i16],
    marks: &[u8],
) -> Result<(), Refusal>
    ensures same_buffer { pen.new.out.ghost_name ≡ pen.old.out.ghost_name }
    ensures told { entered result (on pen.new) ≡ entered_superframe (on pen.old) k taken samples.now marks.now }
{
    if samples.len() != 2048 || marks.len() != 2048 {
        return Err(Refusal::Length);
    }
    pen.put_whole(|pen| put_lines(pen, k, taken, samples, marks))
}
