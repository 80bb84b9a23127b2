// The folder for the restorers (docs/HAND-ON.md): the names of its 53 files, which have numbers from 0 on, and the lines of `about.txt`.
#![tactic(auto)]

ghost use Rattle.std.specs.Prelude.{◌<◌};
ghost use Rattle.text.specs.Pens.{Puts};
ghost use Rattle.text.specs.Entry.{PutsWhole};
ghost use Rattle.folder.specs.Files.{track_name, other_name, file_name, about_text};

use bits::Refusal;
use text::Pen;

// Of programme q, counted from 0: its number in two digits, and what file it is.
fn put_track(pen: &mut Pen<'_>, q: u8, rest: &[u8])
    requires { q < 16 }
    ensures { Puts pen.old pen.new (track_name q rest.now) }
{
    pen.put(48 + (q + 1) / 10);
    pen.put(48 + (q + 1) % 10);
    pen.put_all(rest);
}

#[tactic(auto, unfolding(crate::specs::Files::other_name, bits::specs::Letters::letters))]
fn put_other(pen: &mut Pen<'_>, file: u8)
    ensures { Puts pen.old pen.new (other_name file) }
{
    pen.put_all(match file {
        48 => b"names.txt",
        49 => b"words.txt",
        50 => b"about.txt",
        51 => b"listing.txt",
        _ => b"totals.txt",
    });
}

// The name of a file: 0 to 15 are the sound of programmes 1 to 16, 16 to 31 their marks, 32 to 47 their labels, 48 to 52 the files beside. A file stays a
// number, as `names-printed` tells all 53 names by them, and `hand_on` keeps the open files in their order.
#[tactic(auto, unfolding(crate::specs::Files::file_name, bits::specs::Letters::letters))]
pub fn put_name(pen: &mut Pen<'_>, file: u8)
    ensures { Puts pen.old pen.new (file_name file) }
{
    match file {
        0..=15 => put_track(pen, file, b".wav"),
        16..=31 => put_track(pen, file - 16, b".marks.wav"),
        32..=47 => put_track(pen, file - 32, b".labels.txt"),
        _ => put_other(pen, file),
    }
}

fn put_lines(pen: &mut Pen<'_>, reel: &[u8], radius: u8, commit: &[u8])
    ensures { Puts pen.old pen.new (about_text reel.now radius commit.now) }
{
    pen.put_all(b"reel ");
    pen.put_all(reel);
    pen.put_all(b"\nradius");
    pen.put_next(u64::from(radius));
    pen.put_all(b"\ncommit ");
    pen.put_all(commit);
    pen.put(b'\n');
}

// The lines of `about.txt`, for a reel by its name, the radius that it was read at and the commit of the programs.
pub fn put_about(pen: &mut Pen<'_>, reel: &[u8], radius: u8, commit: &[u8]) -> Result<(), Refusal>
    ensures { PutsWhole pen.old pen.new result (about_text reel.now radius commit.now) }
{
    pen.put_whole(|pen| put_lines(pen, reel, radius, commit))
}
