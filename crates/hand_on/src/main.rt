// Hands on the reel on standard input: fills the folder that it was started in with the files of docs/HAND-ON.md, and says how that ended.
//     hand_on DESCRIPTOR REEL COMMIT RADIUS
// The radius is 2 or 3, and without it 2. REEL and COMMIT stand in `about.txt` as they are given. Where a file fails, its name stands behind the word.
#![tactic(auto)]

mod files; // files.rt: the 53 files, made, written and on the disk
mod going; // going.rt: what goes on from superframe to superframe
mod pages; // pages.rt: the sound and the marks of some superframes, before they are written
mod names; // names.rt: the lines of types and labels
mod stretch; // stretch.rt: the sixteen label tracks
mod finish; // finish.rt: what can be written only behind the last superframe

ghost use Rattle.std.specs.Prelude.{◌≤◌, IfOk};

use ending::Fault;
use files::{FileFault, Opened};
use going::Going;
use reel::Header;
use streams::Progress;
use text::Pen;

// Why the files are not as they should be.
#[derive(Clone, Copy, PartialEq, Eq, Debug)]
enum NotHanded {
    // the reel's fault
    Reel(Fault),
    File(FileFault),
}

// `?` wants one for each of the two errors.
impl From<Fault> for NotHanded {
    fn from(fault: Fault) -> NotHanded {
        NotHanded::Reel(fault)
    }
}

impl From<FileFault> for NotHanded {
    fn from(fault: FileFault) -> NotHanded {
        NotHanded::File(fault)
    }
}

// The superframes that come, at most as many as the header promises, 64 at a time: how many there were.
fn hand_rows(
    rt: HostRuntime,
    opened: &Opened,
    going: &mut Going,
    progress: &mut Progress,
) -> Result<u32, NotHanded>
    ensures { IfOk result (λ k. k ≤ progress.old.promised) }
{
    let promised = progress.promised;
    for first in (0..promised).step_by(64) {
        let until = promised.min(first.saturating_add(64));
        let next = going.hand_row(rt, opened, progress, first..until)?;
        if next < until {
            return Ok(next);
        }
    }
    Ok(promised)
}

fn hand_superframes(
    rt: HostRuntime,
    opened: &Opened,
    going: &mut Going,
    promised: u32,
) -> Result<u32, NotHanded>
    ensures { IfOk result (λ k. k ≤ promised) }
{
    let mut progress = Progress::new(Some(rt.stderr()), promised);
    let handed = hand_rows(rt, opened, going, &mut progress);
    progress.wipe();
    handed
}

fn hand_reel(rt: HostRuntime, header: Header, radius: u8) -> Result<(), NotHanded> {
    let opened = Opened::make_all(rt, header.count)?;
    let mut going = Going::none(radius);
    let done = hand_superframes(rt, &opened, &mut going, header.count)?;
    finish::finish(rt, &opened, header, done, &going)?;
    ending::ending_of(header.count, u64::from(done))?;
    Ok(())
}

fn hand(rt: HostRuntime) -> Result<(), NotHanded> {
    let radius = input::radius_at(&rt, 4).ok_or(Fault::NoRadius)?;
    let header = input::header(&mut rt.stdin()).map_err(|cut| Fault::NotRead(cut.error))??;
    input::reach(&mut rt.stdin(), header)?;
    hand_reel(rt, header, radius)
}

fn tell_file(rt: &HostRuntime, fault: FileFault) {
    let mut name = [0u8; 32];
    let mut pen = Pen::new(&mut name, 0);
    folder::put_name(&mut pen, fault.file);
    let end = pen.to;
    if let Some(letters) = name.get(..end) {
        ending::say_file(rt, fault.error, letters);
    }
}

// The file that failed by its name, or how it ended.
fn tell(rt: &HostRuntime, handed: Result<(), NotHanded>) {
    match handed {
        Ok(()) => ending::say(rt, Ok(())),
        Err(NotHanded::Reel(fault)) => ending::say(rt, Err(fault)),
        Err(NotHanded::File(fault)) => tell_file(rt, fault),
    }
}

fn main(rt: HostRuntime) {
    tell(&rt, hand(rt));
}
