// What can be written only behind the last superframe: the stretches that are still open, the true lengths, and the files that are of no programme.
ghost use Rattle.std.specs.Prelude.{◌<◌};

use crate::files::{FileFault, Opened};
use crate::going::Going;
use bits::Refusal;
use reel::Header;
use running::Running;
use streams::Errno;
use tally::Totals;
use text::Pen;

// Writes a file of N bytes at most, which something puts.
fn write_text<const N: usize, F: FnOnce(&mut Pen<'_>) -> Result<(), Refusal>>(
    opened: &Opened,
    file: u8,
    put: F,
) -> Result<(), FileFault>
    requires { F.IsAlwaysCallable put × (N < 9223372036854775808) }
{
    let mut out = [0u8; N];
    let mut pen = Pen::new(&mut out, 0);
    put(&mut pen).map_err(|_| FileFault {
        file,
        error: Errno::EIO,
    })?;
    let end = pen.to;
    opened.write(file, &out, end)
}

fn write_listing(opened: &Opened, header: Header, totals: Totals) -> Result<(), FileFault> {
    write_text::<192, _>(opened, 51, |pen| {
        listing_text::put_listing(pen, Ok(header), totals)
    })
}

// Their text has at most 1,057 characters (`totals-whole` in totals_text).
fn write_totals(opened: &Opened, header: Header, totals: Running) -> Result<(), FileFault> {
    write_text::<1088, _>(opened, 52, |pen| {
        totals_text::put_totals(pen, Ok(header), totals)
    })
}

// The name and the commit are the arguments behind the first.
fn write_about(rt: HostRuntime, opened: &Opened, radius: u8) -> Result<(), FileFault> {
    let mut reel = [0u8; 4096];
    let length = streams::argument(&rt, 2, &mut reel);
    let mut commit = [0u8; 128];
    let letters = streams::argument(&rt, 3, &mut commit);
    write_text::<4352, _>(opened, 50, |pen| {
        folder::put_about(pen, &reel[..length], radius, &commit[..letters])
    })
}

pub fn finish(
    rt: HostRuntime,
    opened: &Opened,
    header: Header,
    superframes: u32,
    going: &Going,
) -> Result<(), FileFault> {
    going.tracks.finish(opened)?;
    // the headers say what was promised until it turns out otherwise
    if header.count != superframes {
        opened.put_right(superframes)?;
    }
    write_about(rt, opened, going.radius)?;
    write_listing(opened, header, going.totals)?;
    write_totals(opened, header, going.state.totals)?;
    opened.settle()
}
