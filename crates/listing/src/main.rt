// Writes the listing of a reel that comes on standard input (docs/FORMAT.md, "Reel file and listing"), and says how that ended.
#![tactic(auto)]

use bits::Refusal;
use ending::Fault;
use reel::Header;
use std::io::Stdout;
use tally::Totals;
use text::Pen;

// Writes the listing, behind which nothing is left but how it ended.
fn write_listing(
    mut to: Stdout,
    header: Result<Header, Refusal>,
    totals: Totals,
) -> Result<(), Fault> {
    let mut out = [0u8; 192];
    let mut pen = Pen::new(&mut out, 0);
    // a listing has at most 175 characters (`listing-whole` in listing_text)
    let _ = listing_text::put_listing(&mut pen, header, totals);
    let end = pen.to;
    streams::write_first(&mut to, &out, end).map_err(Fault::NotWritten)
}

// Whole superframes alone are counted. One that cannot be counted leaves the totals as they are.
fn list_reel(rt: HostRuntime, header: Header) -> Result<(), Fault> {
    let mut totals = Totals::none();
    let came = input::read_all(
        &mut rt.stdin(),
        Some(rt.stderr()),
        header,
        |_, superframe| -> Result<(), Fault> {
            totals = totals.step(superframe).unwrap_or(totals);
            Ok(())
        },
    )?;
    write_listing(rt.stdout(), Ok(header), totals)?;
    ending::ending_of(header.count, u64::from(came))
}

fn list(rt: HostRuntime) -> Result<(), Fault> {
    match input::header(&mut rt.stdin()).map_err(|cut| Fault::NotRead(cut.error))? {
        Ok(header) => list_reel(rt, header),
        Err(fault) => {
            write_listing(rt.stdout(), Err(Refusal::Header), Totals::none())?;
            Err(fault)
        }
    }
}

fn main(rt: HostRuntime) {
    ending::say(&rt, list(rt));
}
