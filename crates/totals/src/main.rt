// Writes the running totals of a reel that comes on standard input (document 02, P7; docs/HAND-ON.md, "totals.txt"), and says how that ended.
//     totals DESCRIPTOR RADIUS
// The radius is 2 or 3, and without it 2.
#![tactic(auto)]

use bits::Refusal;
use ending::Fault;
use reel::Header;
use running::Running;
use std::io::Stdout;
use superframe::State;
use text::Pen;

// The state behind one superframe more, whose samples and marks nobody asks for.
fn after(state: State, radius: u8, superframe: &[u8; 5120]) -> State {
    let mut samples = [0i16; 2048];
    let mut marks = [0u8; 2048];
    match state.take(radius, superframe, &mut samples, &mut marks) {
        Ok(taken) => taken.next,
        Err(lost) => lost.next,
    }
}

// Writes the totals, behind which nothing is left but how it ended.
fn write_totals(
    mut to: Stdout,
    header: Result<Header, Refusal>,
    totals: Running,
) -> Result<(), Fault> {
    let mut out = [0u8; 1088];
    let mut pen = Pen::new(&mut out, 0);
    // their text has at most 1,057 characters (`totals-whole` in totals_text)
    let _ = totals_text::put_totals(&mut pen, header, totals);
    let end = pen.to;
    streams::write_first(&mut to, &out, end).map_err(Fault::NotWritten)
}

fn count_reel(rt: HostRuntime, header: Header, radius: u8) -> Result<(), Fault> {
    let mut state = State::fresh();
    let came = input::read_all(
        &mut rt.stdin(),
        Some(rt.stderr()),
        header,
        |_, superframe| -> Result<(), Fault> {
            state = after(state, radius, superframe);
            Ok(())
        },
    )?;
    write_totals(rt.stdout(), Ok(header), state.totals)?;
    ending::ending_of(header.count, u64::from(came))
}

fn count(rt: HostRuntime) -> Result<(), Fault> {
    let radius = input::radius_at(&rt, 2).ok_or(Fault::NoRadius)?;
    match input::header(&mut rt.stdin()).map_err(|cut| Fault::NotRead(cut.error))? {
        Ok(header) => count_reel(rt, header, radius),
        Err(fault) => {
            write_totals(rt.stdout(), Err(Refusal::Header), Running::none())?;
            Err(fault)
        }
    }
}

fn main(rt: HostRuntime) {
    ending::say(&rt, count(rt));
}
