// Writes every answer of the reader, superframe by superframe, for the reel on standard input, so that a program that shares nothing with this
// one can be compared with it, and says how that ended. docs/TRANSCRIPT.md has the form of the lines.
//     transcript DESCRIPTOR RADIUS
// The radius is 2 or 3, and without it 2.
#![tactic(auto)]

use ending::Fault;
use reel::Header;
use std::io::{IsTerminal, Stderr, Stdout};
use superframe::State;
use text::Pen;

// Superframe k, from 1, and the state that the next one is taken with.
fn write_superframe(
    mut to: Stdout,
    k: u32,
    radius: u8,
    state: State,
    bytes: &[u8; 5120],
) -> Result<State, Fault> {
    let mut samples = [0i16; 2048];
    let mut marks = [0u8; 2048];
    let taken = state.take(radius, bytes, &mut samples, &mut marks);
    let mut out = [0u8; 20480];
    let mut pen = Pen::new(&mut out, 0);
    // its lines have at most 18,616 characters (`superframe-whole` in transcript_text)
    let _ = transcript_text::put_superframe(&mut pen, k, taken, &samples, &marks);
    let end = pen.to;
    streams::write_first(&mut to, &out, end).map_err(Fault::NotWritten)?;
    match taken {
        Ok(taken) => Ok(taken.next),
        Err(lost) => Ok(lost.next),
    }
}

// Where the text itself goes to a terminal, nothing else is shown there.
fn watched(rt: HostRuntime) -> Option<Stderr> {
    if rt.stdout().is_terminal() {
        return None;
    }
    Some(rt.stderr())
}

fn write_line(mut to: Stdout, line: &[u8]) -> Result<(), Fault> {
    streams::write(&mut to, line).map_err(Fault::NotWritten)
}

// The last line, and how all of it ended.
fn write_end(to: Stdout, ended: Result<(), Fault>) -> Result<(), Fault> {
    match ended {
        Ok(()) => write_line(to, b"end ok\n")?,
        Err(_) => write_line(to, b"end short\n")?,
    }
    ended
}

fn write_reel(rt: HostRuntime, header: Header, radius: u8) -> Result<(), Fault> {
    let mut state = State::fresh();
    let came = input::read_all(
        &mut rt.stdin(),
        watched(rt),
        header,
        |k, superframe| -> Result<(), Fault> {
            state = write_superframe(rt.stdout(), k + 1, radius, state, superframe)?;
            Ok(())
        },
    )?;
    write_end(
        rt.stdout(),
        ending::ending_of(header.count, u64::from(came)),
    )
}

fn write(rt: HostRuntime) -> Result<(), Fault> {
    let radius = input::radius_at(&rt, 2).ok_or(Fault::NoRadius)?;
    match input::header(&mut rt.stdin()).map_err(|cut| Fault::NotRead(cut.error))? {
        Ok(header) => write_reel(rt, header, radius),
        Err(fault) => {
            write_line(rt.stdout(), b"refused 8\n")?;
            Err(fault)
        }
    }
}

fn main(rt: HostRuntime) {
    ending::say(&rt, write(rt));
}
