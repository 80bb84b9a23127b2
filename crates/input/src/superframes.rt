// The superframes of a reel behind its header, each handed on when it is there.
ghost use Rattle.std.specs.Prelude.{◌≡◌, ◌≤◌, ◌<◌, IfOk, IsOk};
ghost use Rattle.input.specs.HandedOn.{HandedOn};

use ending::Fault;
use reel::Header;
use std::io::{Read, Stderr};
use std::ops::Range;
use streams::Progress;

// Reads on to the first superframe. Where none is promised nothing more is read.
pub fn reach<R: Read>(from: &mut R, header: Header) -> Result<(), Fault>
    ensures { header.count ≡ 0 → IsOk result }
{
    if header.count == 0 {
        return Ok(());
    }
    crate::skip_to(from, header.offset).map_err(Fault::NotRead)
}

// Hands on the superframes at some places, from 0, and answers the place of the first that was not: that is behind them, or before where the reel ends.
// Each is handed on once, in order, and none behind a failure. `progress` counts those that came, one that was not taken among them.
pub fn read_places<R: Read, E: From<Fault>, F: FnMut(u32, &[u8; 5120]) -> Result<(), E>>(
    from: &mut R,
    progress: &mut Progress,
    places: Range<u32>,
    mut take: F,
) -> Result<u32, E>
    requires { (state : F) (k : _) (superframe : _) → k < places.end → F.pre state k superframe }
    ensures bound { IfOk result (λ k. places.start ≤ places.end → k ≤ places.end) }
    ensures handed { IfOk result (λ k. (last : F) × HandedOn (λ f k g. (superframe : _) × F.step f k superframe (Ok tt) g) places.start take k last) }
    ensures counted { places.start ≤ progress.old.done → progress.old.done ≤ places.end → (places.start ≤ progress.new.done) × (progress.new.done ≤ places.end) }
    ensures told { IfOk result (λ k. (places.start ≤ k) × (progress.old.done ≡ places.start → k ≡ progress.new.done)) }
{
    let mut next = places.start;
    for k in places {
        let mut superframe = [0u8; 5120];
        let came = streams::fill(from, &mut superframe).map_err(|cut| Fault::NotRead(cut.error))?;
        if came < 5120 {
            break;
        }
        progress.done = k + 1;
        take(k, &superframe)?;
        next = k + 1;
        progress.show();
    }
    Ok(next)
}

// All superframes of a reel, at most as many as its header promises, from 0: how many came.
pub fn read_all<R: Read, E: From<Fault>, F: FnMut(u32, &[u8; 5120]) -> Result<(), E>>(
    from: &mut R,
    watched: Option<Stderr>,
    header: Header,
    take: F,
) -> Result<u32, E>
    requires { (state : F) (k : _) (superframe : _) → k < header.count → F.pre state k superframe }
    ensures bound { IfOk result (λ k. k ≤ header.count) }
    ensures handed { IfOk result (λ k. (last : F) × HandedOn (λ f k g. (superframe : _) × F.step f k superframe (Ok tt) g) 0 take k last) }
{
    reach(from, header)?;
    let mut progress = Progress::new(watched, header.count);
    let read = read_places(from, &mut progress, 0..header.count, take);
    progress.wipe();
    read
}
