// A superframe is taken at a radius (document 02, P9): its samples and marks go into two lent slices, and the state comes back with the answer.
ghost use Rattle.std.specs.Prelude.{◌≡◌, true, length, Err};
ghost use Rattle.running.specs.Running.{has_room};
ghost use Rattle.superframe.specs.State.{state_in_range};
ghost use Rattle.superframe.specs.Take.{takable, beside_with, Took};

use super::state::State;
use beside::Programmes;
use bits::Refusal;
use service_sync::Kind;
use tape::{Blocks, Counted};

// What is handed out with a superframe that is taken, beside its samples and marks.
#[derive(Clone, Copy)]
pub struct Taken {
    pub next: State,
    // how many bits of its 128 syncs are wrong
    pub wrong: u16,
    pub blocks: Blocks,
    pub programmes: Programmes,
    // the six service bytes
    pub six: [u8; 6],
    // of the six bytes; 0: they belong to no open group
    pub position: u8,
    // which service sync is behind them: neither of the two is number 7
    pub kind: Kind,
    // 32 labels of eight characters, where they are handed out
    pub labels: Option<[u8; 256]>,
}

// A superframe that is not taken.
#[derive(Clone, Copy)]
pub struct NotTaken {
    // Length; Range: a state out of range, or another radius than 2 or 3; Full: a full history; Sync
    pub why: Refusal,
    // under Sync the state after a loss, else the one given
    pub next: State,
}

// Whether a superframe can be taken so: at a radius of 2 or 3, with a state in range.
#[tactic(auto, unfolding(crate::specs::Take::takable))]
fn can_take(radius: u8, state: State) -> bool
    ensures { result ≡ takable radius state }
{
    reading::is_radius(radius) && state.in_range()
}

// All that is answered beside the samples and marks, with wrong sync bits and readings already counted.
fn answered(state: State, bytes: &[u8], counted: Counted) -> Taken
    requires bytes_len { length bytes.now ≡ 5120 }
    requires state_value { state_in_range state ≡ true }
    requires totals_value { has_room state.totals ≡ true }
    ensures { result ≡ beside_with state bytes.now counted.wrong counted.blocks }
{
    let programmes = beside::programmes_of(bytes).unwrap();
    let sent = beside::six_and_sync(bytes).unwrap();
    let served = service::serve(state.service, sent.six, sent.sync).unwrap();
    let totals = state.totals.take(counted.blocks).unwrap();
    // arrays, each by a variable of its own as in `lose`
    let moved = state.after;
    let read = programmes.factors;
    let six = sent.six;
    let next = State {
        next: moved,
        after: read,
        service: served.next,
        totals,
    };
    Taken {
        next,
        wrong: counted.wrong,
        blocks: counted.blocks,
        programmes,
        six,
        position: served.position,
        kind: served.kind,
        labels: served.labels,
    }
}

impl State {
    // The state given stays.
    fn refused(self, why: Refusal) -> Result<Taken, NotTaken>
        ensures { result ≡ Err (record { why = why; next = self }) }
    {
        Err(NotTaken { why, next: self })
    }

    // Refused, nothing is written. What is lent may have any length, as C lends it too: a wrong one is number 1, so no type may ask for it.
    pub fn take(
        self,
        radius: u8,
        bytes: &[u8],
        samples: &mut [i16],
        marks: &mut [u8],
    ) -> Result<Taken, NotTaken>
        ensures { Took radius self bytes.now samples.old marks.old result samples.new marks.new }
    {
        if !sound::lengths_fit(bytes.len(), samples.len(), marks.len()) {
            return self.refused(Refusal::Length);
        }
        if !can_take(radius, self) {
            return self.refused(Refusal::Range);
        }
        if !self.totals.has_room() {
            return self.refused(Refusal::Full);
        }
        let factors = self.next;
        match sound::fill(radius, bytes, &factors, samples, marks) {
            Ok(counted) => Ok(answered(self, bytes, counted)),
            Err(why) => Err(NotTaken {
                why,
                next: self.lose().unwrap_or(self),
            }),
        }
    }
}
