// The reader's state, which goes in and comes back with the answer: fresh, after a lost superframe, after six service bytes, with a new history.
// A state is a number of bytes and is copied, so where a call refuses, the caller still has the state that it gave.
ghost use Rattle.std.specs.Prelude.{◌≡◌};
ghost use Rattle.superframe.specs.State.{fresh_state, factors_in_range, state_in_range, lost_with, serviced_with, reset_with};

use bits::Refusal;
use running::Running;
use service::{Served, Service};

// The two sets of factors are two arrays of 32, as document 01 has them.
#[derive(Clone, Copy)]
pub struct State {
    // the factors of the 32 channels for the next superframe, 0 to 7; 8: missing
    pub next: [u8; 32],
    // and for the one after it
    pub after: [u8; 32],
    pub service: Service,
    // since the last reset (document 02, P7)
    pub totals: Running,
}

// A set of factors that is missing.
const MISSING: [u8; 32] = [8; 32];

#[tactic(auto, unfolding(crate::specs::State::factors_in_range))]
fn factors_in_range(next: [u8; 32], after: [u8; 32]) -> bool
    ensures { result ≡ factors_in_range (record { next = next; after = after }) }
{
    bits::all_below(&next, 9) && bits::all_below(&after, 9)
}

impl State {
    // Both sets of factors missing, the service searching, nothing counted.
    #[tactic(auto, unfolding(crate::specs::State::missing))]
    pub fn fresh() -> Self
        ensures { result ≡ fresh_state }
    {
        State {
            next: MISSING,
            after: MISSING,
            service: service::searching(),
            totals: Running::none(),
        }
    }

    // Whether every number is in its range.
    #[tactic(auto, unfolding(crate::specs::State::state_in_range))]
    pub(crate) fn in_range(self) -> bool
        ensures { result ≡ state_in_range self }
    {
        factors_in_range(self.next, self.after)
            && service::in_range(self.service)
            && self.totals.in_range()
    }

    // One superframe is lost: the factors move on, the service searches, and it is counted. Refused for a state out of range, then for a full history.
    #[tactic(auto, unfolding(crate::specs::State::lost_with))]
    pub fn lose(self) -> Result<State, Refusal>
        ensures { result ≡ lost_with self }
    {
        if !self.in_range() {
            return Err(Refusal::Range);
        }
        let totals = self.totals.lose()?;
        // an array goes into a literal by a variable of its own; no other way is covered by the check
        let moved = self.after;
        Ok(State {
            next: moved,
            totals,
            ..State::fresh()
        })
    }

    // Six service bytes, then the 16 bits of the sync behind them. Refused for a state out of range, or an entry of the sync that is no bit.
    #[tactic(auto, unfolding(crate::specs::State::serviced_with))]
    pub fn take_service(self, six: [u8; 6], sync: [u8; 16]) -> Result<Served<State>, Refusal>
        ensures { result ≡ serviced_with self six sync }
    {
        if !self.in_range() {
            return Err(Refusal::Range);
        }
        let served = service::serve(self.service, six, sync)?;
        let service = served.next;
        Ok(Served {
            position: served.position,
            kind: served.kind,
            labels: served.labels,
            next: State { service, ..self },
        })
    }

    // A new history begins at this point; everything else of the state stays. Refused for a state out of range alone.
    #[tactic(auto, unfolding(crate::specs::State::reset_with))]
    pub fn reset(self) -> Result<State, Refusal>
        ensures { result ≡ reset_with self }
    {
        if !self.in_range() {
            return Err(Refusal::Range);
        }
        let totals = Running::none();
        Ok(State { totals, ..self })
    }
}
