// The running totals of a history (document 02, P7; docs/FORMAT.md, "Running totals"): how many superframes were given since it began, taken or lost, and how
// the blocks of each programme were read in those that were taken. A block belongs to two programmes, and counts for both.
#![tactic(auto)]

ghost use Rattle.std.specs.Prelude.{◌≡◌};
ghost use Rattle.running.specs.Running.{adds_up, sums_fit, given_in, running_in_range, has_room, no_running, Bounded, added_to, allowed, taken_step, lost_step};

use bits::Refusal;
use tape::Blocks;

#[derive(Clone, Copy)]
pub struct Running {
    // superframes taken
    pub taken: u32,
    // superframes lost; with those taken at most 1,000,000
    pub lost: u32,
    // blocks of programmes 1 to 16, a list for each kind, to which a superframe's counts of that kind are added; the three add up to 64 for each superframe taken
    pub clean: [u32; 16],
    pub mended: [u32; 16],
    pub bad: [u32; 16],
}

// A history holds so many superframes.
const MOST: u64 = 1_000_000;

// Whether these are all the blocks that a programme has in so many superframes.
fn adds_up(clean: u32, mended: u32, bad: u32, taken: u32) -> bool
    ensures { result ≡ adds_up clean mended bad taken }
{
    u64::from(clean) + u64::from(mended) + u64::from(bad) == 64 * u64::from(taken)
}

fn sums_fit(totals: Running) -> bool
    ensures { result ≡ sums_fit totals }
{
    (0..16).all(|q| {
        adds_up(
            totals.clean[q],
            totals.mended[q],
            totals.bad[q],
            totals.taken,
        )
    })
}

fn given(taken: u32, lost: u32) -> u64
    ensures { result ≡ given_in taken lost }
{
    u64::from(taken) + u64::from(lost)
}

// The blocks of each programme with those of a superframe more, which are counted by the eight block positions.
fn added(totals: [u32; 16], counts: [u8; 8]) -> [u32; 16]
    requires { Bounded totals }
    ensures { result ≡ added_to totals counts }
{
    let mut out = [0u32; 16];
    for q in 0..16 {
        out[q] = totals[q] + bits::wide(counts[q / 2]);
    }
    out
}

impl Running {
    // Where a history begins.
    pub fn none() -> Self
        ensures { result ≡ no_running }
    {
        Running {
            taken: 0,
            lost: 0,
            clean: [0u32; 16],
            mended: [0u32; 16],
            bad: [0u32; 16],
        }
    }

    pub fn in_range(self) -> bool
        ensures { result ≡ running_in_range self }
    {
        sums_fit(self) && given(self.taken, self.lost) <= MOST
    }

    // Whether the history is not full.
    pub fn has_room(self) -> bool
        ensures { result ≡ has_room self }
    {
        given(self.taken, self.lost) < MOST
    }

    // Whether one superframe more may be given: totals out of range are refused, then a full history.
    fn allowed(self) -> Result<(), Refusal>
        ensures { result ≡ allowed self }
    {
        if !self.in_range() {
            return Err(Refusal::Range);
        }
        if !self.has_room() {
            return Err(Refusal::Full);
        }
        Ok(())
    }

    // A superframe taken, with its blocks counted by position.
    pub fn take(self, blocks: Blocks) -> Result<Running, Refusal>
        ensures { result ≡ taken_step self blocks }
    {
        self.allowed()?;
        Ok(Running {
            taken: self.taken + 1,
            lost: self.lost,
            clean: added(self.clean, blocks.clean),
            mended: added(self.mended, blocks.mended),
            bad: added(self.bad, blocks.bad),
        })
    }

    // A superframe lost.
    pub fn lose(self) -> Result<Running, Refusal>
        ensures { result ≡ lost_step self }
    {
        self.allowed()?;
        Ok(Running {
            lost: self.lost + 1,
            ..self
        })
    }
}
