// The totals of a listing (docs/FORMAT.md, "Reel file and listing"), which grow by one superframe at a time.
#![tactic(auto)]

ghost use Rattle.std.specs.Prelude.{◌≡◌};
ghost use Rattle.bits.specs.declared.refusal.Refusal.TheVariants.{Sync};
ghost use Rattle.tally.specs.Totals.{grown, sum_of, no_totals, with_counted, added_to, step_of, listed_with};

use bits::Refusal;
use tape::Counted;

#[derive(Clone, Copy)]
pub struct Totals {
    // whole superframes read, lost ones among them
    pub superframes: u64,
    pub lost: u64,
    // wrong bits in the syncs of the superframes that were not lost
    pub wrong: u64,
    // blocks of the superframes that were not lost
    pub clean: u64,
    pub mended: u64,
    pub bad: u64,
}

// A total stops at the largest number that it can hold, which no reel comes near.
#[tactic(auto, unfolding(crate::specs::Totals::grown))]
fn grow(total: u64, by: u64) -> u64
    ensures { result ≡ grown total by }
{
    total.saturating_add(by)
}

// Of the counts of the eight block positions.
pub fn sum(counts: [u8; 8]) -> u64
    ensures { result ≡ sum_of counts }
{
    let mut sum: u64 = 0;
    for &n in &counts {
        sum += u64::from(n);
    }
    sum
}

impl Totals {
    // Before the first superframe.
    #[tactic(auto, unfolding(crate::specs::Totals::no_totals))]
    pub fn none() -> Self
        ensures { result ≡ no_totals }
    {
        Totals {
            superframes: 0,
            lost: 0,
            wrong: 0,
            clean: 0,
            mended: 0,
            bad: 0,
        }
    }

    // A lost superframe more: it has no wrong bit and no block that counts.
    fn with_lost(self) -> Totals
        ensures { result ≡ with_counted self (Err Sync) }
    {
        Totals {
            superframes: grow(self.superframes, 1),
            lost: grow(self.lost, 1),
            ..self
        }
    }

    // A superframe more that was read.
    fn with_read(self, counted: Counted) -> Totals
        ensures { result ≡ with_counted self (Ok counted) }
    {
        Totals {
            superframes: grow(self.superframes, 1),
            lost: self.lost,
            wrong: grow(self.wrong, u64::from(counted.wrong)),
            clean: grow(self.clean, sum(counted.blocks.clean)),
            mended: grow(self.mended, sum(counted.blocks.mended)),
            bad: grow(self.bad, sum(counted.blocks.bad)),
        }
    }

    // One superframe more, by what was counted in it. A lost one is counted, and is no refusal; what is refused for anything else is none to add.
    pub fn add(self, counted: Result<Counted, Refusal>) -> Result<Totals, Refusal>
        ensures { result ≡ added_to self counted }
    {
        match counted {
            Ok(counted) => Ok(self.with_read(counted)),
            Err(why) => match why {
                Refusal::Sync => Ok(self.with_lost()),
                _ => Err(why),
            },
        }
    }

    // One superframe more that was taken at a radius, by what was counted in it there and by its bytes: the listing counts the ordinary readings.
    #[tactic(auto, unfolding(crate::specs::Totals::listed_with))]
    pub fn list(
        self,
        radius: u8,
        counted: Result<Counted, Refusal>,
        superframe: &[u8],
    ) -> Result<Totals, Refusal>
        ensures { result ≡ listed_with self radius counted superframe.now }
    {
        if radius == reading::ORDINARY {
            return self.add(counted);
        }
        self.step(superframe)
    }

    // One superframe more. What is none, by its length, is refused.
    pub fn step(self, superframe: &[u8]) -> Result<Totals, Refusal>
        ensures { result ≡ step_of self superframe.now }
    {
        self.add(tape::counts(superframe))
    }
}
