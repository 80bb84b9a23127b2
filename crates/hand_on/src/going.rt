// What goes on from superframe to superframe, and the superframes themselves, up to 64 at a time: their sound, marks and words are written together.
// Superframes count from 0 here.
ghost use Rattle.std.specs.Prelude.{◌≡◌, ◌+◌, ◌<◌, ◌≤◌, IfOk};

use crate::files::{FileFault, Opened};
use crate::names::Noted;
use crate::pages::Sound;
use crate::stretch::Tracks;
use crate::{NotHanded, pages};
use bits::Refusal;
use std::ops::Range;
use streams::Progress;
use superframe::{NotTaken, State, Taken};
use tally::Totals;
use tape::Counted;
use text::Pen;

#[derive(Clone, Copy)]
pub struct Going {
    // at which every superframe is taken
    pub radius: u8,
    pub state: State,
    // by the ordinary readings, whatever the radius
    pub totals: Totals,
    pub tracks: Tracks,
    pub noted: Noted,
}

// What was counted in a superframe, or why it was not taken.
fn counted(taken: Result<Taken, NotTaken>) -> Result<Counted, Refusal> {
    let counts = |taken: Taken| Counted {
        wrong: taken.wrong,
        blocks: taken.blocks,
    };
    taken.map(counts).map_err(|lost| lost.why)
}

impl Going {
    // Before the first superframe.
    pub fn none(radius: u8) -> Self {
        Going {
            radius,
            state: State::fresh(),
            totals: Totals::none(),
            tracks: Tracks::none(),
            noted: Noted::none(),
        }
    }

    // What superframe k does to the stretches, the names and the totals.
    fn tell(
        &mut self,
        opened: &Opened,
        k: u32,
        taken: Result<Taken, NotTaken>,
        heard: Option<Sound<'_>>,
        bytes: &[u8; 5120],
    ) -> Result<(), FileFault>
        requires { k < 4294967295 }
    {
        self.tracks.step(opened, k, heard)?;
        if let Ok(taken) = taken {
            self.noted.hear(opened, k + 1, self.state, taken)?;
        }
        let listed = self.totals.list(self.radius, counted(taken), bytes);
        self.totals = listed.unwrap_or(self.totals);
        self.state = match taken {
            Ok(taken) => taken.next,
            Err(lost) => lost.next,
        };
        Ok(())
    }

    // Superframe k.
    fn hand_superframe(
        &mut self,
        opened: &Opened,
        words: &mut Pen<'_>,
        k: u32,
        bytes: &[u8; 5120],
    ) -> Result<(), FileFault>
        requires { k < 4294967295 }
    {
        let mut samples = [0i16; 2048];
        let mut marks = [0u8; 2048];
        let taken = self
            .state
            .take(self.radius, bytes, &mut samples, &mut marks);
        let heard = taken.is_ok().then_some(Sound {
            samples: &samples,
            marks: &marks,
        });
        let put = pages::put(words.out, k, heard);
        beside_text::put_information(words, taken);
        let told = self.tell(opened, k, taken, heard, bytes);
        put.and(told)
    }

    // The next superframes, up to 64, and the place behind those that came. They are written where a read fails behind them too.
    pub fn hand_row(
        &mut self,
        rt: HostRuntime,
        opened: &Opened,
        progress: &mut Progress,
        places: Range<u32>,
    ) -> Result<u32, NotHanded>
        requires { (places.start ≤ places.end) × (places.end ≤ places.start + 64) }
        ensures done { (places.start ≤ progress.new.done) × (progress.new.done ≤ places.end) }
        ensures told { IfOk result (λ k. k ≡ progress.new.done) }
    {
        let mut pages = pages::zeros::<532480>();
        let mut words = Pen::new(&mut pages, pages::WORDS);
        let first = places.start;
        progress.done = first;
        let read = input::read_places(
            &mut rt.stdin(),
            progress,
            places,
            |k, superframe| -> Result<(), NotHanded>
                requires { k < 4294967295 }
            {
                self.hand_superframe(opened, &mut words, k, superframe)?;
                Ok(())
            },
        );
        let end = words.to;
        if let Err(NotHanded::File(_)) = read {
            // the superframe at which it failed has come, and is not handed on
            progress.done = progress.done.saturating_sub(1).max(first);
            return read;
        }
        pages::write(opened, &pages, progress.done - first, end)?;
        read
    }
}
