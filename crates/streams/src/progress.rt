// A word now and then, while a long reel is read, for whoever watches: on one line of standard error, and only where that is a terminal.
ghost use Rattle.std.specs.Prelude.{◌≡◌};

use std::io::{IsTerminal, Stderr};
use text::Pen;

// How many superframes go by between two words.
const OFTEN: u32 = 512;

#[derive(Clone, Copy)]
pub struct Progress {
    // none where nobody shall be told
    pub watched: Option<Stderr>,
    // how many superframes have come, of as many as are promised
    pub done: u32,
    pub promised: u32,
}

impl Progress {
    pub fn new(watched: Option<Stderr>, promised: u32) -> Self
        ensures { (result.watched ≡ watched) × ((result.done ≡ 0) × (result.promised ≡ promised)) }
    {
        Progress {
            watched,
            done: 0,
            promised,
        }
    }

    fn terminal(&self) -> Option<Stderr> {
        self.watched.filter(|to| to.is_terminal())
    }

    pub fn show(&self) {
        if self.done % OFTEN != 0 {
            return;
        }
        let Some(mut to) = self.terminal() else {
            return;
        };
        let mut out = [0u8; 64];
        let mut pen = Pen::new(&mut out, 0);
        pen.put_text(u64::from(self.done));
        pen.put_all(b" of ");
        pen.put_text(u64::from(self.promised));
        pen.put_all(b" superframes\r");
        let end = pen.to;
        // nobody waits for the word: one that is not written is missing, and nothing else
        let _ = crate::write_first(&mut to, &out, end);
    }

    // The line is wiped before anything else is said.
    pub fn wipe(&self) {
        if self.done < OFTEN {
            return;
        }
        if let Some(mut to) = self.terminal() {
            let _ = crate::write(&mut to, b"                                \r");
        }
    }
}
