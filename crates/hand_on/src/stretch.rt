// The label tracks of the sixteen programmes. Lines are rare, 50 superframes apart at least, and are written when they come.
use crate::files::{FileFault, Opened};
use crate::pages::Sound;
use label::Stretch;
use text::Pen;

// The stretch that is open in each.
#[derive(Clone, Copy)]
pub struct Tracks {
    open: [Option<Stretch>; 16],
}

// What each pair of programme q, from 1, is in a superframe.
fn kinds_of(q: usize, heard: Option<Sound<'_>>) -> [u8; 64] {
    match heard {
        Some(heard) => kinds::of_programme(q, heard.marks).unwrap_or([0; 64]),
        None => kinds::lost(),
    }
}

impl Tracks {
    // Before the first superframe.
    pub fn none() -> Self {
        Tracks { open: [None; 16] }
    }

    // Superframe k, from 0.
    pub fn step(
        &mut self,
        opened: &Opened,
        k: u32,
        heard: Option<Sound<'_>>,
    ) -> Result<(), FileFault> {
        for q in 0..16 {
            let mut lines = [0u8; 256];
            let mut pen = Pen::new(&mut lines, 0);
            self.open[q] = stretches::step(&mut pen, self.open[q], k, kinds_of(q + 1, heard));
            let end = pen.to;
            opened.write(32 + q as u8, &lines, end)?;
        }
        Ok(())
    }

    // Behind the last superframe.
    pub fn finish(&self, opened: &Opened) -> Result<(), FileFault> {
        for q in 0..16 {
            let mut line = [0u8; 256];
            let mut pen = Pen::new(&mut line, 0);
            stretches::finish(&mut pen, self.open[q]);
            let end = pen.to;
            opened.write(32 + q as u8, &line, end)?;
        }
        Ok(())
    }
}
