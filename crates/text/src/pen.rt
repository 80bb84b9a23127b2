// A pen on a lent buffer: the next byte goes to place `to`.
ghost use Rattle.std.specs.Prelude.{◌≡◌, [], ◌∷◌};
ghost use Rattle.text.specs.Page.{page};
ghost use Rattle.text.specs.Pens.{on, Puts, PutsBy};
ghost use Rattle.text.specs.Entry.{placed_within, PutsWhole};
ghost use Rattle.text.specs.Digits.{blank};

use crate::words::Text;
use bits::Refusal;

#[derive(Drop)]
pub struct Pen<'a> {
    pub out: &'a mut [u8],
    pub to: usize,
}

// Where a text ends that is put into a buffer of some length: refused where that is past the buffer's end.
#[tactic(auto, unfolding(crate::specs::Entry::placed_within))]
pub fn within(length: usize, end: usize) -> Result<usize, Refusal>
    ensures { result ≡ placed_within length end }
{
    if length < end {
        return Err(Refusal::Length);
    }
    Ok(end)
}

impl<'a> Pen<'a> {
    pub fn new(out: &'a mut [u8], to: usize) -> Self
        ensures same_buffer { result.out.ghost_name ≡ out.entry.ghost_name }
        ensures told { on result ≡ page out.old to }
    {
        Pen { out, to }
    }

    // The place goes on whether there was room or not, and stops at the largest number, to which no buffer reaches.
    #[tactic(auto, unfolding(crate::specs::Page::put_text, crate::specs::Page::put_byte))]
    pub fn put(&mut self, byte: u8)
        ensures { Puts self.old self.new (byte ∷ []) }
    {
        if self.to < self.out.len() {
            self.out[self.to] = byte;
        }
        self.to = self.to.saturating_add(1);
    }

    pub fn put_all(&mut self, bytes: &[u8])
        ensures { Puts self.old self.new bytes.now }
    {
        for &byte in bytes {
            self.put(byte);
        }
    }

    pub fn put_text<T: Text>(&mut self, text: T)
        ensures { Puts self.old self.new (T.text text) }
    {
        text.put_on(self);
    }

    // A blank, and a text.
    pub fn put_next<T: Text>(&mut self, text: T)
        ensures { Puts self.old self.new (blank ∷ T.text text) }
    {
        self.put(b' ');
        self.put_text(text);
    }

    // A whole text, as a closure puts it, or nothing where there is no room for it: it is put first where there is none, to learn where it ends.
    pub fn put_whole<F: Fn(&mut Pen<'_>)>(&mut self, put: F) -> Result<(), Refusal>
        requires { F.IsAlwaysCallable put }
        ensures { (s : _) → PutsBy (F.post put) s → PutsWhole self.old self.new result s }
    {
        let mut none = [0u8; 1];
        let mut trial = Pen::new(&mut none, self.to);
        put(&mut trial);
        within(self.out.len(), trial.to)?;
        put(self);
        Ok(())
    }
}
