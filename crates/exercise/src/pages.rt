// A line and its answer, as text on a lent buffer. What does not fit is left out, as in `text`.
use bits::Refusal;
use text::Pen;

#[derive(Drop)]
pub(crate) struct Page<'a> {
    pen: Pen<'a>,
}

impl<'a> Page<'a> {
    pub(crate) fn blank(room: &'a mut [u8]) -> Self {
        Page {
            pen: Pen::new(room, 0),
        }
    }

    // Where the text ends, which is past the buffer's end where something was left out.
    pub(crate) fn end(&self) -> usize {
        self.pen.to
    }

    pub(crate) fn put(&mut self, byte: u8) {
        self.pen.put(byte);
    }

    pub(crate) fn all(&mut self, more: &[u8]) {
        self.pen.put_all(more);
    }

    // A blank, and a number.
    pub(crate) fn next<N: Into<u64>>(&mut self, n: N) {
        let n: u64 = n.into();
        self.pen.put_next(n);
    }

    // A blank, and a number with its sign.
    pub(crate) fn signed(&mut self, z: i16) {
        self.pen.put_next(z);
    }

    // A blank, and a digit for each entry.
    pub(crate) fn row(&mut self, entries: &[u8]) {
        self.put(b' ');
        text_rows::put_row(&mut self.pen, entries);
    }

    // A blank, and two digits for each byte.
    pub(crate) fn hex(&mut self, more: &[u8]) {
        self.put(b' ');
        text_rows::put_hex(&mut self.pen, more);
    }

    // The number of a refusal.
    pub(crate) fn refused(&mut self, why: Refusal) {
        self.pen.put_text(u64::from(why.number()));
    }

    // How a call went: 0, or the number that refuses it.
    pub(crate) fn number<T>(&mut self, answer: &Result<T, Refusal>) {
        match answer {
            Ok(_) => self.put(b'0'),
            Err(why) => self.refused(*why),
        }
    }

    // That number, and behind 0 what was answered.
    pub(crate) fn told<T, F: FnOnce(&mut Page<'_>, T)>(
        &mut self,
        answer: Result<T, Refusal>,
        put: F,
    )
        requires { F.IsAlwaysCallable put }
    {
        self.number(&answer);
        if let Ok(value) = answer {
            put(self, value);
        }
    }
}
