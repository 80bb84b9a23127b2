// What a pen puts. Here a number, in decimal, and one with a sign.
ghost use Rattle.std.specs.Prelude.{ℕ, List};
ghost use Rattle.text.specs.Digits.{decimal, signed};
ghost use Rattle.text.specs.Pens.{Puts};

use crate::Pen;

pub trait Text: Copy {
    ghost text: { Self → List ℕ };

    fn put_on(self, pen: &mut Pen<'_>)
        ensures { Puts pen.old pen.new (text self) };
}

impl Text for u64 {
    ghost text = { decimal };

    fn put_on(self, pen: &mut Pen<'_>) {
        let mut digits = [0u8; 20];
        let k = io::decimal(self, &mut digits);
        pen.put_all(&digits[..k]);
    }
}

// A minus before a number below 0.
impl Text for i16 {
    ghost text = { signed };

    fn put_on(self, pen: &mut Pen<'_>) {
        if self < 0 {
            pen.put(b'-');
        }
        u64::from(self.unsigned_abs()).put_on(pen);
    }
}
