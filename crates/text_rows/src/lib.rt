// Lists put by a pen as rows of digits, and texts that follow one another.
#![tactic(auto)]

ghost use Rattle.std.specs.Prelude.{◌≡◌, ◌<◌};
ghost use Rattle.text.specs.Pens.{Puts};
ghost use Rattle.text_rows.specs.Rows.{row, hex_digit, hex_byte, hexadecimal, spelled, PutsEach};
ghost use Rattle.text_rows.specs.Turns.{in_turn, PutsTurns};

use text::Pen;

fn hex_digit(n: u8) -> u8
    ensures { result ≡ hex_digit n }
{
    let low = n % 16;
    if low < 10 { 48 + low } else { 87 + low }
}

fn put_byte(pen: &mut Pen<'_>, byte: u8)
    ensures { Puts pen.old pen.new (hex_byte byte) }
{
    pen.put(hex_digit(byte / 16));
    pen.put(hex_digit(byte));
}

// The text of each byte, one behind the other, as a closure puts it.
pub fn put_spelled<F: Fn(&mut Pen<'_>, u8)>(pen: &mut Pen<'_>, bytes: &[u8], put: F)
    requires { F.IsAlwaysCallable put }
    ensures { (f : _) → PutsEach (F.post put) f → Puts pen.old pen.new (spelled f bytes.now) }
{
    for &byte in bytes {
        put(pen, byte);
    }
}

// A digit for each entry, of one above 9 its last.
pub fn put_row(pen: &mut Pen<'_>, entries: &[u8])
    ensures { Puts pen.old pen.new (row entries.now) }
{
    put_spelled(pen, entries, |pen, entry| pen.put(48 + entry % 10));
}

// Two hexadecimal digits for each byte, in lower case.
pub fn put_hex(pen: &mut Pen<'_>, bytes: &[u8])
    ensures { Puts pen.old pen.new (hexadecimal bytes.now) }
{
    put_spelled(pen, bytes, |pen, byte| put_byte(pen, byte));
}

// So many texts, one behind the other: each as a closure puts it, which is given its number, from 0.
pub fn put_turns<F: Fn(&mut Pen<'_>, usize)>(pen: &mut Pen<'_>, n: usize, put: F)
    requires { (i : _) (p : _) → i < n → F.pre put p i }
    ensures { (f : _) → PutsTurns (F.post put) n f → Puts pen.old pen.new (in_turn n f) }
{
    for i in 0..n {
        put(pen, i);
    }
}
