// The programme byte and the short names of the programme types (docs/FORMAT.md, "Service groups", programme bytes).
#![tactic(auto)]

ghost use Rattle.std.specs.Prelude.{◌≡◌};
ghost use Rattle.programme.specs.Byte.{read_byte, write_byte, read_answer, write_answer};
ghost use Rattle.programme.specs.Names.{name_for};

use bits::Refusal;

// What a programme byte says: the type 0 to 15, 1 for music and 0 for speech, the mode 0 to 3. They are numbers and no enums, since they are written and looked up
// by number too, and one that is out of its range is refused.
#[derive(Clone, Copy, PartialEq, Eq, Debug)]
pub struct Programme {
    pub kind: u8,
    pub music: u8,
    pub mode: u8,
}

const NAMES: [[u8; 8]; 16] = [
    *b"KEINE   ",
    *b"NACHRICH",
    *b"POLITIK ",
    *b"SPEZWORT",
    *b"SPORT   ",
    *b"LERNEN  ",
    *b"HOER+LIT",
    *b"KULTUR  ",
    *b"WISSEN  ",
    *b"UNTERHAL",
    *b"POP     ",
    *b"ROCK    ",
    *b"U-MUSIK ",
    *b"L-KLASS ",
    *b"E-KLASS ",
    *b"SPEZ MUS",
];

// Refused with number 6 where the number of ones is odd.
#[tactic(auto, unfolding(crate::specs::Byte::read_byte, crate::specs::Byte::even))]
pub fn read(byte: u8) -> Result<Programme, Refusal>
    ensures { read_answer result ≡ read_byte byte }
{
    if byte.count_ones() % 2 != 0 {
        return Err(Refusal::Parity);
    }
    Ok(Programme {
        kind: byte / 16,
        music: byte / 8 % 2,
        mode: byte / 2 % 4,
    })
}

// Refused with number 2 where one of the three is out of its range.
#[tactic(auto, unfolding(crate::specs::Byte::write_byte))]
pub fn write(kind: u8, music: u8, mode: u8) -> Result<u8, Refusal>
    ensures { write_answer result ≡ write_byte kind music mode }
{
    if 15 < kind || 1 < music || 3 < mode {
        return Err(Refusal::Range);
    }
    let seven = kind * 16 + music * 8 + mode * 2;
    Ok(seven + (seven.count_ones() % 2) as u8)
}

// Refused with number 2 for a type over 15.
#[tactic(auto, unfolding(crate::specs::Names::name_for))]
pub fn name_of(kind: u8) -> Result<[u8; 8], Refusal>
    ensures { result ≡ name_for kind }
{
    if 16 <= kind {
        return Err(Refusal::Range);
    }
    let letters = NAMES[usize::from(kind)];
    Ok(letters)
}
