// The lines of programme types in the list of names, put by a pen while superframes go by, and what was noted last.
#![tactic(auto)]

ghost use Rattle.std.specs.Prelude.{◌≡◌, cond, eqb, take};
ghost use Rattle.bits.specs.Letters.{letters};
ghost use Rattle.text.specs.Pens.{Puts};
ghost use Rattle.type_lines.specs.Types.{held_to, bare, type_line, byte_line, type_lines, type_text, tells, byte_noted, bytes_noted, no_types, types_after, Typing};

use bits::Refusal;
use name_lines::put_head;
use programme::Programme;
use text::Pen;

// Two lists of the 32 channels, each handed on whole: what was noted, and the group that may yet be told.
#[derive(Clone, Copy)]
pub struct Types {
    // the byte noted last for each channel; 1, which has odd parity, where none was
    pub bytes: [u8; 32],
    // the last complete group, and the superframe in which it was complete, from 1; 0: there was none
    pub group: [u8; 32],
    pub superframe: u32,
}

// Without the spaces at its end: the library has no trim of one letter, so it is taken off until it is no space.
fn held(name: &[u8; 8]) -> &[u8]
    ensures { result.now ≡ take (held_to 8 name.now) name.now }
{
    let mut letters: &[u8] = name;
    while let Some((&last, front)) = letters.split_last() {
        if last != b' ' {
            break;
        }
        letters = front;
    }
    letters
}

fn put_name(pen: &mut Pen<'_>, kind: u8)
    ensures { Puts pen.old pen.new (bare kind) }
{
    let name = programme::name_of(kind).unwrap_or([0; 8]);
    pen.put_all(held(&name));
}

#[tactic(auto, unfolding(bits::specs::Letters::letters))]
fn put_manner(pen: &mut Pen<'_>, music: u8)
    ensures { Puts pen.old pen.new (cond (eqb music 0) (letters " speech") (letters " music")) }
{
    if music == 0 {
        pen.put_all(b" speech");
    } else {
        pen.put_all(b" music");
    }
}

fn put_type(pen: &mut Pen<'_>, k: u32, c: u8, programme: Programme)
    ensures { Puts pen.old pen.new (type_line k c programme.kind programme.music programme.mode) }
{
    put_head(pen, k, c);
    pen.put_all(b" type ");
    put_name(pen, programme.kind);
    put_manner(pen, programme.music);
    pen.put_all(b" mode");
    pen.put_next(u64::from(programme.mode));
    pen.put(b'\n');
}

fn put_byte(pen: &mut Pen<'_>, k: u32, c: u8, old: u8, new: u8)
    ensures { Puts pen.old pen.new (byte_line k c old new) }
{
    if old == new {
        return;
    }
    if let Ok(programme) = programme::read(new) {
        put_type(pen, k, c, programme);
    }
}

// A channel is below 32, and `put_turns` counts places.
fn put_bytes(pen: &mut Pen<'_>, k: u32, old: &[u8; 32], new: &[u8; 32])
    ensures { Puts pen.old pen.new (type_lines k old.now new.now) }
{
    text_rows::put_turns(pen, 32, |pen, c| put_byte(pen, k, c as u8, old[c], new[c]));
}

// Told: whether the six bytes tell of a group, as `is_told` has it.
fn put_told(pen: &mut Pen<'_>, told: bool, k: u32, old: &[u8; 32], new: &[u8; 32])
    ensures { Puts pen.old pen.new (type_text told k old.now new.now) }
{
    if told {
        put_bytes(pen, k, old, new);
    }
}

// Whether six bytes at a position complete the separator in superframe k, and it tells of a group that was complete in superframe `at`.
#[tactic(auto, unfolding(crate::specs::Types::tells))]
fn is_told(at: u32, k: u32, position: u8, stage: u8, group: [u8; 32]) -> bool
    ensures { result ≡ tells at k position stage group }
{
    position == 8
        && stage == 0
        && at != 0
        && bits::all_below(&group, 1)
        && u64::from(at) + 8 == u64::from(k)
}

fn noted_byte(old: u8, new: u8) -> u8
    ensures { result ≡ byte_noted old new }
{
    match programme::read(new) {
        Ok(_) => new,
        Err(_) => old,
    }
}

fn noted_bytes(old: [u8; 32], new: [u8; 32]) -> [u8; 32]
    ensures { result ≡ bytes_noted old new }
{
    std::array::from_fn(|c| noted_byte(old[c], new[c]))
}

fn after(noted: Types, told: bool, k: u32, position: u8, group: [u8; 32]) -> Types
    ensures { result ≡ types_after noted told k position group }
{
    if position != 8 {
        return noted;
    }
    let bytes = if told {
        noted_bytes(noted.bytes, noted.group)
    } else {
        noted.bytes
    };
    Types {
        bytes,
        group,
        superframe: k,
    }
}

impl Types {
    #[tactic(auto, unfolding(crate::specs::Types::no_types))]
    pub fn none() -> Self
        ensures { result ≡ no_types }
    {
        Types {
            bytes: [1u8; 32],
            group: [0u8; 32],
            superframe: 0,
        }
    }
}

// What superframe k's group tells, complete or not, as `service_group::gather` has it with the six bytes at this position and stage, and what is noted
// afterwards. Where the lines do not fit, what was noted stays.
pub fn put_types(
    pen: &mut Pen<'_>,
    k: u32,
    noted: Types,
    position: u8,
    stage: u8,
    group: [u8; 32],
) -> Result<Types, Refusal>
    ensures { Typing noted k position stage group pen.old pen.new result }
{
    let told = is_told(noted.superframe, k, position, stage, group);
    pen.put_whole(|pen| put_told(pen, told, noted.superframe, &noted.bytes, &noted.group))?;
    Ok(after(noted, told, k, position, group))
}
