// The lines of labels in the list of names, put by a pen while superframes go by, and the labels that were noted last.
#![tactic(auto)]

ghost use Rattle.std.specs.Prelude.{◌≡◌, cond, ◌%◌, ◌<◌, eqb};
ghost use Rattle.bits.specs.Letters.{letters};
ghost use Rattle.text.specs.Pens.{Puts};
ghost use Rattle.name_lines.specs.Names.{head_text, plain, quoted, label_line, same_to, same_as, channel_line, label_text, no_labels, Labelling};

use bits::Refusal;
use text::Pen;

// The labels noted last, 32 of eight characters; before the first there are none.
#[derive(Clone, Copy)]
pub struct Labels {
    pub noted: Option<[u8; 256]>,
}

#[tactic(auto, unfolding(bits::specs::Letters::letters))]
fn put_side(pen: &mut Pen<'_>, c: u8)
    ensures { Puts pen.old pen.new (cond (eqb (c % 2) 0) (letters "L") (letters "R")) }
{
    if c % 2 == 0 {
        pen.put(b'L');
    } else {
        pen.put(b'R');
    }
}

// What every line begins with, for superframe k and channel c, counted from 0.
pub fn put_head(pen: &mut Pen<'_>, k: u32, c: u8)
    ensures { Puts pen.old pen.new (head_text k c) }
{
    pen.put_all(b"superframe");
    pen.put_next(u64::from(k));
    pen.put_all(b" channel");
    pen.put_next(u64::from(c) / 2 + 1);
    put_side(pen, c);
}

#[tactic(auto, unfolding(crate::specs::Names::plain))]
fn is_plain(x: u8) -> bool
    ensures { result ≡ plain x }
{
    32 <= x && x <= 126 && x != 34 && x != 92
}

fn put_quoted(pen: &mut Pen<'_>, x: u8)
    ensures { Puts pen.old pen.new (quoted x) }
{
    if is_plain(x) {
        pen.put(x);
    } else {
        pen.put_all(b"\\x");
        text_rows::put_hex(pen, &[x]);
    }
}

fn put_label(pen: &mut Pen<'_>, k: u32, c: u8, label: &[u8])
    ensures { Puts pen.old pen.new (label_line k c label.now) }
{
    put_head(pen, k, c);
    pen.put_all(b" label \"");
    text_rows::put_spelled(pen, label, put_quoted);
    pen.put_all(b"\"\n");
}

fn same_label(old: &[u8; 256], new: &[u8; 256], c: usize) -> bool
    requires { c < 32 }
    ensures { result ≡ same_to 8 old.now new.now c }
{
    let first = 8 * c;
    old[first..first + 8] == new[first..first + 8]
}

fn unchanged(old: Option<[u8; 256]>, new: &[u8; 256], c: usize) -> bool
    requires { c < 32 }
    ensures { result ≡ same_as old new.now c }
{
    match old {
        Some(old) => same_label(&old, new, c),
        None => false,
    }
}

fn put_channel(pen: &mut Pen<'_>, k: u32, old: Option<[u8; 256]>, new: &[u8; 256], c: usize)
    requires { c < 32 }
    ensures { Puts pen.old pen.new (channel_line k old new.now c) }
{
    if unchanged(old, new, c) {
        return;
    }
    let first = 8 * c;
    // a channel is below 32, and `put_turns` counts places
    put_label(pen, k, c as u8, &new[first..first + 8]);
}

fn put_lines(pen: &mut Pen<'_>, k: u32, old: Option<[u8; 256]>, new: Option<[u8; 256]>)
    ensures { Puts pen.old pen.new (label_text k old new) }
{
    if let Some(new) = new {
        text_rows::put_turns(pen, 32, |pen, c| put_channel(pen, k, old, &new, c));
    }
}

impl Labels {
    #[tactic(auto, unfolding(crate::specs::Names::no_labels))]
    pub fn none() -> Self
        ensures { result ≡ no_labels }
    {
        Labels { noted: None }
    }
}

// What superframe k hands out of labels: a line for each that differs from the last one noted, and what is noted afterwards. Where the lines do not fit,
// what was noted stays.
pub fn put_labels(
    pen: &mut Pen<'_>,
    k: u32,
    noted: Labels,
    labels: Option<[u8; 256]>,
) -> Result<Labels, Refusal>
    ensures { Labelling noted k labels pen.old pen.new result }
{
    pen.put_whole(|pen| put_lines(pen, k, noted.noted, labels))?;
    Ok(Labels {
        noted: labels.or(noted.noted),
    })
}
