// The words of a line, one after the other, with a blank between two. A call reads all its words and asks whether the line has ended: a word that is not of
// its kind is `None`, and with it the line is no call.
ghost use Rattle.std.specs.Prelude.{◌≤◌, IfSome};

use std::str;
use std::str::{FromStr, Split};

#[derive(Drop)]
pub(crate) struct Words<'a> {
    left: Split<'a, char>,
}

// Whether a number is written as numbers are here: with no sign but a minus, and with no zeros in front.
fn is_plain(word: &str) -> bool {
    let digits = word.strip_prefix('-').unwrap_or(word);
    word == "0" || matches!(digits.as_bytes(), [b'1'..=b'9', ..])
}

pub(crate) fn number_in<T: FromStr>(word: &str) -> Option<T>
where
    T::Err: Drop,
{
    if is_plain(word) {
        word.parse().ok()
    } else {
        None
    }
}

fn digit_of(c: u8) -> Option<u8>
    ensures { IfSome result (λ n. n ≤ 9) }
{
    match c {
        b'0'..=b'9' => Some(c - b'0'),
        _ => None,
    }
}

// In lower case.
fn hex_digit_of(c: u8) -> Option<u8>
    ensures { IfSome result (λ n. n ≤ 15) }
{
    match c {
        b'a'..=b'f' => Some(c - b'a' + 10),
        _ => digit_of(c),
    }
}

fn byte_of(high: u8, low: u8) -> Option<u8> {
    Some(16 * hex_digit_of(high)? + hex_digit_of(low)?)
}

// The bytes that a word spells, for which a buffer has just the room.
fn spelled(word: &[u8], bytes: &mut [u8]) -> Option<()> {
    let (pairs, rest) = word.as_chunks::<2>();
    if pairs.len() != bytes.len() || !rest.is_empty() {
        return None;
    }
    for (byte, pair) in bytes.iter_mut().zip(pairs) {
        *byte = byte_of(pair[0], pair[1])?;
    }
    Some(())
}

impl<'a> Words<'a> {
    // A line that is no text has no words of any call.
    pub(crate) fn of(line: &'a [u8]) -> Option<Self> {
        let text = str::from_utf8(line).ok()?;
        Some(Words {
            left: text.split(' '),
        })
    }

    pub(crate) fn next(&mut self) -> Option<&'a str> {
        self.left.next()
    }

    pub(crate) fn end(&mut self) -> Option<()> {
        if self.next().is_some() {
            None
        } else {
            Some(())
        }
    }

    // The words that are left.
    pub(crate) fn rest(self) -> Split<'a, char> {
        self.left
    }

    pub(crate) fn number<T: FromStr>(&mut self) -> Option<T>
    where
        T::Err: Drop,
    {
        number_in(self.next()?)
    }

    // A number up to the most that is asked for.
    pub(crate) fn up_to(&mut self, most: usize) -> Option<usize>
        ensures { IfSome result (λ n. n ≤ most) }
    {
        let n: usize = self.number()?;
        if n <= most { Some(n) } else { None }
    }

    // A row of as many digits as there are entries.
    pub(crate) fn row<const N: usize>(&mut self) -> Option<[u8; N]> {
        let word = self.next()?.as_bytes();
        if word.len() != N {
            return None;
        }
        let mut entries = [0; N];
        for (entry, &c) in entries.iter_mut().zip(word) {
            *entry = digit_of(c)?;
        }
        Some(entries)
    }

    // As many bytes as there is room for, two digits each.
    pub(crate) fn hex<const N: usize>(&mut self) -> Option<[u8; N]> {
        let word = self.next()?.as_bytes();
        let mut bytes = [0; N];
        spelled(word, &mut bytes)?;
        Some(bytes)
    }

    // The bytes that a word stands for, in the first places of a buffer: none for a dash.
    pub(crate) fn bytes<'b>(&mut self, room: &'b mut [u8; 64]) -> Option<&'b [u8]> {
        let word = self.next()?;
        if word == "-" {
            return Some(&room[..0]);
        }
        let n = word.len() / 2;
        if n < 1 || 64 < n {
            return None;
        }
        spelled(word.as_bytes(), &mut room[..n])?;
        Some(&room[..n])
    }
}
