// The text of what a superframe carries beside its sound, in a transcript (docs/TRANSCRIPT.md), put by a pen: five lines.
#![tactic(auto)]

ghost use Rattle.std.specs.Prelude.{[], ◌∷◌, ◌++◌, ◌<◌};
ghost use Rattle.bits.specs.Digits.{digits};
ghost use Rattle.text.specs.Pens.{Puts};
ghost use Rattle.text_rows.specs.Turns.{in_turn, PutsTurns};
ghost use Rattle.beside_text.specs.Lines.{next_hex, service_line, labels_line, pair_text, factors_line, places_text, far_line, words_line, beside_text, information_line};

use superframe::{NotTaken, Taken};
use text::Pen;

// A line of texts that follow one another, each as a closure puts it: a word, so many texts, and the end.
fn put_line<F: Fn(&mut Pen<'_>, usize)>(pen: &mut Pen<'_>, word: &[u8], n: usize, put: F)
    requires { (i : _) (p : _) → i < n → F.pre put p i }
    ensures { (f : _) → PutsTurns (F.post put) n f → Puts pen.old pen.new (word.now ++ (in_turn n f ++ (10 ∷ []))) }
{
    pen.put_all(word);
    text_rows::put_turns(pen, n, put);
    pen.put(b'\n');
}

fn put_next_hex(pen: &mut Pen<'_>, bytes: &[u8])
    ensures { Puts pen.old pen.new (next_hex bytes.now) }
{
    pen.put(b' ');
    text_rows::put_hex(pen, bytes);
}

fn put_service(pen: &mut Pen<'_>, position: u8, number: u8, six: &[u8])
    ensures { Puts pen.old pen.new (service_line position number six.now) }
{
    pen.put_all(b"service");
    pen.put_next(u64::from(position));
    pen.put_next(u64::from(number));
    put_next_hex(pen, six);
    pen.put(b'\n');
}

fn put_labels(pen: &mut Pen<'_>, labels: Option<[u8; 256]>)
    ensures { Puts pen.old pen.new (labels_line labels) }
{
    match labels {
        Some(labels) => put_line(pen, b"labels", 32, |pen, c| {
            put_next_hex(pen, &labels[8 * c..8 * c + 8]);
        }),
        None => pen.put_all(b"labels none\n"),
    }
}

// The number is one of `Programmes`, which has 0 for a word that was read.
fn put_pair(pen: &mut Pen<'_>, number: u8, factors: &[u8])
    ensures { Puts pen.old pen.new (pair_text number factors.now) }
{
    pen.put(b' ');
    if number == 0 {
        text_rows::put_row(pen, factors);
    } else {
        pen.put_all(b"--");
    }
}

fn put_factors(pen: &mut Pen<'_>, numbers: [u8; 16], factors: [u8; 32])
    ensures { Puts pen.old pen.new (factors_line numbers factors) }
{
    put_line(
        pen,
        b"factors",
        16,
        |pen, q| put_pair(pen, numbers[q], &factors[2 * q..2 * q + 2]),
    );
}

fn put_places(pen: &mut Pen<'_>, number: u8, places: u8)
    ensures { Puts pen.old pen.new (places_text number places) }
{
    if number == 0 {
        pen.put_next(u64::from(places));
    } else {
        pen.put_all(b" -");
    }
}

fn put_far(pen: &mut Pen<'_>, numbers: [u8; 16], places: [u8; 16])
    ensures { Puts pen.old pen.new (far_line numbers places) }
{
    put_line(
        pen,
        b"far",
        16,
        |pen, q| put_places(pen, numbers[q], places[q]),
    );
}

// Of the three lower bytes each is cut out and narrowed: a word has 22 bits in 32.
fn put_word(pen: &mut Pen<'_>, word: u32)
    ensures { Puts pen.old pen.new (next_hex (digits 256 3 word)) }
{
    let high = (word / 65536 % 256) as u8;
    let middle = (word / 256 % 256) as u8;
    let low = (word % 256) as u8;
    put_next_hex(pen, &[high, middle, low]);
}

fn put_words(pen: &mut Pen<'_>, words: [u32; 16])
    ensures { Puts pen.old pen.new (words_line words) }
{
    put_line(pen, b"words", 16, |pen, q| put_word(pen, words[q]));
}

// A line of information words alone, as the folder for the restorers has it for each superframe; `lost` for one that was not taken.
pub fn put_information(pen: &mut Pen<'_>, taken: Result<Taken, NotTaken>)
    ensures { Puts pen.old pen.new (information_line taken) }
{
    match taken {
        Ok(taken) => put_words(pen, taken.programmes.words),
        Err(_) => pen.put_all(b"lost\n"),
    }
}

pub fn put_beside(pen: &mut Pen<'_>, taken: Taken)
    ensures { Puts pen.old pen.new (beside_text taken) }
{
    let number = service_sync::number_of(taken.kind);
    put_service(pen, taken.position, number, &taken.six);
    put_labels(pen, taken.labels);
    put_factors(pen, taken.programmes.numbers, taken.programmes.factors);
    put_far(pen, taken.programmes.numbers, taken.programmes.places);
    put_words(pen, taken.programmes.words);
}
