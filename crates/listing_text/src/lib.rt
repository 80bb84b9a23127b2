// The text of a listing (docs/FORMAT.md, "Reel file and listing"), put by a pen.
#![tactic(auto)]

ghost use Rattle.text.specs.Pens.{Puts};
ghost use Rattle.text.specs.Entry.{PutsWhole};
ghost use Rattle.reel.specs.Header.{header_answer};
ghost use Rattle.listing_text.specs.Listing.{line, ending, seven_lines, listing};

use bits::Refusal;
use reel::Header;
use tally::Totals;
use text::Pen;

pub fn put_line(pen: &mut Pen<'_>, word: &[u8], n: u64)
    ensures { Puts pen.old pen.new (line word.now n) }
{
    pen.put_all(word);
    pen.put_next(n);
    pen.put(b'\n');
}

#[tactic(auto, unfolding(crate::specs::Listing::ending, bits::specs::Letters::letters))]
pub fn put_ending(pen: &mut Pen<'_>, promised: u32, read: u64)
    ensures { Puts pen.old pen.new (ending promised read) }
{
    if u64::from(promised) == read {
        pen.put_all(b"end ok\n");
    } else {
        pen.put_all(b"end short\n");
    }
}

fn put_totals(pen: &mut Pen<'_>, promised: u32, totals: Totals)
    ensures { Puts pen.old pen.new (seven_lines promised totals) }
{
    put_line(pen, b"superframes", totals.superframes);
    put_line(pen, b"lost", totals.lost);
    put_line(pen, b"sync", totals.wrong);
    put_line(pen, b"clean", totals.clean);
    put_line(pen, b"mended", totals.mended);
    put_line(pen, b"bad", totals.bad);
    put_ending(pen, promised, totals.superframes);
}

fn put_lines(pen: &mut Pen<'_>, header: Result<Header, Refusal>, totals: Totals)
    ensures { Puts pen.old pen.new (listing (header_answer header) totals) }
{
    match header {
        Ok(header) => put_totals(pen, header.count, totals),
        Err(refusal) => put_line(pen, b"refused", u64::from(refusal.number())),
    }
}

// What a reel's header says, and the totals of its superframes, as text from the pen's place on.
pub fn put_listing(
    pen: &mut Pen<'_>,
    header: Result<Header, Refusal>,
    totals: Totals,
) -> Result<(), Refusal>
    ensures { PutsWhole pen.old pen.new result (listing (header_answer header) totals) }
{
    pen.put_whole(|pen| put_lines(pen, header, totals))
}
