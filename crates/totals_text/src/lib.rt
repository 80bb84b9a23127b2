// The text of running totals (document 02, P7; docs/HAND-ON.md, "totals.txt"), put by a pen. Programmes count from 0 here, and from 1 in the text.
#![tactic(auto)]

ghost use Rattle.std.specs.Prelude.{◌<◌};
ghost use Rattle.text.specs.Pens.{Puts};
ghost use Rattle.text.specs.Entry.{PutsWhole};
ghost use Rattle.reel.specs.Header.{header_answer};
ghost use Rattle.totals_text.specs.Totals.{counts_line, programme_line, totals_lines, totals_text};

use bits::Refusal;
use reel::Header;
use running::Running;
use text::Pen;

fn put_programme(pen: &mut Pen<'_>, q: u64, clean: u32, mended: u32, bad: u32)
    requires { q < 16 }
    ensures { Puts pen.old pen.new (counts_line q clean mended bad) }
{
    pen.put_all(b"programme");
    pen.put_next(q + 1);
    pen.put_all(b" clean");
    pen.put_next(u64::from(clean));
    pen.put_all(b" mended");
    pen.put_next(u64::from(mended));
    listing_text::put_line(pen, b" bad", u64::from(bad));
}

fn put_all(pen: &mut Pen<'_>, promised: u32, totals: Running)
    ensures { Puts pen.old pen.new (totals_lines promised totals) }
{
    let lost = u64::from(totals.lost);
    let given = u64::from(totals.taken) + lost;
    listing_text::put_line(pen, b"superframes", given);
    listing_text::put_line(pen, b"lost", lost);
    text_rows::put_turns(pen, 16, |pen, q| {
        let (clean, mended, bad) = (totals.clean[q], totals.mended[q], totals.bad[q]);
        put_programme(pen, q as u64, clean, mended, bad);
    });
    listing_text::put_ending(pen, promised, given);
}

fn put_lines(pen: &mut Pen<'_>, header: Result<Header, Refusal>, totals: Running)
    ensures { Puts pen.old pen.new (totals_text (header_answer header) totals) }
{
    match header {
        Ok(header) => put_all(pen, header.count, totals),
        Err(refusal) => listing_text::put_line(pen, b"refused", u64::from(refusal.number())),
    }
}

// What a reel's header says, and the running totals of its superframes, as text from the pen's place on.
pub fn put_totals(
    pen: &mut Pen<'_>,
    header: Result<Header, Refusal>,
    totals: Running,
) -> Result<(), Refusal>
    ensures { PutsWhole pen.old pen.new result (totals_text (header_answer header) totals) }
{
    pen.put_whole(|pen| put_lines(pen, header, totals))
}
