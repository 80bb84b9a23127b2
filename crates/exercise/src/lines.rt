// A line, answered. A call reads its words, which end there, and then writes on the page: so the two go to it side by side.
use crate::line_words::Words;
use crate::pages::Page;
use crate::{blocks, frames, programmes, reels, samples, scales, states, takes};
use superframe::State;

// What the call gives that a line names by its first word; None where the line is no call, and nothing is put then.
fn called(line: &[u8], page: &mut Page<'_>) -> Option<()> {
    let mut words = Words::of(line)?;
    match words.next()? {
        "bwrite" => blocks::write(words, page),
        "bread" => blocks::read(words, page),
        "bcodes" => blocks::codes(words, page),
        "fwrite" => frames::write(words, page),
        "fread" => frames::read(words, page),
        "code" => samples::single(words, page, sample::code_of),
        "sample" => samples::single(words, page, sample::sample_of),
        "codes" => samples::swept(words, page, sample::code_of),
        "samples" => samples::swept(words, page, sample::sample_of),
        "factor" => samples::factor(words, page),
        "swrite" => scales::write(words, page),
        "sread" => scales::read(words, page),
        "sextra" => scales::extra(words, page),
        "pread" => programmes::read(words, page),
        "pwrite" => programmes::write(words, page),
        "name" => programmes::name(words, page),
        "header" => reels::header(words, page),
        "run" => reels::run(words, page),
        "part" => reels::part(words, page),
        "fresh" => states::fresh(words, page),
        "lose" => states::moved(words, page, State::lose),
        "reset" => states::moved(words, page, State::reset),
        "service" => states::service(words, page),
        "take" => takes::take(words, page),
        _ => None,
    }
}

// The line with its answer and a line end, and where that ends: past the end of a buffer that has no room for it.
pub(crate) fn answer(line: &[u8], room: &mut [u8]) -> usize {
    let mut page = Page::blank(room);
    page.all(line);
    page.all(b" = ");
    if called(line, &mut page).is_none() {
        page.put(b'?');
    }
    page.put(b'\n');
    page.end()
}
