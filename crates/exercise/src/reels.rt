// The calls on headers and runs.
use crate::line_words::Words;
use crate::pages::Page;

// No run of a call is longer.
const MOST: usize = 20480;

pub(crate) fn header(mut words: Words<'_>, page: &mut Page<'_>) -> Option<()> {
    let mut room = [0; 64];
    let bytes = words.bytes(&mut room)?;
    words.end()?;
    page.told(reel::read_header(bytes), |page, header| {
        page.next(header.count);
        page.next(header.offset);
    });
    Some(())
}

pub(crate) fn run(mut words: Words<'_>, page: &mut Page<'_>) -> Option<()> {
    let n = words.up_to(MOST)?;
    words.end()?;
    let run = [0; MOST];
    page.told(
        reel::run_count(&run[..n]),
        |page, count| page.next(count as u64),
    );
    Some(())
}

// Byte i is i / 80, so that a part tells where it starts.
fn marked() -> [u8; MOST] {
    std::array::from_fn(|i| (i / 80 % 256) as u8)
}

pub(crate) fn part(mut words: Words<'_>, page: &mut Page<'_>) -> Option<()> {
    let n = words.up_to(MOST)?;
    let k = words.up_to(4_294_967_295)?;
    words.end()?;
    let run = marked();
    let part = reel::superframe_of(&run[..n], k);
    page.number(&reel::superframe_number_of(&run[..n], k));
    page.next(part.len() as u64);
    if let Some(first) = part.first() {
        page.next(u64::from(*first) * 80);
    }
    Some(())
}
