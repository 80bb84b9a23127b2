// The calls on main frames.
use crate::line_words::Words;
use crate::pages::Page;
use frame::Letter;

fn read_letter(words: &mut Words<'_>) -> Option<Letter> {
    match words.next()? {
        "a" => Some(Letter::A),
        "b" => Some(Letter::B),
        _ => None,
    }
}

pub(crate) fn read(mut words: Words<'_>, page: &mut Page<'_>) -> Option<()> {
    let mut room = [0; 64];
    let letter = read_letter(&mut words)?;
    let bytes = words.bytes(&mut room)?;
    words.end()?;
    page.told(frame::read(letter, bytes), |page, frame| {
        page.next(frame.wrong);
        page.next(frame.service);
        for block in &frame.blocks {
            page.row(block);
        }
    });
    Some(())
}

// A buffer of the length that is asked for, with the fill in every byte.
pub(crate) fn write(mut words: Words<'_>, page: &mut Page<'_>) -> Option<()> {
    let letter = read_letter(&mut words)?;
    let service = words.number()?;
    let blocks = [words.row()?, words.row()?, words.row()?, words.row()?];
    let n = words.up_to(64)?;
    let mut room = [words.number()?; 64];
    words.end()?;
    let lent = &mut room[..n];
    page.number(&frame_writer::write(letter, service, blocks, lent));
    if lent.is_empty() {
        page.all(b" -");
    } else {
        page.hex(lent);
    }
    Some(())
}
