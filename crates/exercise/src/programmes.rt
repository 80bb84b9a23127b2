// The calls on programme bytes and names.
use crate::line_words::Words;
use crate::pages::Page;

pub(crate) fn read(mut words: Words<'_>, page: &mut Page<'_>) -> Option<()> {
    let byte = words.number()?;
    words.end()?;
    page.told(programme::read(byte), |page, said| {
        page.next(said.kind);
        page.next(said.music);
        page.next(said.mode);
    });
    Some(())
}

pub(crate) fn write(mut words: Words<'_>, page: &mut Page<'_>) -> Option<()> {
    let kind = words.number()?;
    let music = words.number()?;
    let mode = words.number()?;
    words.end()?;
    page.told(
        programme::write(kind, music, mode),
        |page, byte| page.next(byte),
    );
    Some(())
}

pub(crate) fn name(mut words: Words<'_>, page: &mut Page<'_>) -> Option<()> {
    let kind = words.number()?;
    words.end()?;
    page.told(programme::name_of(kind), |page, letters| page.hex(&letters));
    Some(())
}
