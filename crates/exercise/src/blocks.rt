// The calls on blocks.
use crate::line_words::Words;
use crate::pages::Page;
use block::BlockReading;

pub(crate) fn write(mut words: Words<'_>, page: &mut Page<'_>) -> Option<()> {
    let codes = [
        words.number()?,
        words.number()?,
        words.number()?,
        words.number()?,
    ];
    let extra = [words.number()?, words.number()?];
    words.end()?;
    page.told(
        block_writer::write(codes, extra),
        |page, bits| page.row(&bits),
    );
    Some(())
}

// The number that stands for a reading on an answered line: 0 clean, 1 to 3 mended with so many, 4 bad.
fn number_of(reading: BlockReading) -> u8 {
    match reading {
        BlockReading::Clean => 0,
        BlockReading::Mended(places) => places,
        BlockReading::Bad => 4,
    }
}

pub(crate) fn read(mut words: Words<'_>, page: &mut Page<'_>) -> Option<()> {
    let radius = words.number()?;
    let bits = words.row()?;
    words.end()?;
    page.told(block::read(radius, bits), |page, block| {
        page.next(number_of(block.reading));
        page.row(&block.bits);
    });
    Some(())
}

pub(crate) fn codes(mut words: Words<'_>, page: &mut Page<'_>) -> Option<()> {
    let bits = words.row()?;
    words.end()?;
    page.told(block_codes::codes_of(bits), |page, block| {
        for code in block.codes {
            page.signed(code);
        }
        for bit in block.extra {
            page.next(bit);
        }
    });
    Some(())
}
