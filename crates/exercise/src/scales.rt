// The calls on scale words and extra bits.
use crate::line_words::Words;
use crate::pages::Page;
use bits::Refusal;
use nearest::Factors;

pub(crate) fn write(mut words: Words<'_>, page: &mut Page<'_>) -> Option<()> {
    let left = words.number()?;
    let right = words.number()?;
    words.end()?;
    page.told(scale::write(left, right), |page, bits| page.row(&bits));
    Some(())
}

fn put_factors(page: &mut Page<'_>, factors: Factors) {
    page.next(factors.left);
    page.next(factors.right);
    page.next(factors.places);
}

pub(crate) fn read(mut words: Words<'_>, page: &mut Page<'_>) -> Option<()> {
    let bits = words.row()?;
    words.end()?;
    page.told(nearest::read(bits), put_factors);
    Some(())
}

// The word comes behind number 5 too.
pub(crate) fn extra(mut words: Words<'_>, page: &mut Page<'_>) -> Option<()> {
    let bits = words.row()?;
    words.end()?;
    match nearest::read_extra(bits) {
        Ok(extra) => {
            page.told(extra.factors.ok_or(Refusal::Scale), put_factors);
            page.next(extra.word);
        }
        refused => page.number(&refused),
    }
    Some(())
}
