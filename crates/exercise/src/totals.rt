// The words of running totals, the last five of a state: how many superframes were taken and lost, and a number of 32 bits for each programme, its higher
// byte first.
use crate::line_words::Words;
use crate::pages::Page;
use running::Running;
use std::array;

fn numbers_of(bytes: [u8; 64]) -> [u32; 16] {
    array::from_fn(|q| {
        u32::from_be_bytes([
            bytes[4 * q],
            bytes[4 * q + 1],
            bytes[4 * q + 2],
            bytes[4 * q + 3],
        ])
    })
}

fn read_numbers(words: &mut Words<'_>) -> Option<[u32; 16]> {
    Some(numbers_of(words.hex()?))
}

pub(crate) fn read(words: &mut Words<'_>) -> Option<Running> {
    Some(Running {
        taken: words.number()?,
        lost: words.number()?,
        clean: read_numbers(words)?,
        mended: read_numbers(words)?,
        bad: read_numbers(words)?,
    })
}

fn bytes_of(numbers: [u32; 16]) -> [u8; 64] {
    array::from_fn(|k| numbers[k / 4].to_be_bytes()[k % 4])
}

pub(crate) fn put(page: &mut Page<'_>, totals: Running) {
    page.next(totals.taken);
    page.next(totals.lost);
    page.hex(&bytes_of(totals.clean));
    page.hex(&bytes_of(totals.mended));
    page.hex(&bytes_of(totals.bad));
}
