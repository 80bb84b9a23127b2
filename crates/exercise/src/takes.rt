// The call that takes a superframe.
use crate::line_words::Words;
use crate::pages::Page;
use crate::recipes::Recipe;
use crate::{states, sums};
use beside::Programmes;
use superframe::Taken;
use tape::Blocks;

fn put_blocks(page: &mut Page<'_>, blocks: Blocks) {
    page.hex(&blocks.clean);
    page.hex(&blocks.mended);
    page.hex(&blocks.bad);
}

fn put_programmes(page: &mut Page<'_>, programmes: Programmes) {
    page.row(&programmes.numbers);
    page.hex(&programmes.factors);
    page.hex(&programmes.places);
    page.next(sums::of(&programmes.words, |word| word));
}

fn put_service(page: &mut Page<'_>, six: [u8; 6], told: [u8; 3], labels: [u8; 256]) {
    page.hex(&six);
    page.row(&told);
    page.next(sums::of(&labels, u32::from));
}

// What is handed out behind the state.
fn put_taken(page: &mut Page<'_>, taken: Taken) {
    let complete = u8::from(taken.labels.is_some());
    let told = [
        taken.position,
        service_sync::number_of(taken.kind),
        complete,
    ];
    page.next(taken.wrong);
    put_blocks(page, taken.blocks);
    put_programmes(page, taken.programmes);
    put_service(page, taken.six, told, taken.labels.unwrap_or([0; 256]));
}

// In its place where the superframe is refused.
fn put_zeros(page: &mut Page<'_>) {
    page.next(0u8);
    for _ in 0..3 {
        page.hex(&[0; 8]);
    }
    page.row(&[0; 16]);
    page.hex(&[0; 32]);
    page.hex(&[0; 16]);
    page.next(0u8);
    put_service(page, [0; 6], [0; 3], [0; 256]);
}

// The first bytes of a room, and the first places of two lists, are lent. The lists hold something before the call, so that a refusal that writes is seen, and
// their sums are of the whole room that they have.
pub(crate) fn take(mut words: Words<'_>, page: &mut Page<'_>) -> Option<()> {
    let radius = words.number()?;
    let n = words.up_to(10240)?;
    let s = words.up_to(4096)?;
    let m = words.up_to(4096)?;
    let seed = words.number()?;
    let bytes = words.hex()?;
    let state = states::read_state(&mut words)?;
    words.end()?;
    let superframe = Recipe { seed, bytes }.superframe();
    let mut samples = [-21555; 4096];
    let mut marks = [165; 4096];
    let taken = state.take(radius, &superframe[..n], &mut samples[..s], &mut marks[..m]);
    match taken {
        Ok(taken) => {
            page.put(b'0');
            states::put_state(page, taken.next);
            put_taken(page, taken);
        }
        Err(refused) => {
            page.refused(refused.why);
            states::put_state(page, refused.next);
            put_zeros(page);
        }
    }
    page.next(sums::of(&samples, sums::shifted));
    page.next(sums::of(&marks, u32::from));
    Some(())
}
