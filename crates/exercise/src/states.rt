// The calls on the reader's state.
use crate::line_words::Words;
use crate::pages::Page;
use crate::totals;
use bits::Refusal;
use service::Service;
use superframe::State;

// The eleven words of a state.
pub(crate) fn read_state(words: &mut Words<'_>) -> Option<State> {
    let next = words.hex()?;
    let after = words.hex()?;
    let [position] = words.hex::<1>()?;
    let [stage] = words.hex::<1>()?;
    let group = words.hex()?;
    let labels = words.hex()?;
    let service = Service {
        position,
        group,
        stage,
        labels,
    };
    let totals = totals::read(words)?;
    Some(State {
        next,
        after,
        service,
        totals,
    })
}

pub(crate) fn put_state(page: &mut Page<'_>, state: State) {
    page.hex(&state.next);
    page.hex(&state.after);
    page.hex(&[state.service.position]);
    page.hex(&[state.service.stage]);
    page.hex(&state.service.group);
    page.hex(&state.service.labels);
    totals::put(page, state.totals);
}

pub(crate) fn fresh(mut words: Words<'_>, page: &mut Page<'_>) -> Option<()> {
    words.end()?;
    page.put(b'0');
    put_state(page, State::fresh());
    Some(())
}

// A call that gives a state or refuses it. Refused, the state that was given stands.
pub(crate) fn moved<F: Fn(State) -> Result<State, Refusal>>(
    mut words: Words<'_>,
    page: &mut Page<'_>,
    moves: F,
) -> Option<()>
    requires { F.IsAlwaysCallable moves }
{
    let state = read_state(&mut words)?;
    words.end()?;
    let next = moves(state);
    page.number(&next);
    put_state(page, next.unwrap_or(state));
    Some(())
}

fn put_labels(page: &mut Page<'_>, labels: Option<[u8; 256]>) {
    match labels {
        Some(labels) => page.hex(&labels),
        None => page.all(b" -"),
    }
}

pub(crate) fn service(mut words: Words<'_>, page: &mut Page<'_>) -> Option<()> {
    let state = read_state(&mut words)?;
    let six = words.hex()?;
    let sync = words.row()?;
    words.end()?;
    let served = state.take_service(six, sync);
    page.number(&served);
    match served {
        Ok(served) => {
            page.next(served.position);
            page.next(service_sync::number_of(served.kind));
            put_labels(page, served.labels);
            put_state(page, served.next);
        }
        Err(_) => put_state(page, state),
    }
    Some(())
}
