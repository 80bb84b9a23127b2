// The service machine (docs/FORMAT.md, "Service groups"): what six service bytes and the sync behind them make of the group that is open
// and of the labels gathered so far. Every function takes any numbers; what is out of its range is answered with number 2.
#![tactic(auto)]

ghost use Rattle.std.specs.Prelude.{◌≡◌};
ghost use Rattle.service.specs.Service.{searching_service, in_range, accepts, served};

mod taking; // taking.rt: what six bytes and the sync behind them make of the state

use bits::Refusal;
use service_sync::Kind;

// Where the machine stands between two superframes. Places that carry nothing hold 0.
#[derive(Clone, Copy, PartialEq, Eq, Debug)]
pub struct Service {
    // the position that the next six bytes have, 1 to 8; 0: they belong to no open group
    pub position: u8,
    // channel bytes of the open group, those before the position
    pub group: [u8; 32],
    // the label character that the next complete group brings, 1 to 8; 0: the separator is searched for
    pub stage: u8,
    // 32 labels of eight characters, those before the stage
    pub labels: [u8; 256],
}

// What one superframe's six bytes and sync give, and the state behind them: the machine's own here, the reader's in `superframe`.
#[derive(Clone, Copy, PartialEq, Eq, Debug)]
pub struct Served<S> {
    // of the six bytes; 0: they belong to no open group
    pub position: u8,
    // which sync is behind them: neither of the two is number 7
    pub kind: Kind,
    // 32 labels of eight characters, where they are handed out
    pub labels: Option<[u8; 256]>,
    pub next: S,
}

// No group open, and labels searched for.
#[tactic(auto, unfolding(crate::specs::Service::searching_service))]
pub fn searching() -> Service
    ensures { result ≡ searching_service }
{
    Service {
        position: 0,
        group: [0u8; 32],
        stage: 0,
        labels: [0u8; 256],
    }
}

// Position and stage have a range, the bytes have none.
#[tactic(auto, unfolding(crate::specs::Service::in_range))]
pub fn in_range(service: Service) -> bool
    ensures { result ≡ in_range service }
{
    service.position <= 8 && service.stage <= 8
}

#[tactic(auto, unfolding(crate::specs::Service::accepts))]
fn accepted(service: Service, sync: [u8; 16]) -> bool
    ensures { result ≡ accepts service sync }
{
    in_range(service) && bits::are_bits(&sync)
}

// The six bytes are taken first, then the sync. Refused with number 2 where the state is out of its range or an entry of the sync is no bit; the state is
// then as it was given.
#[tactic(auto, unfolding(crate::specs::Service::served))]
pub fn serve(service: Service, six: [u8; 6], sync: [u8; 16]) -> Result<Served<Service>, Refusal>
    ensures { result ≡ served service six sync }
{
    if !accepted(service, sync) {
        return Err(Refusal::Range);
    }
    let kind = service_sync::kind_of(sync);
    let taken = taking::take_six(service, six);
    Ok(Served {
        position: service.position,
        kind,
        labels: service_group::ready(service.position, service.stage).then_some(taken.labels),
        next: taking::take_sync(taken, kind),
    })
}
