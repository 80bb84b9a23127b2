// What six bytes and the sync behind them make of the machine's state.
ghost use Rattle.std.specs.Prelude.{◌≡◌, cond};
ghost use Rattle.bits.specs.Table.{zeros};
ghost use Rattle.service.specs.Taking.{take_six, take_sync};

use crate::Service;
use service_sync::Kind;

// A list that stands, or zeros in each of its places. `then_some` and `unwrap_or` would say it in more words.
fn kept_if<const N: usize>(holds: bool, list: [u8; N]) -> [u8; N]
    ensures { result ≡ cond holds list.entry (zeros N) }
{
    if holds { list } else { [0u8; N] }
}

#[tactic(auto, unfolding(crate::specs::Taking::take_six, service_group::specs::Six::labels_after))]
pub(crate) fn take_six(service: Service, six: [u8; 6]) -> Service
    ensures { result ≡ take_six service six }
{
    let position = service.position;
    let stage = service.stage;
    let group = service_group::gather(position, service.group, six);
    let characters = kept_if(position == 8, group);
    Service {
        position,
        group,
        stage: service_group::stage_after(position, stage, group),
        labels: service_group::write_labels(stage, service.labels, characters),
    }
}

#[tactic(auto, unfolding(crate::specs::Taking::take_sync))]
pub(crate) fn take_sync(service: Service, kind: Kind) -> Service
    ensures { result ≡ take_sync kind service }
{
    let position = service_sync::next_position(kind, service.position);
    let dropped = service_sync::drops(kind, service.position);
    let stage = if dropped { 0 } else { service.stage };
    Service {
        position,
        group: kept_if(1 < position, service.group),
        stage,
        labels: kept_if(0 < stage, service.labels),
    }
}
