// The two syncs of the service (docs/FORMAT.md, "Service groups"), and what one does behind the six bytes at a position: it opens a group,
// continues one, or drops. Every function takes any numbers: 16 that are no bits are neither sync, and no group is open behind a position over 8.
#![tactic(auto)]

ghost use Rattle.std.specs.Prelude.{◌≡◌};
ghost use Rattle.service_sync.specs.Sync.{kind_of, is_open, next_position, drops_with, number_of};

// Which of the two syncs the 16 bits are.
#[derive(Clone, Copy, PartialEq, Eq, Debug)]
pub enum Kind {
    First,
    Second,
    Neither,
}

// document 01, "Service groups"
const SYNC_1: [u8; 16] = [0, 0, 0, 0, 0, 1, 0, 1, 1, 1, 0, 0, 1, 1, 1, 1];

const SYNC_2: [u8; 16] = [0, 0, 0, 0, 0, 1, 0, 1, 1, 1, 1, 1, 1, 1, 1, 1];

#[tactic(auto, using(crate::proofs::Syncs::agreed), unfolding(crate::specs::Sync::kind_of))]
pub fn kind_of(sync: [u8; 16]) -> Kind
    ensures { result ≡ kind_of sync }
{
    if sync == SYNC_1 {
        return Kind::First;
    }
    if sync == SYNC_2 {
        return Kind::Second;
    }
    Kind::Neither
}

#[tactic(auto, unfolding(crate::specs::Sync::is_open))]
fn is_open(position: u8) -> bool
    ensures { result ≡ is_open position }
{
    0 < position && position < 8
}

#[tactic(auto, unfolding(crate::specs::Sync::is_open))]
pub fn next_position(kind: Kind, position: u8) -> u8
    ensures { result ≡ next_position kind position }
{
    match kind {
        Kind::First => 1,
        Kind::Second => { if is_open(position) { position + 1 } else { 0 } }
        Kind::Neither => 0,
    }
}

pub fn drops(kind: Kind, position: u8) -> bool
    ensures { result ≡ drops_with kind position }
{
    match kind {
        Kind::First => is_open(position),
        Kind::Second => !is_open(position),
        Kind::Neither => true,
    }
}

pub fn number_of(kind: Kind) -> u8
    ensures { result ≡ number_of kind }
{
    match kind {
        Kind::First | Kind::Second => 0,
        Kind::Neither => 7,
    }
}
