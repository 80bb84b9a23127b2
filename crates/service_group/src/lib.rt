// What six service bytes do (docs/FORMAT.md, "Service groups"): they go to their place in the open group, and a complete group brings the separator or a
// character for each label. Every function takes any numbers: at position 0, or over 8, the bytes are of no group, and a stage over 8 is past the labels.
#![tactic(auto)]

ghost use Rattle.std.specs.Prelude.{◌≡◌, ◌<◌};
ghost use Rattle.bits.specs.Table.{tabulate};
ghost use Rattle.service_group.specs.Places.{in_order};
ghost use Rattle.service_group.specs.Six.{channel_byte, group_after, label_byte, stage_after, is_ready};

#[tactic(auto, unfolding(crate::specs::Places::in_order))]
fn in_order(at: u8, place: usize, was: u8, comes: u8) -> u8
    ensures { result ≡ in_order at place was comes }
{
    let here = usize::from(at);
    if place < here {
        return was;
    }
    if place == here {
        return comes;
    }
    0
}

#[tactic(auto, unfolding(crate::specs::Six::channel_byte))]
fn channel_byte(position: u8, group: &[u8; 32], six: &[u8; 6], i: usize) -> u8
    requires { i < 32 }
    ensures { result ≡ channel_byte position group.now six.now i }
{
    let byte = i % 4;
    in_order(position, i / 4 + 1, group[i], six[byte])
}

pub fn gather(position: u8, group: [u8; 32], six: [u8; 6]) -> [u8; 32]
    ensures { result ≡ group_after position group six }
{
    std::array::from_fn(|i| channel_byte(position, &group, &six, i))
}

#[tactic(auto, unfolding(crate::specs::Six::label_byte))]
fn label_byte(stage: u8, labels: &[u8; 256], characters: &[u8; 32], i: usize) -> u8
    requires { i < 256 }
    ensures { result ≡ label_byte stage labels.now characters.now i }
{
    let channel = i / 8;
    in_order(stage, i % 8 + 1, labels[i], characters[channel])
}

pub fn write_labels(stage: u8, labels: [u8; 256], characters: [u8; 32]) -> [u8; 256]
    ensures { result ≡ tabulate 256 (label_byte stage labels characters) }
{
    std::array::from_fn(|i| label_byte(stage, &labels, &characters, i))
}

#[tactic(auto, unfolding(crate::specs::Six::stage_after))]
pub fn stage_after(position: u8, stage: u8, group: [u8; 32]) -> u8
    ensures { result ≡ stage_after position stage group }
{
    if position != 8 {
        return stage;
    }
    if stage == 0 {
        if bits::all_below(&group, 1) {
            return 1;
        }
        return 0;
    }
    if stage < 8 {
        return stage + 1;
    }
    0
}

#[tactic(auto, unfolding(crate::specs::Six::is_ready))]
pub fn ready(position: u8, stage: u8) -> bool
    ensures { result ≡ is_ready position stage }
{
    position == 8 && stage == 8
}
