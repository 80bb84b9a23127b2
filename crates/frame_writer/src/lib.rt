// Main frames written (docs/FORMAT.md, "Main frame"): their 320 bits put into 40 lent bytes.
#![tactic(auto)]

ghost use Rattle.std.specs.Prelude.{◌≡◌, ◌*◌, ◌+◌, ◌<◌, ◌∷◌, ◌++◌, length, get_or};
ghost use Rattle.bits.specs.Bits.{bytes_of};
ghost use Rattle.bits.specs.Refused.{number_in};
ghost use Rattle.frame.specs.Frame.{sync_word, interleave};
ghost use Rattle.frame_writer.specs.Write.{good_values, write_number, FrameWritten};

use bits::Refusal;
use frame::Letter;

// Bit k of two interleaved blocks.
fn bit_between(lower: &[u8; 77], higher: &[u8; 77], k: usize) -> u8
    requires { k < 154 }
    ensures { result ≡ get_or (interleave lower.now higher.now) k 0 }
{
    if k % 2 == 0 {
        lower[k / 2]
    } else {
        higher[k / 2]
    }
}

fn interleaved(lower: [u8; 77], higher: [u8; 77]) -> [u8; 154]
    ensures { result ≡ interleave lower higher }
{
    std::array::from_fn(|k| bit_between(&lower, &higher, k))
}

// Bit k of the 320, of the service bit as it is sent and two interleaved pairs. The parts are of other lengths and one is a single bit, so each has its line.
fn bit_of(sync: &[u8; 11], service: u8, front: &[u8; 154], back: &[u8; 154], k: usize) -> u8
    requires { k < 320 }
    ensures { result ≡ get_or (sync.now ++ (service ∷ (front.now ++ back.now))) k 0 }
{
    if k < 11 {
        sync[k]
    } else if k == 11 {
        service
    } else if k < 166 {
        front[k - 12]
    } else {
        back[k - 166]
    }
}

// All of them.
fn joined(letter: Letter, service: u8, front: [u8; 154], back: [u8; 154]) -> [u8; 320]
    ensures { result ≡ sync_word letter ++ (service ∷ (front ++ back)) }
{
    let sync = frame::sync_of(letter);
    std::array::from_fn(|k| bit_of(&sync, service, &front, &back, k))
}

fn fill(bits: [u8; 320], out: &mut [u8])
    requires { length out.old ≡ 40 }
    ensures { out.new ≡ bytes_of bits }
{
    for i in 0..40 {
        out[i] = bits::byte_from(&bits, 8 * i);
    }
}

// Whether all that is to be written is bits.
fn are_values(service: u8, blocks: &[[u8; 77]; 4]) -> bool
    ensures { result ≡ good_values service blocks.now }
{
    service <= 1 && blocks.iter().all(|block| bits::are_bits(block))
}

// What writing into a buffer of some size is refused for: another size, then what is no bit.
fn writable(size: usize, service: u8, blocks: &[[u8; 77]; 4]) -> Result<(), Refusal>
    ensures { number_in result ≡ write_number size service blocks.now }
{
    if size != 40 {
        return Err(Refusal::Length);
    }
    if !are_values(service, blocks) {
        return Err(Refusal::Range);
    }
    Ok(())
}

pub fn write(
    letter: Letter,
    service: u8,
    blocks: [[u8; 77]; 4],
    out: &mut [u8],
) -> Result<(), Refusal>
    ensures { FrameWritten letter service blocks out.old (number_in result) out.new }
{
    writable(out.len(), service, &blocks)?;
    let sent = frame::carried(letter, service);
    let [first, second, third, fourth] = blocks;
    let front = interleaved(first, second);
    let back = interleaved(third, fourth);
    let bits = joined(letter, sent, front, back);
    fill(bits, out);
    Ok(())
}
