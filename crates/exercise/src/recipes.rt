// The superframe of a call, made by a rule that the second program has too (second/README.md, "The superframe of a call"): codes and factors
// are drawn, blocks and main frames written, and some bits turned. A recipe is 13 bytes: eight of service bits, the rate of turned bits in
// blocks, that in scale words, the place of a byte in two, and its bits that are turned.
ghost use Rattle.std.specs.Prelude.{◌<◌};

use crate::draws;
use crate::draws::Use;
use frame::Letter;
use std::array;

#[derive(Clone, Copy)]
pub(crate) struct Recipe {
    pub(crate) seed: u32,
    pub(crate) bytes: [u8; 13],
}

impl Recipe {
    fn code_at(self, place: u16) -> i16 {
        (draws::number(self.seed, Use::Code, place) / 4) as i16 - 8192
    }

    // The codes of four channels, from a place among the samples on.
    fn codes_from(self, place: u16) -> [i16; 4]
        requires { place < 2048 }
    {
        [
            self.code_at(place),
            self.code_at(place + 1),
            self.code_at(place + 2),
            self.code_at(place + 3),
        ]
    }

    fn factor_at(self, channel: u16) -> u8 {
        (draws::number(self.seed, Use::Factor, channel) % 8) as u8
    }

    // Extra bit f of a programme.
    fn extra_at(self, programme: u16, f: u16) -> u8
        requires room { programme < 16 }
        requires frame { f < 64 }
    {
        let place = 64 * programme + f;
        if 42 <= f {
            return (draws::number(self.seed, Use::Extra, place) % 2) as u8;
        }
        let left = self.factor_at(2 * programme);
        let right = self.factor_at(2 * programme + 1);
        let word = scale::write(left, right).unwrap_or([0; 14]);
        word[usize::from(f % 14)] ^ draws::turn(self.seed, Use::Extra, place, self.bytes[9])
    }

    // Block b of main frame n, in position q of the eight: as it is written, with some of its 63 protected bits turned.
    fn block_at(self, n: u16, b: u16) -> [u8; 77]
        requires frame { n < 128 }
        requires block { b < 4 }
    {
        let f = n % 64;
        let q = 4 * (n / 64) + b;
        let codes = self.codes_from(32 * f + 4 * q);
        let extra = [self.extra_at(2 * q, f), self.extra_at(2 * q + 1, f)];
        let mut bits = block_writer::write(codes, extra).unwrap_or([0; 77]);
        let first = 256 * n + 64 * b;
        for k in 0..63u16 {
            let turned = draws::turn(self.seed, Use::Block, first + k, self.bytes[8]);
            bits[usize::from(k)] ^= turned;
        }
        bits
    }

    fn service_at(self, n: u16) -> u8 {
        bits::bit_of(&self.bytes, usize::from(n % 64))
    }

    fn write_frame(self, n: u16, out: &mut [u8])
        requires { n < 128 }
    {
        let letter = if n < 64 { Letter::A } else { Letter::B };
        let blocks = [
            self.block_at(n, 0),
            self.block_at(n, 1),
            self.block_at(n, 2),
            self.block_at(n, 3),
        ];
        // 40 bytes and bits alone: it is never refused
        let _written = frame_writer::write(letter, self.service_at(n), blocks, out);
    }

    // A superframe and zeros behind it.
    pub(crate) fn superframe(self) -> [u8; 10240] {
        let mut bytes = [0; 10240];
        for n in 0u16..128 {
            let at = 40 * usize::from(n);
            self.write_frame(n, &mut bytes[at..at + 40]);
        }
        let at = 256 * usize::from(self.bytes[10]) + usize::from(self.bytes[11]);
        if let Some(byte) = bytes.get_mut(at) {
            *byte ^= self.bytes[12];
        }
        bytes
    }
}
