// The facts that every coding type carries, from Figure 5 and Table 3, and the noise levels.
#![tactic(auto)]

ghost use Rattle.std.specs.Prelude.{◌≡◌};
ghost use Rattle.refusals.specs.Refusals.{refusal_of};
ghost use Rattle.coding.specs.Coding.{sample_bits, droppable_bits, reset_bit, reserved, frame_length, refusal6};
ghost use Rattle.coding.specs.Noise.{noise_of, paper};
ghost use Rattle.coding.specs.Tables.{entry};

use refusals::{Refusal, refuse};

// The tables where a look-up reads them: a look-up in a constant copies the whole of it first.
static SAMPLE_BITS: [u8; 32] = Coding::SAMPLE_BITS;

static DROPPABLE_BITS: [u8; 32] = Coding::DROPPABLE_BITS;

static RESET: [u8; 32] = Coding::RESET;

// The entry for type t; 0 past the table's end.
#[tactic(auto, unfolding(crate::specs::Tables::entry))]
fn entry(table: &[u8; 32], t: u8) -> u8
    ensures { result ≡ entry table.now t }
{
    table.get(usize::from(t)).copied().unwrap_or(0)
}

#[derive(Clone, Copy)]
pub struct Coding(pub u8);

// A reserved type has 0 in each table. Beside each entry stands its type.
impl Coding {
    pub const SAMPLE_BITS: [u8; 32] = [
        8, // 0
        1, // 1
        2, // 2
        3, // 3
        4, // 4
        5, // 5
        6, // 6
        7, // 7
        8, // 8
        8, // 9
        2, // 10
        3, // 11
        4, // 12
        5, // 13
        0, // 14
        0, // 15
        0, // 16
        0, // 17
        0, // 18
        0, // 19
        4, // 20
        5, // 21
        0, // 22
        0, // 23
        8, // 24
        0, // 25
        0, // 26
        0, // 27
        0, // 28
        0, // 29
        0, // 30
        0, // 31
    ];

    pub const DROPPABLE_BITS: [u8; 32] = [
        0, // 0
        0, // 1
        0, // 2
        0, // 3
        0, // 4
        0, // 5
        0, // 6
        0, // 7
        0, // 8
        0, // 9
        0, // 10
        0, // 11
        0, // 12
        0, // 13
        0, // 14
        0, // 15
        0, // 16
        0, // 17
        0, // 18
        0, // 19
        2, // 20
        3, // 21
        0, // 22
        0, // 23
        2, // 24
        0, // 25
        0, // 26
        0, // 27
        0, // 28
        0, // 29
        0, // 30
        0, // 31
    ];

    pub const RESET: [u8; 32] = [
        0, // 0
        0, // 1
        0, // 2
        0, // 3
        0, // 4
        0, // 5
        0, // 6
        0, // 7
        0, // 8
        0, // 9
        1, // 10
        1, // 11
        1, // 12
        1, // 13
        0, // 14
        0, // 15
        0, // 16
        0, // 17
        0, // 18
        0, // 19
        1, // 20
        1, // 21
        0, // 22
        0, // 23
        1, // 24
        0, // 25
        0, // 26
        0, // 27
        0, // 28
        0, // 29
        0, // 30
        0, // 31
    ];

    pub const BLOCK: usize = 16;

    pub const OVERHEAD: usize = 10;

    pub fn sample_bits(self) -> u8
        ensures { result ≡ sample_bits self.0 }
    {
        entry(&SAMPLE_BITS, self.0)
    }

    pub fn droppable_bits(self) -> u8
        ensures { result ≡ droppable_bits self.0 }
    {
        entry(&DROPPABLE_BITS, self.0)
    }

    pub fn reset(self) -> u8
        ensures { result ≡ reset_bit self.0 }
    {
        entry(&RESET, self.0)
    }

    pub fn reserved(self) -> bool
        ensures { result ≡ reserved self.0 }
    {
        self.sample_bits() == 0
    }

    // The length of a frame of this type with so many blocks dropped; 0 where the type is reserved.
    pub fn frame_length(self, dropped: usize) -> usize
        ensures { result ≡ frame_length self.0 dropped }
    {
        let s = usize::from(self.sample_bits());
        if s == 0 {
            0
        } else {
            Self::BLOCK * s.saturating_sub(dropped) + Self::OVERHEAD
        }
    }

    pub fn refusal_6(self) -> Result<(), Refusal>
        ensures { refusal_of result ≡ refusal6 self.0 }
    {
        refuse(self.reserved(), Refusal::CodingType)
    }
}

// Tenths of dBmc0 by noise code; code 0 is idle.
pub const NOISE_TENTHS: [u16; 16] = [
    0, 166, 197, 226, 249, 269, 290, 310, 328, 346, 362, 379, 397, 416, 438, 466,
];

// Document 01 names this form, with the refusal as its number.
#[derive(Clone, Copy)]
pub enum Noise {
    Idle,
    Level(f64),
    Refused(u8),
}

pub fn noise_level(code: u8) -> Noise
    ensures { paper result ≡ noise_of code }
{
    match code {
        0 => Noise::Idle,
        1..=15 => Noise::Level(f64::from(NOISE_TENTHS[usize::from(code)]) / 10.0),
        _ => Noise::Refused(12),
    }
}
