// The held state as bytes: `save` writes them, and `load` answers any bytes at all.
ghost use Rattle.std.specs.Prelude.{◌≡◌};
ghost use Rattle.wire.specs.Image.{listening_number, listening_in, saved, load_of};

use crate::{Ear, Lines, Listening, Wire};
use pairs::{two_bytes, wide};

// The version rises whenever a byte, what it may hold or the length changes.
pub const LAYOUT: u8 = 1;

pub const BYTES: usize = 7;

pub const VERSION: usize = 0;

pub const SDAT: usize = 1;

pub const LISTENING: usize = 2;

pub const BITS: usize = 3;

pub const VALUE: usize = 4;

// The low run: its high byte, and the low one after it.
pub const LOW: usize = 5;

// No number of what is listened for.
#[derive(Clone, Copy, PartialEq, Eq, Debug)]
pub struct UnknownListening;

impl From<Listening> for u8 {
    ghost from_gives = { λ l n. n ≡ listening_number l };

    fn from(listening: Listening) -> u8 {
        match listening {
            Listening::Nothing => 0,
            Listening::FirstByte => 1,
            Listening::Bytes => 2,
            Listening::Takes => 3,
        }
    }
}

impl TryFrom<u8> for Listening {
    type Error = UnknownListening;

    ghost try_from_gives = { λ n r. r ≡ listening_in n };

    fn try_from(number: u8) -> Result<Listening, UnknownListening> {
        match number {
            0 => Ok(Listening::Nothing),
            1 => Ok(Listening::FirstByte),
            2 => Ok(Listening::Bytes),
            3 => Ok(Listening::Takes),
            _ => Err(UnknownListening),
        }
    }
}

#[tactic(auto, unfolding(crate::specs::Image::saved))]
pub fn save(wire: Wire) -> [u8; BYTES]
    ensures { result ≡ saved wire }
{
    let [high, low] = two_bytes(wire.lines.low);
    [
        LAYOUT,
        u8::from(wire.lines.sdat),
        u8::from(wire.ear.listening),
        wire.ear.bits,
        wire.ear.value,
        high,
        low,
    ]
}

// The held state of an image, fit or not; other bytes are none.
#[tactic(auto, unfolding(crate::specs::Image::load_of, crate::specs::Image::is_image))]
pub fn load(image: &[u8]) -> Option<Wire>
    ensures { result ≡ load_of image.now }
{
    if image.len() != BYTES || image[VERSION] != LAYOUT || 1 < image[SDAT] {
        return None;
    }
    let listening = Listening::try_from(image[LISTENING]).ok()?;
    Some(Wire {
        lines: Lines {
            sdat: image[SDAT] == 1,
            low: wide(image[LOW], image[LOW + 1]),
        },
        ear: Ear {
            listening,
            bits: image[BITS],
            value: image[VALUE],
        },
    })
}
