// A text as bytes in hex, two digits to a byte.
ghost use Rattle.std.specs.Prelude.{◌≡◌, ◌+◌, ◌*◌, ◌<◌, length};
ghost use Rattle.image.specs.Layout.{BYTES};
ghost use Rattle.image.specs.Save.{saved};
ghost use Rattle.paste.specs.Digits.{hex_of, leading_digits, octet_at, bytes_of};

use crate::DIGITS;
use dock::Controller;
use image::BYTES;
use script::digit;

// Bytes as digits, the high one of each first.
fn digits_of(bytes: [u8; BYTES]) -> [u8; DIGITS]
    ensures { result ≡ hex_of bytes }
{
    let mut text = [0; DIGITS];
    for (i, byte) in bytes.iter().enumerate() {
        text[2 * i] = hexes::digit(u16::from(*byte / 16));
        text[2 * i + 1] = hexes::digit(u16::from(*byte));
    }
    text
}

// The image of a state.
pub fn write(controller: Controller) -> [u8; DIGITS]
    ensures { result ≡ hex_of (saved controller) }
{
    digits_of(image::save::save(controller))
}

// How many hex digits stand in front.
pub(crate) fn count_digits(text: &[u8]) -> usize
    ensures { result ≡ leading_digits text.now }
{
    text.iter().take_while(|c| digit(**c).is_some()).count()
}

// Byte i of a text of digits.
#[tactic(auto, using(crate::proofs::Passing::each_digit))]
fn octet_at(text: &[u8], i: usize) -> u8
    requires digits { leading_digits text.now ≡ length text.now }
    requires in_bounds { 2 * i + 1 < length text.now }
    ensures { result ≡ octet_at text.now i }
{
    digit(text[2 * i]).unwrap() * 16 + digit(text[2 * i + 1]).unwrap()
}

// The bytes of an image, where there are digits for all of them.
pub(crate) fn bytes_in(text: &[u8]) -> [u8; BYTES]
    requires text_value { leading_digits text.now ≡ length text.now }
    requires text_len { length text.now ≡ 2 * BYTES }
    ensures { result ≡ bytes_of text.now }
{
    let mut bytes = [0; BYTES];
    for i in 0..BYTES {
        bytes[i] = octet_at(text, i);
    }
    bytes
}
