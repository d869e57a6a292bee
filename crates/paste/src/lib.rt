// An image as a text of hex digits: `write` makes one that a person can paste into a report, and `read` answers any text
// with the state that it is of, or with what is wrong with it.
#![tactic(auto)]

mod digits;
mod findings;
mod ranges;

pub use digits::write;
use dock::Controller;
pub use findings::read;
use image::Flaw;

// The digits of an image.
pub const DIGITS: usize = 2 * image::BYTES;

// What is wrong with a text.
#[derive(Clone, Copy)]
pub enum Finding {
    // After so many digits comes a character that is none.
    NoDigit(usize),
    // So many digits: one is left over.
    OddDigit(usize),
    // So many bytes, and not as many as an image has.
    OtherLength(usize),
    // As many bytes, and no image.
    NoImage(Flaw),
    // The image of a state that isn't fit: this number is the first out of its range.
    Unfit(Ranged),
}

// A number of a state that has a range, which begins at 0.
#[derive(Clone, Copy)]
pub struct Ranged {
    // Where it begins in the image: of a pulse and of a wait the place of the high byte.
    pub at: usize,
    pub value: u16,
    // The largest that is fit.
    pub last: u16,
}

// The image of a fit state, and the state.
#[derive(Clone, Copy)]
pub struct Pasted {
    pub bytes: [u8; image::BYTES],
    pub controller: Controller,
}

// A text that can't be gone on from.
#[derive(Clone, Copy)]
pub struct Refused {
    pub finding: Finding,
    // What the digits come to; 0 where they are not as many as an image has.
    pub bytes: [u8; image::BYTES],
    // The image's state, or a fresh one.
    pub controller: Controller,
}
