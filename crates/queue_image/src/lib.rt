// A queue as bytes: `save` writes them, and `load` answers any bytes at all.
#![tactic(auto)]

pub mod load;
mod ring;
pub mod save;

// The version rises whenever a byte, what it may hold or the length changes.
pub const LAYOUT: u8 = 1;

pub const BYTES: usize = 261;

pub const VERSION: usize = 0;

// Start and count, and then the words of the ring: two bytes each, the high one first.
pub const START: usize = 1;

pub const COUNT: usize = 3;

pub const WORDS: usize = 5;
