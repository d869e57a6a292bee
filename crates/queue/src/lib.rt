// The queue of waiting words (document 02, request 8), between an interrupt handler and the core: what is put in comes
// out in the same order. It knows 16-bit words, and nothing of what they mean.
#![tactic(auto)]

mod numbers;
mod record;
mod turns;

pub use numbers::{number, put_number, word};

// So many words may wait.
pub const PLACES: usize = 128;

// A ring: `count` words wait, the oldest at `start`, each next one a place further, and after place 127 comes place 0.
// At the other places may be anything. Any value of any field may come in; a call refuses what isn't fit.
#[derive(Clone, Copy)]
pub struct Queue {
    pub words: [u16; PLACES],
    pub start: u16,
    pub count: u16,
}

// Why a put or a take is refused.
#[derive(Clone, Copy, PartialEq, Eq, Debug)]
pub enum Refusal {
    // The record isn't fit.
    Unfit,
    // 128 words wait.
    Full,
    // None waits.
    Empty,
}

// What a call answers: the queue afterwards, and what it gave, or why it was refused.
#[derive(Clone, Copy)]
pub struct Answer<T> {
    pub queue: Queue,
    pub outcome: Result<T, Refusal>,
}
