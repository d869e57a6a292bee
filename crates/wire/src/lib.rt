// The wire cell (document 02, request 7): samples of the two bus lines in, event words out. It knows the lines and event
// words, and nothing of a controller; driving SDAT is done outside.
#![tactic(auto)]

pub mod image;
mod levels;
pub mod listen;
mod nine;
mod record;

use calls::Outcome;
use event::Event;

// The lines as the last sample showed them.
#[derive(Clone, Copy)]
pub struct Lines {
    pub sdat: bool,
    // For how many samples in a row SCLK has been low, at most 17,501: it is high exactly where this is 0.
    pub low: u16,
}

// What the bits that come are part of.
#[derive(Clone, Copy, PartialEq, Eq, Debug)]
pub enum Listening {
    // Bits count for nothing until a START.
    Nothing,
    // The first byte after a START, which decides what follows.
    FirstByte,
    // Bytes from the host.
    Bytes,
    // Bytes that the host clocks in.
    Takes,
}

// What is listened for, how many of its nine bits have come, and the value of the first eight.
#[derive(Clone, Copy)]
pub struct Ear {
    pub listening: Listening,
    pub bits: u8,
    pub value: u8,
}

// The held state. Any value of any field may come in; `fit` tells the ones that a call accepts.
#[derive(Clone, Copy)]
pub struct Wire {
    pub lines: Lines,
    pub ear: Ear,
}

// What a sample can show, beside the lines as they were.
#[derive(Clone, Copy, PartialEq, Eq, Debug)]
pub enum Shown {
    // SDAT fell, or rose, while SCLK stayed high.
    Start,
    Stop,
    // SCLK has been low for too long.
    Timeout,
    // SCLK rose: SDAT is a bit.
    Bit(bool),
}

// What the ear makes of a sample: at most one event.
#[derive(Clone, Copy)]
pub struct Told {
    pub ear: Ear,
    pub given: Option<Event>,
}

// After a sample.
#[derive(Clone, Copy)]
pub struct Heard {
    pub wire: Wire,
    pub given: Option<Event>,
}

// What the call over samples answers: how many words were written, or why it was refused.
#[derive(Clone, Copy)]
pub struct Listened {
    pub wire: Wire,
    pub outcome: Outcome,
}
