// The bench's language: what a line that a person typed asks for, or what is wrong with it. docs/BENCH.md describes
// it for people; specs/ has the same as definitions.
#![tactic(auto)]

mod arguments;
mod hands;
mod lines;
mod text;
mod verbs;

pub use arguments::{digit, further_value, word};
use event::Event;
pub use lines::{argument, meaning};

// The word that a line begins with.
#[derive(Clone, Copy)]
pub enum Verb {
    Reset,
    Pins,
    Tick,
    Timeout,
    Start,
    Stop,
    Byte,
    Take,
    Word,
    W,
    R,
    At,
    Out,
    Regs,
    Help,
    Save,
    Load,
    Kind,
    Chassis,
    Dock,
}

// The word that a line about a bay begins with: what a person does there.
#[derive(Clone, Copy)]
pub enum Hand {
    Insert,
    Remove,
    Press,
    Release,
    Secure,
    Unsecure,
}

// What a line asks for.
#[derive(Clone, Copy)]
pub enum Order {
    // One event.
    Event(Event),
    // These inputs go to 0, asserted, and the other levels stay; each input by its weight in the levels.
    Pull(u8),
    // They go to 1.
    Raise(u8),
    // So many TICKs.
    Ticks(u16),
    // A word as it is, also one that is refused.
    Word(u16),
    // A whole write: a value, and so many more that follow it in the line's `argument`.
    Write { register: u8, value: u8, more: u8 },
    // A whole read of a register, and of so many more after it.
    Read { register: u8, more: u8 },
    // The host speaks to this address from now on.
    Address(u8),
    // Tell the outputs.
    Outputs,
    // Tell the registers.
    Registers,
    // Tell what can be asked for.
    Help,
    // Tell the dock's state as an image in hex.
    Save,
    // Go on from the image whose digits are the line's `argument`.
    Load,
    // Name a kind of controller by its number, also one that names none.
    Name(u8),
    // So many docks stand on the bus from now on, one to four.
    Docks(u8),
    // Choose a dock by its number, also one that isn't there.
    Choose(u8),
}

// What is wrong with a line.
#[derive(Clone, Copy)]
pub enum Mistake {
    // It begins with no verb.
    Unknown,
    // What follows the verb is not what it takes.
    Misused(Verb),
    // What follows the hand's word is not what it takes.
    Mishandled(Hand),
}

// What a name stands for.
#[derive(Clone, Copy)]
enum Named {
    This(Verb),
    AtBay(Hand),
}
