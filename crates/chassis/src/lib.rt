// One to four controllers on one bus (document 02, request 9), built above the core and seeing no more than its promises. A lent
// list of records takes one event a call: bus events, TIMEOUT and TICK go to every one, PINS and RESET to the one that is named.
#![tactic(auto)]

mod held;
mod judge;
mod looking;
mod numbers;
mod passing;
mod stepping;

use bus::Reply;
use dock::{Controller, Standing};
use event::Event;

// The most records that a list has.
pub const MOST: usize = 4;

// Why a call is refused.
#[derive(Clone, Copy, PartialEq, Eq)]
pub enum Refusal {
    // The list has no record, or more than four.
    WrongLength,
    // A record isn't fit, or two started ones have one own address, or both a read open.
    Unfit,
    // A bit of the word that must be 0 is set.
    StrayBit,
    // PINS or RESET names a record that isn't there.
    Absent,
    // PINS names a record that isn't started; for the rest but RESET, none is.
    NotStarted,
    // The RESET would give a started neighbour's own address.
    AddressTaken,
}

// What a call answers, but for the outputs.
pub type Answer = Result<Reply, Refusal>;

#[derive(Clone, Copy)]
pub struct Told {
    pub answer: Answer,
    // Those of the records after the event, in the list's order: 0 for one that isn't there or isn't started, and with a refusal.
    pub outputs: [u16; MOST],
}

// Records that a program holds by value: the list is the first so many of them.
#[derive(Clone, Copy)]
pub struct Chassis {
    pub records: [Controller; MOST],
    pub count: usize,
}

#[derive(Clone, Copy)]
pub struct Stepped {
    pub chassis: Chassis,
    pub told: Told,
}

// ---- a call in parts, for who keeps records otherwise than in a list: each is looked at, the call is judged, and what each that the event reaches
// replies is gathered

// What becomes of a call: its event is sent, or it is refused.
pub type Verdict = Result<Event, Refusal>;

// How the records of a list stand on the bus, as far as they have been looked at; the places behind them are nobody's.
#[derive(Clone, Copy)]
pub struct Seen {
    pub standings: [Standing; MOST],
    pub count: usize,
}

// A call that has been judged.
#[derive(Clone, Copy)]
pub struct Errand {
    pub verdict: Verdict,
    // The record that PINS or RESET names.
    pub named: usize,
    pub word: u16,
}

// What is gathered while the records get the event, one after the other.
#[derive(Clone, Copy)]
pub struct Round {
    pub reply: Reply,
    pub outputs: [u16; MOST],
    // How many have been passed.
    pub place: usize,
}

// A record that has been passed, as the list's loop does it and as a caller of the parts must.
#[derive(Clone, Copy)]
pub struct Passed {
    pub controller: Controller,
    pub round: Round,
}

// Four places whose first so many records took a call.
#[derive(Clone, Copy)]
struct Lent {
    records: [Controller; MOST],
    told: Told,
}
