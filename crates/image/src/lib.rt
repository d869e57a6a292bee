// A controller's state as bytes: `save` writes them, and `load` answers any bytes at all.
#![tactic(auto)]

pub mod load;
pub mod save;

use dock::Controller;

// ---- the layout: its version, then the flags, each a byte of 0 or 1, then the numbers, then the command in progress

// The version rises whenever a byte, what it may hold or the length changes.
pub const LAYOUT: u8 = 4;

pub const BYTES: usize = 74;

pub const VERSION: usize = 0;

// Flags.
pub const STARTED: usize = 1;

// The second kind is in force, and the second kind is named.
pub const KIND: usize = 2;

pub const NAMED: usize = 3;

pub const DBCCR_WRITTEN: usize = 4;

pub const SECLOCK: usize = 5;

// Four bytes of the subsystem words, and the form factors of two bays.
pub const SUBSYSTEM_WRITTEN: usize = 6;

pub const FORM_FACTORS_WRITTEN: usize = 10;

pub const SFR_WRITTEN: usize = 12;

pub const FLAGS_0: usize = 13;

pub const FLAGS_1: usize = 27;

// Numbers.
pub const STRAPS: usize = 41;

pub const BAY_COUNT: usize = 42;

pub const LOCK_TIME: usize = 43;

pub const WAIT_TIME: usize = 44;

pub const PHASE: usize = 45;

pub const SUBSYSTEM: usize = 46;

pub const FORM_FACTORS: usize = 50;

pub const SFR: usize = 52;

pub const NUMBERS_0: usize = 53;

pub const NUMBERS_1: usize = 62;

// The command in progress: which it is, and the two bytes that it may hold.
pub const PROGRESS: usize = 71;

pub const FIRST: usize = 72;

pub const SECOND: usize = 73;

// ---- which command is in progress; from REGISTER on it holds a byte, and at DATA and SENDING two

pub(crate) const IDLE: u8 = 0;

pub(crate) const OPENED: u8 = 1;

pub(crate) const ADDRESSED: u8 = 2;

pub(crate) const REGISTER: u8 = 3;

pub(crate) const DATA: u8 = 4;

pub(crate) const AGAIN: u8 = 5;

pub(crate) const READING: u8 = 6;

pub(crate) const WRITING: u8 = 7;

pub(crate) const SENDING: u8 = 8;

// ---- the flags of a bay, from FLAGS_0 or FLAGS_1; n1394, nUSB and nREMREQ for levels and accepted levels

pub const LEVELS: usize = 0;

pub const ACCEPTED: usize = 3;

pub const N_SL: usize = 6;

pub const REMREQ_STS: usize = 7;

pub const DEVSTSCHG: usize = 8;

pub const LOCK_CTL: usize = 9;

pub const REMREQ_EN: usize = 10;

pub const DEVSTSCHG_EN: usize = 11;

pub const REMEVTWAK_EN: usize = 12;

pub const PWR_CTL: usize = 13;

// ---- the numbers of a bay, from NUMBERS_0 or NUMBERS_1; n1394, nUSB and nREMREQ for the counts

pub const COUNTS: usize = 0;

pub const STATE: usize = 3;

pub const REQUEST: usize = 4;

// A high byte, and the low one after it.
pub const PULSE: usize = 5;

pub const WAIT: usize = 7;

// Why bytes are no image.
#[derive(Clone, Copy, PartialEq, Eq)]
pub enum Flaw {
    WrongLength,
    UnknownVersion,
    // The byte at this place is above 1, and it is a flag.
    NotAFlag(usize),
    UnknownProgress,
    // The byte at this place isn't 0, and the command in progress doesn't use it.
    NotUsed(usize),
}

// What bytes are: without a flaw they are an image, of a state that may be unfit. Beside a flaw stands a fresh state.
#[derive(Clone, Copy)]
pub struct Loaded {
    pub verdict: Result<(), Flaw>,
    pub controller: Controller,
}
