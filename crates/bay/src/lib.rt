// One bay of a dock (document 01, "Bay moves", and what "Registers" says of a bay): its record and constants,
// debounce, moves, its two registers and its outputs. It knows nothing of the bus, of the other bay, nor of the kind
// of its controller: where kinds differ it takes numbers and bools (document 03, "Bay moves"). One of these, whether a
// wait hides the device, stays from one RESET to the next, and so is no part of a Setting.
#![tactic(auto)]

mod debounce;
mod moves;
mod outputs;
mod record;
mod registers;

// In each array the places are n1394, nUSB and nREMREQ; a level of false is 0, asserted. The order of the fields is one in
// which the compiler copies them one by one (docs/DECISIONS.md).
#[derive(Clone, Copy, PartialEq, Eq)]
pub struct Bay {
    // As last sampled.
    pub levels: [bool; Bay::INPUTS],
    // For how many ticks a level has differed from the accepted one.
    pub counts: [u8; Bay::INPUTS],
    // As debounced.
    pub accepted: [bool; Bay::INPUTS],
    pub remreq_sts: bool,
    pub devstschg: bool,
    pub state: u8,
    // BCER.
    pub control: Control,
    // For how many ticks more the lock pin gives a pulse.
    pub pulse: u16,
    // For how many ticks more a device seats before the bay is Inserted.
    pub wait: u16,
    // nSL as last sampled: it is not debounced.
    pub n_sl: bool,
}

impl Bay {
    // The debounced inputs, and their places.
    pub const INPUTS: usize = 3;

    pub const N1394: usize = 0;

    pub const NUSB: usize = 1;

    pub const NREMREQ: usize = 2;
    // A level is accepted once it has differed for so many ticks: of a contact, and of the removal button.
    pub const PRESENCE_TICKS: u8 = 10;

    pub const REMREQ_TICKS: u8 = 5;
    // Bay states.
    pub const EMPTY: u8 = 0;

    pub const INSERTED: u8 = 1;

    pub const ENABLED: u8 = 2;

    pub const REMOVAL_REQUESTED: u8 = 3;

    pub const REMOVAL_ALLOWED: u8 = 4;
}

// BCER's six fields: of a bay, or as a driver writes them.
#[derive(Clone, Copy, PartialEq, Eq)]
pub struct Control {
    pub lock_ctl: bool,
    // Stored, 0-4, where 1-4 are bay states; written, 0-7.
    pub request: u8,
    pub remreq_en: bool,
    pub devstschg_en: bool,
    pub remevtwak_en: bool,
    pub pwr_ctl: bool,
}

// What the registers that the bays share, the straps and the kind of the controller make of a bay's rules.
#[derive(Clone, Copy, PartialEq, Eq)]
pub struct Setting {
    // The lock pin gives a pulse, high or low, of so many ticks as LOCK_CTL falls; else it is LOCK_CTL.
    pub pulsed: bool,
    pub pulse_high: bool,
    pub pulse_ticks: u16,
    // For so many ticks a device seats that arrives.
    pub wait_ticks: u16,
}

// One input after a TICK.
#[derive(Clone, Copy, PartialEq, Eq)]
pub struct Input {
    pub accepted: bool,
    pub count: u8,
    // A level was accepted in this TICK.
    pub settled: bool,
}

// A bay's inputs after a TICK.
#[derive(Clone, Copy, PartialEq, Eq)]
pub struct Inputs {
    pub n1394: Input,
    pub nusb: Input,
    pub nremreq: Input,
}
