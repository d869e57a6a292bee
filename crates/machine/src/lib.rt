// The plain machine of a two-bay dock (document 01; document 03 for the second kind): what it keeps, its registers, the acts
// that it does and its outputs. It knows neither bus nor event words: a whole write is one act.
#![tactic(auto)]

mod acts;
pub mod first_kind;
mod in_force;
mod outputs;
mod record;
mod registers;
pub mod second_kind;
mod setting;

use bay::Bay;
use kind::Kind;
use second::Second;
pub use setting::pulse_ticks;

// A machine. Any value of any field may come in; `fit` tells the ones that the rules can make.
#[derive(Clone, Copy, PartialEq, Eq)]
pub struct Machine {
    // A RESET has come.
    pub started: bool,
    // SMB_A1, SMB_A0, LOCK_DEF, LOCK_MODE, bit 3 to 0.
    pub straps: u8,
    // The kind in force, and the one that the next RESET brings into force.
    pub kind: Kind,
    pub named: Kind,
    pub shared: Shared,
    // What only the second kind has: unseen while the first is in force.
    pub second: Second,
    // Of the flashing lamps.
    pub phase: u8,
    pub bays: [Bay; 2],
}

// The registers that the bays share: DBCCR, which both kinds have, and the first kind's LETR and 42h. The order of the fields
// is one in which the compiler copies them one by one (docs/DECISIONS.md).
#[derive(Clone, Copy, PartialEq, Eq)]
pub struct Shared {
    // 42h: for how many ticks a device seats before its bay is Inserted.
    pub wait_time: u8,
    pub bay_count: u8,
    // DBCCR has been written since the RESET.
    pub dbccr_written: bool,
    // LETR.
    pub lock_time: u8,
    pub seclock: bool,
}

// What a machine does, each at once.
#[derive(Clone, Copy, PartialEq, Eq)]
pub enum Act {
    // A whole write.
    Write {
        register: u8,
        value: u8,
    },
    // A whole read, which answers what the register reads and alters nothing.
    Read(u8),
    // A pin sample. Levels: n1394, nUSB, nREMREQ, nSL of bay 0, then of bay 1; 0 is asserted.
    Pins(u8),
    Tick,
    // A RESET, which brings the named kind into force. In the first kind LETR is then 1, or 0 if the short pulse is asked for.
    Reset {
        straps: u8,
        levels: u8,
        short_pulse: bool,
    },
    // A kind is named, for the RESETs to come.
    Name(Kind),
}

// A machine after an act.
#[derive(Clone, Copy, PartialEq, Eq)]
pub struct Acted {
    pub machine: Machine,
    // The act is one that leaves the outputs as they were.
    pub keeps: bool,
}

impl Machine {
    // The phase runs from 0 to 199. A flashing lamp is lit in its first half, and in the second kind in the first half of
    // each hundred.
    pub const PHASES: u8 = 200;

    pub const LIT: u8 = 100;

    pub const SECOND_PERIOD: u8 = 100;

    pub const SECOND_LIT: u8 = 50;
}

impl Shared {
    // The count in DBCCR that closes bay 1.
    pub const ONE_BAY: u8 = 1;
    // The largest bay count and lock time that a state may hold.
    pub const MOST_BAYS: u8 = 3;

    pub const MOST_LOCK_TIME: u8 = 3;
}
