// The registers that only the second kind has (document 03, "Registers" and "State"): the subsystem words, the form
// factors and SFR. Each of their bytes takes its first write and no other. It knows nothing of addresses, bays or the bus.
#![tactic(auto)]

mod once;
mod record;
mod sfr;

#[derive(Clone, Copy, PartialEq, Eq)]
pub struct Second {
    // Subsystem vendor and subsystem, low byte first: 08h to 0Bh.
    pub subsystem: [u8; Second::SUBSYSTEM],
    pub subsystem_written: [bool; Second::SUBSYSTEM],
    // BAY_FF of bay 0 and of bay 1.
    pub form_factors: [u8; Second::BAYS],
    pub form_factors_written: [bool; Second::BAYS],
    pub sfr: u8,
    pub sfr_written: bool,
}

impl Second {
    pub const SUBSYSTEM: usize = 4;

    pub const BAYS: usize = 2;
    // The largest form factor, of three bits.
    pub const MOST_FORM_FACTOR: u8 = 7;
    // 50 ms and 800 ms in ticks: what SOL counts in, by SPD, and ITO always in the latter.
    pub const SHORT: u16 = 5;

    pub const LONG: u16 = 80;
}
