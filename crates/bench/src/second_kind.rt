// The second kind's registers (document 03, "Registers"), by their names.
use crate::bays::Status;
use crate::registers::{Bcer, Dbccr, Pulse};
use machine::second_kind;
use second::Second;
use std::fmt;

// Every register that it has, in the order in which they are told.
pub(crate) const REGISTERS: [u8; 15] = [
    second_kind::VENDOR_LOW,
    second_kind::VENDOR_HIGH,
    second_kind::REVISION,
    second_kind::SUBSYSTEM_0,
    second_kind::SUBSYSTEM_1,
    second_kind::SUBSYSTEM_2,
    second_kind::SUBSYSTEM_3,
    second_kind::DBCCR,
    second_kind::BCER_0,
    second_kind::BSTR_0,
    second_kind::FORM_FACTOR_0,
    second_kind::BCER_1,
    second_kind::BSTR_1,
    second_kind::FORM_FACTOR_1,
    second_kind::SFR,
];

pub(crate) fn name(register: u8) -> &'static str {
    match register {
        second_kind::VENDOR_LOW => " vendor, low byte,",
        second_kind::VENDOR_HIGH => " vendor, high byte,",
        second_kind::REVISION => " revision",
        second_kind::SUBSYSTEM_0 => " subsystem vendor, low byte,",
        second_kind::SUBSYSTEM_1 => " subsystem vendor, high byte,",
        second_kind::SUBSYSTEM_2 => " subsystem, low byte,",
        second_kind::SUBSYSTEM_3 => " subsystem, high byte,",
        second_kind::DBCCR => " DBCCR",
        second_kind::BCER_0 => " BCER of bay 0",
        second_kind::BSTR_0 => " BSTR of bay 0",
        second_kind::FORM_FACTOR_0 => " form factor of bay 0",
        second_kind::BCER_1 => " BCER of bay 1",
        second_kind::BSTR_1 => " BSTR of bay 1",
        second_kind::FORM_FACTOR_1 => " form factor of bay 1",
        second_kind::SFR => " SFR",
        _ => "",
    }
}

// How long a device seats before it shows.
#[derive(Clone, Copy)]
struct Wait(u16);

impl fmt::Display for Wait {
    fn fmt<W: fmt::Write>(&self, f: &mut fmt::Formatter<W>) -> fmt::Result {
        match self.0 {
            0 => f.write_str("a device shows at once"),
            ticks => write!(f, "a device shows after {ticks} ticks"),
        }
    }
}

// ITO, then SOL and SPD.
#[derive(Clone, Copy)]
struct Sfr(u8);

impl fmt::Display for Sfr {
    fn fmt<W: fmt::Write>(&self, f: &mut fmt::Formatter<W>) -> fmt::Result {
        let written = Second::fresh().with_sfr(self.0);
        let wait = Wait(written.wait_ticks());
        if written.pulsed() {
            let pulse = Pulse(written.pulse_ticks());
            write!(f, "{wait}, {pulse}")
        } else {
            write!(f, "{wait}, no unlock pulse")
        }
    }
}

// Document 000 names three of the eight.
fn form_factor(factor: u8) -> &'static str {
    match factor {
        0 => "DB32",
        1 => "DB20",
        2 => "DB13",
        _ => "reserved",
    }
}

// What a register's value says.
pub(crate) fn write_meaning<W: fmt::Write>(
    f: &mut fmt::Formatter<W>,
    register: u8,
    value: u8,
) -> fmt::Result {
    match register {
        second_kind::DBCCR => write!(f, ": {}", Dbccr(value)),
        second_kind::BCER_0 | second_kind::BCER_1 => write!(f, ": {}", Bcer(value)),
        second_kind::BSTR_0 | second_kind::BSTR_1 => write!(f, ": {}", Status(value)),
        second_kind::FORM_FACTOR_0 | second_kind::FORM_FACTOR_1 => {
            write!(f, ": {}", form_factor(value))
        }
        second_kind::SFR => write!(f, ": {}", Sfr(value)),
        _ => Ok(()),
    }
}
