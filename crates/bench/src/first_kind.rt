// The first kind's registers (document 01, "Registers"; document 02, request 6), by their names.
use crate::bays::Status;
use crate::registers::{Bcer, Dbccr, Pulse};
use crate::say::plural;
use machine::{first_kind, pulse_ticks};
use std::fmt;

// Every register that it has, in the order in which they are told.
pub(crate) const REGISTERS: [u8; 10] = [
    first_kind::VENDOR_LOW,
    first_kind::VENDOR_HIGH,
    first_kind::REVISION,
    first_kind::DBCCR,
    first_kind::BSTR_0,
    first_kind::BCER_0,
    first_kind::BSTR_1,
    first_kind::BCER_1,
    first_kind::LETR,
    first_kind::WAIT,
];

pub(crate) fn name(register: u8) -> &'static str {
    match register {
        first_kind::VENDOR_LOW => " vendor, low byte,",
        first_kind::VENDOR_HIGH => " vendor, high byte,",
        first_kind::REVISION => " revision",
        first_kind::DBCCR => " DBCCR",
        first_kind::BSTR_0 => " BSTR of bay 0",
        first_kind::BCER_0 => " BCER of bay 0",
        first_kind::BSTR_1 => " BSTR of bay 1",
        first_kind::BCER_1 => " BCER of bay 1",
        first_kind::LETR => " LETR",
        first_kind::WAIT => " insertion wait",
        _ => "",
    }
}

// How long a device seats before its bay is Inserted.
#[derive(Clone, Copy)]
struct Wait(u8);

impl fmt::Display for Wait {
    fn fmt<W: fmt::Write>(&self, f: &mut fmt::Formatter<W>) -> fmt::Result {
        let ticks = self.0;
        if ticks == 0 {
            return f.write_str("Inserted at once");
        }
        let s = plural(u64::from(ticks));
        write!(f, "Inserted after {ticks} tick{s}")
    }
}

// What a register's value says.
pub(crate) fn write_meaning<W: fmt::Write>(
    f: &mut fmt::Formatter<W>,
    register: u8,
    value: u8,
) -> fmt::Result {
    match register {
        first_kind::DBCCR => write!(f, ": {}", Dbccr(value)),
        first_kind::BSTR_0 | first_kind::BSTR_1 => write!(f, ": {}", Status(value)),
        first_kind::BCER_0 | first_kind::BCER_1 => write!(f, ": {}", Bcer(value)),
        first_kind::LETR => write!(f, ": {}", Pulse(pulse_ticks(value))),
        first_kind::WAIT => write!(f, ": {}", Wait(value)),
        _ => Ok(()),
    }
}
