// What is told of the docks on the bus: of one alone its lines, of several those of each under its number.
use crate::bays::{Seen, look};
use crate::docks::{is_on, record_at};
use crate::say::say;
use chassis::{Chassis, MOST};
use dock::Controller;
use std::io::Stdout;

// As many docks as one bus has.
const DOCKS: u8 = MOST as u8;

pub(crate) fn are_several(chassis: Chassis) -> bool {
    1 < chassis.count
}

fn seen(chassis: Chassis, dock: u8) -> Seen {
    look(record_at(chassis, dock))
}

// The line that the lines of one of several docks stand under.
fn tell_number(out: Stdout, chassis: Chassis, dock: u8) {
    if are_several(chassis) {
        say(out, format_args!("  dock {dock}:\n"));
    }
}

// Everything of one dock.
pub(crate) fn tell_dock(out: Stdout, chassis: Chassis, dock: u8) {
    if is_on(chassis, dock) {
        tell_number(out, chassis, dock);
        seen(chassis, dock).tell(out);
    }
}

pub(crate) fn tell_every(out: Stdout, chassis: Chassis) {
    for dock in 0..DOCKS {
        tell_dock(out, chassis, dock);
    }
}

fn changed(before: Chassis, after: Chassis, dock: u8) -> bool {
    is_on(after, dock) && seen(after, dock).differs(seen(before, dock))
}

pub(crate) fn any_changed(before: Chassis, after: Chassis) -> bool {
    (0..DOCKS).any(|dock| changed(before, after, dock))
}

// What changed of each.
pub(crate) fn tell_all_changed(out: Stdout, before: Chassis, after: Chassis) {
    for dock in 0..DOCKS {
        if changed(before, after, dock) {
            tell_number(out, after, dock);
            seen(after, dock).tell_changes(out, seen(before, dock));
        }
    }
}

// The dock answers at the address byte of a command.
fn answers_at(chassis: Chassis, dock: u8, address: u8) -> bool {
    let standing = record_at(chassis, dock).standing();
    is_on(chassis, dock) && standing.started && standing.address / 2 == address / 2
}

// The dock that answers there, so that what was read is told by its kind's names; the first where none does.
pub(crate) fn answering(chassis: Chassis, address: u8) -> Controller {
    let dock = (1..DOCKS).find(|dock| answers_at(chassis, *dock, address));
    record_at(chassis, dock.unwrap_or(0))
}
