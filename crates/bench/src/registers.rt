// The registers by what they say, and what was read of them. Which kind has which is in first_kind.rt and second_kind.rt.
use crate::bays::{State, read, tell_unstarted};
use crate::say::{part, say};
use crate::{first_kind, second_kind};
use bits::has;
use dock::Controller;
use kind::Kind;
use machine::Shared;
use std::fmt;
use std::io::Stdout;

// What a DBCCR says.
#[derive(Clone, Copy)]
pub(crate) struct Dbccr(pub(crate) u8);

impl fmt::Display for Dbccr {
    fn fmt<W: fmt::Write>(&self, f: &mut fmt::Formatter<W>) -> fmt::Result {
        let count = self.0 % 4;
        let locked = part(has(self.0, 16), "SECLOCK, ");
        let closed = part(count == Shared::ONE_BAY, ", bay 1 closed");
        write!(f, "{locked}bay count {count}{closed}")
    }
}

// The stored request; 0 is none.
#[derive(Clone, Copy)]
struct Request(u8);

impl fmt::Display for Request {
    fn fmt<W: fmt::Write>(&self, f: &mut fmt::Formatter<W>) -> fmt::Result {
        match self.0 {
            0 => f.write_str("no request"),
            request => write!(f, "request {}", State(request)),
        }
    }
}

// What a BCER says.
#[derive(Clone, Copy)]
pub(crate) struct Bcer(pub(crate) u8);

impl fmt::Display for Bcer {
    fn fmt<W: fmt::Write>(&self, f: &mut fmt::Formatter<W>) -> fmt::Result {
        let bcer = self.0;
        f.write_str(part(has(bcer, 128), "LOCK_CTL, "))?;
        write!(f, "{}", Request(bcer / 16 % 8))?;
        f.write_str(part(has(bcer, 8), ", REMREQ_EN"))?;
        f.write_str(part(has(bcer, 4), ", DEVSTSCHG_EN"))?;
        f.write_str(part(has(bcer, 2), ", REMEVTWAK_EN"))?;
        f.write_str(part(has(bcer, 1), ", PWR_CTL"))
    }
}

// How long the pulse is that unlocks.
#[derive(Clone, Copy)]
pub(crate) struct Pulse(pub(crate) u16);

impl fmt::Display for Pulse {
    fn fmt<W: fmt::Write>(&self, f: &mut fmt::Formatter<W>) -> fmt::Result {
        let ticks = self.0;
        write!(f, "unlock pulse of {ticks} ticks")
    }
}

// A register's line: its address, its name, its value and what that says.
#[derive(Clone, Copy)]
struct Reading {
    kind: Kind,
    register: u8,
    value: u8,
}

impl fmt::Display for Reading {
    fn fmt<W: fmt::Write>(&self, f: &mut fmt::Formatter<W>) -> fmt::Result {
        let register = self.register;
        let value = self.value;
        let name = match self.kind {
            Kind::First => first_kind::name(register),
            Kind::Second => second_kind::name(register),
        };
        write!(f, "  {register:02X}h{name} reads {value:02X}h")?;
        match self.kind {
            Kind::First => first_kind::write_meaning(f, register, value),
            Kind::Second => second_kind::write_meaning(f, register, value),
        }
    }
}

fn tell_register(out: Stdout, kind: Kind, register: u8, value: u8) {
    let reading = Reading {
        kind,
        register,
        value,
    };
    say(out, format_args!("{reading}\n"));
}

// What the bytes say that a read gave, from a register on; FFh is followed by 00h.
pub(crate) fn tell_taken(out: Stdout, kind: Kind, register: u8, given: &[u8]) {
    for (i, value) in given.iter().enumerate() {
        let at = register.wrapping_add((i % 256) as u8);
        tell_register(out, kind, at, *value);
    }
}

// Every register that a dock has, as it reads now.
pub(crate) fn tell_registers(out: Stdout, controller: Controller) {
    let machine = controller.machine;
    if !machine.started {
        return tell_unstarted(out);
    }
    let registers = match machine.kind {
        Kind::First => first_kind::REGISTERS.as_slice(),
        Kind::Second => second_kind::REGISTERS.as_slice(),
    };
    for register in registers {
        tell_register(out, machine.kind, *register, read(controller, *register));
    }
}
