// What can be seen of the bays, in words: state, device, power, lock and lamps, and the interrupt.
use crate::say::{part, plural, say, tell};
use bay::Bay;
use bits::has;
use dock::Controller;
use kind::Kind;
use machine::{Shared, first_kind, second_kind};
use std::fmt;
use std::io::Stdout;

// What can be seen of a bay.
#[derive(Clone, Copy)]
pub(crate) struct SeenBay {
    bstr: u8,
    // For how many ticks more its device seats.
    wait: u16,
    // Its power, lock pin, green and yellow, bit 3 to 0.
    pins: u16,
}

// What can be seen of a dock.
#[derive(Clone, Copy)]
pub(crate) struct Seen {
    // A RESET has come.
    started: bool,
    // The second kind is in force.
    second: bool,
    // Bay 1 is closed.
    one_bay: bool,
    bay_0: SeenBay,
    bay_1: SeenBay,
    interrupt: bool,
}

// A register's reading, which is a byte.
pub(crate) fn read(controller: Controller, register: u8) -> u8 {
    (controller.reading(register).unwrap_or(0) % 256) as u8
}

// What is to be seen of a controller now, with these addresses of DBCCR and of each bay's BSTR.
fn look_at(controller: Controller, dbccr: u8, bstr_0: u8, bstr_1: u8) -> Seen {
    let machine = controller.machine;
    let outputs = controller.outputs().unwrap_or(0);
    Seen {
        started: machine.started,
        second: machine.kind.is_second(),
        one_bay: read(controller, dbccr) % 4 == Shared::ONE_BAY,
        bay_0: SeenBay {
            bstr: read(controller, bstr_0),
            wait: machine.bays[0].wait,
            pins: outputs / 32,
        },
        bay_1: SeenBay {
            bstr: read(controller, bstr_1),
            wait: machine.bays[1].wait,
            pins: outputs / 2 % 16,
        },
        interrupt: outputs % 2 == 1,
    }
}

// What is to be seen of it, whichever kind is in force.
pub(crate) fn look(controller: Controller) -> Seen {
    match controller.machine.kind {
        Kind::First => look_at(
            controller,
            first_kind::DBCCR,
            first_kind::BSTR_0,
            first_kind::BSTR_1,
        ),
        Kind::Second => look_at(
            controller,
            second_kind::DBCCR,
            second_kind::BSTR_0,
            second_kind::BSTR_1,
        ),
    }
}

// A bay state by its name.
#[derive(Clone, Copy)]
pub(crate) struct State(pub(crate) u8);

impl fmt::Display for State {
    fn fmt<W: fmt::Write>(&self, f: &mut fmt::Formatter<W>) -> fmt::Result {
        f.write_str(match self.0 {
            Bay::EMPTY => "Empty",
            Bay::INSERTED => "Inserted",
            Bay::ENABLED => "Enabled",
            Bay::REMOVAL_REQUESTED => "Removal Requested",
            Bay::REMOVAL_ALLOWED => "Removal Allowed",
            _ => "no state",
        })
    }
}

// What a BSTR says.
#[derive(Clone, Copy)]
pub(crate) struct Status(pub(crate) u8);

impl fmt::Display for Status {
    fn fmt<W: fmt::Write>(&self, f: &mut fmt::Formatter<W>) -> fmt::Result {
        let bstr = self.0;
        let state = State(bstr / 16 % 8);
        write!(f, "{state}")?;
        f.write_str(part(has(bstr, 2), ", 1394 device"))?;
        f.write_str(part(has(bstr, 1), ", USB device"))?;
        f.write_str(part(bstr % 4 == 0, ", no device"))?;
        f.write_str(part(has(bstr, 8), ", REMREQ_STS"))?;
        f.write_str(part(has(bstr, 4), ", DEVSTSCHG"))?;
        f.write_str(part(has(bstr, 128), ", nSL low"))
    }
}

fn high_or_low(pin: bool) -> &'static str {
    if pin { "high" } else { "low" }
}

fn on_or_off(pin: bool) -> &'static str {
    if pin { "on" } else { "off" }
}

// Its BSTR and its wait, then its outputs.
impl fmt::Display for SeenBay {
    fn fmt<W: fmt::Write>(&self, f: &mut fmt::Formatter<W>) -> fmt::Result {
        let status = Status(self.bstr);
        write!(f, "{status}")?;
        let wait = self.wait;
        if wait != 0 {
            let s = plural(u64::from(wait));
            write!(f, ", seats for {wait} tick{s} more")?;
        }
        let power = on_or_off(self.pins / 8 % 2 == 1);
        let lock = high_or_low(self.pins / 4 % 2 == 1);
        let green = on_or_off(self.pins / 2 % 2 == 1);
        let yellow = on_or_off(self.pins % 2 == 1);
        write!(
            f,
            "; power {power}, lock pin {lock}, green {green}, yellow {yellow}"
        )
    }
}

impl SeenBay {
    // A wait begins or is over; that it falls tick by tick is no news.
    fn differs(self, before: SeenBay) -> bool {
        self.bstr != before.bstr
            || self.pins != before.pins
            || (self.wait == 0) != (before.wait == 0)
    }
}

pub(crate) fn tell_unstarted(out: Stdout) {
    tell(out, "  no RESET has come yet\n");
}

impl Seen {
    fn tell_bay_0(self, out: Stdout) {
        let bay = self.bay_0;
        say(out, format_args!("  bay 0: {bay}\n"));
    }

    fn tell_bay_1(self, out: Stdout) {
        let bay = self.bay_1;
        if self.one_bay {
            tell(out, "  bay 1: closed\n");
        } else {
            say(out, format_args!("  bay 1: {bay}\n"));
        }
    }

    fn tell_interrupt(self, out: Stdout) {
        let not = part(!self.interrupt, "not ");
        say(out, format_args!("  interrupt: {not}asserted\n"));
    }

    pub(crate) fn tell(self, out: Stdout) {
        if !self.started {
            return tell_unstarted(out);
        }
        tell(out, part(self.second, "  the second kind is in force\n"));
        self.tell_bay_0(out);
        self.tell_bay_1(out);
        self.tell_interrupt(out);
    }

    fn bay_1_differs(self, before: Seen) -> bool {
        self.one_bay != before.one_bay || self.bay_1.differs(before.bay_1)
    }

    pub(crate) fn differs(self, before: Seen) -> bool {
        self.bay_0.differs(before.bay_0)
            || self.bay_1_differs(before)
            || self.interrupt != before.interrupt
    }

    pub(crate) fn tell_changes(self, out: Stdout, before: Seen) {
        if self.bay_0.differs(before.bay_0) {
            self.tell_bay_0(out);
        }
        if self.bay_1_differs(before) {
            self.tell_bay_1(out);
        }
        if self.interrupt != before.interrupt {
            self.tell_interrupt(out);
        }
    }
}
