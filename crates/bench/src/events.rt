// Events and what the docks answer, in words.
use crate::Bench;
use crate::every::are_several;
use crate::say::{part, plural, say, tell};
use bus::Reply;
use chassis::{Answer, Refusal};
use dock::NamingRefusal;
use event::Event;
use kind::Kind;
use std::fmt;
use std::io::Stdout;

// The event of a word, where it has one.
fn event_of(word: u16) -> Option<Event> {
    event::unpack(word).ok()
}

// An event by its name and what it holds.
#[derive(Clone, Copy)]
struct Named(Event);

impl fmt::Display for Named {
    fn fmt<W: fmt::Write>(&self, f: &mut fmt::Formatter<W>) -> fmt::Result {
        match self.0 {
            Event::Start => f.write_str("START"),
            Event::Stop => f.write_str("STOP"),
            Event::Byte(b) => write!(f, "BYTE {b:02X}"),
            Event::Take(true) => f.write_str("TAKE with ACK"),
            Event::Take(false) => f.write_str("TAKE with NACK"),
            Event::Pins(levels) => write!(f, "PINS {levels:02X}"),
            Event::Tick => f.write_str("TICK"),
            Event::Reset {
                straps,
                levels,
                short_pulse,
            } => {
                let short = part(short_pulse, ", and the short pulse");
                write!(
                    f,
                    "RESET with straps {straps:02X} and levels {levels:02X}{short}"
                )
            }
            Event::Timeout => f.write_str("TIMEOUT"),
        }
    }
}

// A word by its event.
pub(crate) fn tell_word(out: Stdout, word: u16) {
    match event_of(word) {
        Some(event) => say(out, format_args!("  {}", Named(event))),
        None => tell(out, "  no event"),
    }
}

pub(crate) fn is_reset(word: u16) -> bool {
    event_of(word).is_some_and(|event| event.is_reset())
}

fn is_pins(word: u16) -> bool {
    matches!(event_of(word), Some(Event::Pins(_)))
}

pub(crate) fn tell_address(out: Stdout, address: u8) {
    say(
        out,
        format_args!("  w and r begin with byte {address:02X}\n"),
    );
}

// Which dock is chosen, and whether it is there.
pub(crate) fn tell_choice(out: Stdout, dock: u8, there: bool) {
    let absent = part(!there, ", and isn't there");
    say(out, format_args!("  dock {dock} is chosen{absent}\n"));
}

pub(crate) fn tell_absent(out: Stdout, dock: u8) {
    say(out, format_args!("  there is no dock {dock}\n"));
}

pub(crate) fn tell_docks(out: Stdout, count: u8) {
    let s = plural(u64::from(count));
    let are = if count == 1 { "is" } else { "are" };
    say(
        out,
        format_args!("  {count} dock{s} {are} on the bus, without a RESET yet; dock 0 is chosen\n"),
    );
}

// The reply to an event, or why it was refused.
pub(crate) fn tell_answer(out: Stdout, answer: Answer, bench: Bench, word: u16) {
    match answer {
        Ok(reply) => tell_reply(out, reply),
        Err(refusal) => tell_refusal(out, refusal, bench, word),
    }
}

fn tell_refusal(out: Stdout, refusal: Refusal, bench: Bench, word: u16) {
    let dock = bench.dock;
    let several = are_several(bench.chassis);
    match refusal {
        Refusal::WrongLength => tell(out, ": refused with 9, a bus has one to four docks"),
        Refusal::Unfit if several => tell(
            out,
            ": refused with 1, two docks have one address, or both a read open, or a state isn't fit",
        ),
        Refusal::Unfit => tell(out, ": refused with 1, the state isn't fit"),
        Refusal::StrayBit => tell(out, ": refused with 2, a bit that must be 0 is set"),
        Refusal::Absent => say(
            out,
            format_args!(": refused with 10, there is no dock {dock}"),
        ),
        Refusal::NotStarted => {
            tell(out, ": refused with 3, no RESET yet");
            if several {
                tell_unheard(out, dock, word);
            }
        }
        Refusal::AddressTaken => tell(
            out,
            ": refused with 11, a started neighbour has that address",
        ),
    }
}

// A PINS is for one dock, and the rest but a RESET are for all.
fn tell_unheard(out: Stdout, dock: u8, word: u16) {
    if is_pins(word) {
        say(out, format_args!(" for dock {dock}"));
    } else {
        tell(out, " for any dock");
    }
}

fn tell_reply(out: Stdout, reply: Reply) {
    match reply {
        Reply::Nothing => {}
        Reply::Ack => tell(out, ": ACK"),
        Reply::NoAck => tell(out, ": no ACK"),
        Reply::Driven(value) => say(out, format_args!(": {value:02X} driven")),
        Reply::NotDriven => tell(out, ": not driven"),
    }
}

// What the call that names a kind by its number came to.
pub(crate) fn tell_naming(out: Stdout, number: u8, naming: Result<(), NamingRefusal>) {
    match naming {
        Ok(()) => {
            let kind = if number == Kind::First.number() {
                "first"
            } else {
                "second"
            };
            say(
                out,
                format_args!("  the {kind} kind is named: it holds from the next RESET on\n"),
            );
        }
        Err(NamingRefusal::Unfit) => tell(out, "  refused with 1, the state isn't fit\n"),
        Err(NamingRefusal::NoSuchKind) => say(
            out,
            format_args!("  refused with 14, {number} is neither kind\n"),
        ),
    }
}
