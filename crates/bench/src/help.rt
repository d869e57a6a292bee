// The verbs, as a person types them.
use crate::LONGEST;
use crate::say::{plural, say, tell};
use script::{Hand, Mistake, Verb};
use std::fmt;
use std::io::Stdout;

// How a verb is written, and what it asks for.
fn usage(verb: Verb) -> &'static str {
    match verb {
        Verb::Reset => {
            "reset C0BF      RESET, by its word: straps in bits 11-8, levels in 7-0, short pulse in bit 12"
        }
        Verb::Pins => {
            "pins BF         PINS: n1394, nUSB, nREMREQ, nSL of bay 0, then of bay 1; 0 is asserted"
        }
        Verb::Tick => {
            "tick 10         so many TICKs of 10 ms, 65535 at most; one if no count is given"
        }
        Verb::Timeout => "timeout         TIMEOUT",
        Verb::Start => "start           START",
        Verb::Stop => "stop            STOP",
        Verb::Byte => "byte 90         BYTE from the host",
        Verb::Take => "take ack        TAKE: the host clocks a byte in, with `ack` or `nack`",
        Verb::Word => "word 4090       an event word as it is",
        Verb::W => "w 14=04         a whole write: register and value",
        Verb::R => "r 10            a whole read of a register",
        Verb::At => "at 90           the address byte that w and r send from now on; 90 at first",
        Verb::Out => "out             tells the bays and the interrupt",
        Verb::Regs => "regs            tells every register",
        Verb::Help => "help            tells these lines",
        Verb::Save => "save            tells the dock's state as an image, in hex",
        Verb::Load => "load 0401..     goes on from an image, as `save` tells it",
        Verb::Kind => {
            "kind 2          names the second kind of controller, or with 1 the first, from the next RESET on"
        }
        Verb::Chassis => {
            "chassis 2       so many docks are on one bus from now on, 1 to 4, each without a RESET yet"
        }
        Verb::Dock => {
            "dock 1          chooses a dock, counted from 0: the one that RESET, PINS and the lines of one dock are for"
        }
    }
}

fn hand_usage(hand: Hand) -> &'static str {
    match hand {
        Hand::Insert => {
            "insert 0 usb    a cartridge goes into bay 0: nUSB goes low, or n1394 with `1394`"
        }
        Hand::Remove => {
            "remove 0        the cartridge of bay 0 is taken out: n1394 and nUSB go high"
        }
        Hand::Press => "press 0         the button of bay 0 goes down: nREMREQ goes low",
        Hand::Release => "release 0       the button of bay 0 comes up: nREMREQ goes high",
        Hand::Secure => "secure 0        the security lock of bay 0 is engaged: nSL goes low",
        Hand::Unsecure => "unsecure 0      the security lock of bay 0 is disengaged: nSL goes high",
    }
}

// In the order in which they are told: `reset`, the hands, what the bus carries, and what is about the bench.
const HANDS: [Hand; 6] = [
    Hand::Insert,
    Hand::Remove,
    Hand::Press,
    Hand::Release,
    Hand::Secure,
    Hand::Unsecure,
];

const BUS: [Verb; 10] = [
    Verb::Pins,
    Verb::Tick,
    Verb::Timeout,
    Verb::Start,
    Verb::Stop,
    Verb::Byte,
    Verb::Take,
    Verb::Word,
    Verb::W,
    Verb::R,
];

const BENCH: [Verb; 9] = [
    Verb::At,
    Verb::Out,
    Verb::Regs,
    Verb::Save,
    Verb::Load,
    Verb::Kind,
    Verb::Chassis,
    Verb::Dock,
    Verb::Help,
];

fn tell_usage(out: Stdout, usage: &str) {
    say(out, format_args!("  {usage}\n"));
}

pub(crate) fn tell_help(out: Stdout) {
    tell(
        out,
        "  One order to a line; what follows a # is a comment. Numbers are hex, but for the ticks, the kind and the docks.\n",
    );
    tell_usage(out, usage(Verb::Reset));
    for hand in HANDS {
        tell_usage(out, hand_usage(hand));
    }
    for verb in BUS {
        tell_usage(out, usage(verb));
    }
    // How `w` and `r` are written for more than one byte.
    tell_usage(
        out,
        "w 08=34,12      a write of several bytes, one after the other",
    );
    tell_usage(
        out,
        "r 08-0B         a read of several registers, from the first to the last",
    );
    for verb in BENCH {
        tell_usage(out, usage(verb));
    }
}

// Why a line is not understood.
#[derive(Clone, Copy)]
pub(crate) enum Fault {
    // It has more characters than a line may have.
    Longer,
    Mistake(Mistake),
}

impl fmt::Display for Fault {
    fn fmt<W: fmt::Write>(&self, f: &mut fmt::Formatter<W>) -> fmt::Result {
        match *self {
            Fault::Longer => write!(f, "it has more than {LONGEST} characters"),
            Fault::Mistake(Mistake::Unknown) => f.write_str("`help` tells what is"),
            Fault::Mistake(Mistake::Misused(verb)) => {
                write!(f, "it is written so:\n  {}", usage(verb))
            }
            Fault::Mistake(Mistake::Mishandled(hand)) => {
                write!(f, "it is written so:\n  {}", hand_usage(hand))
            }
        }
    }
}

pub(crate) fn tell_fault(out: Stdout, number: u64, fault: Fault) {
    say(
        out,
        format_args!("line {number}: not understood, nothing done; {fault}\n"),
    );
}

// How many lines were not understood, where any were.
pub(crate) fn tell_wrong(out: Stdout, count: u64) {
    if count == 0 {
        return;
    }
    let s = plural(count);
    let were = if count == 1 { "was" } else { "were" };
    say(out, format_args!("{count} line{s} {were} not understood\n"));
}
