// The dock's state as an image in hex: told, and taken again, or why it is not taken.
ghost use Rattle.std.specs.Prelude.{◌≡◌};
ghost use Rattle.paste.specs.Findings.{pasted_of};
ghost use Rattle.bench.specs.Orders.{is_going_on, loaded_by};

use crate::Bench;
use crate::bays::look;
use crate::docks::{is_there, with_place, with_record};
use crate::events::tell_absent;
use crate::levels::levels_in;
use crate::say::{plural, say, say_typed, tell};
use bay::Bay;
use dock::Controller;
use image::Flaw;
use paste::{Finding, Ranged, Refused};
use std::fmt;
use std::io::Stdout;

const FORM_FACTOR_0: usize = image::FORM_FACTORS;

const FORM_FACTOR_1: usize = image::FORM_FACTORS + 1;

// The debounce counts among a bay's numbers.
const N1394: usize = image::COUNTS + Bay::N1394;

const NUSB: usize = image::COUNTS + Bay::NUSB;

const NREMREQ: usize = image::COUNTS + Bay::NREMREQ;

pub(crate) fn tell_image(out: Stdout, controller: Controller) {
    tell(out, "  ");
    say_typed(out, &paste::write(controller));
    tell(out, "\n");
}

// The chosen dock goes on from the image, or stays as it was.
#[tactic(auto, unfolding(crate::specs::Orders::loaded_by))]
pub(crate) fn load(out: Stdout, bench: Bench, text: &[u8]) -> Bench
    ensures { result ≡ loaded_by (pasted_of text.now) bench }
{
    if !is_there(bench) {
        tell_absent(out, bench.dock);
        return bench;
    }
    match paste::read(text) {
        Ok(pasted) => {
            tell(out, "  loaded\n");
            look(pasted.controller).tell(out);
            bench.going_on(pasted.controller)
        }
        Err(refused) => {
            tell_refused(out, refused);
            bench
        }
    }
}

impl Bench {
    // The chosen dock is this one from now on, with the levels that it has stored.
    #[tactic(auto, unfolding(crate::specs::Docks::with_levels))]
    fn going_on(self, controller: Controller) -> Bench
        ensures { result ≡ is_going_on controller self }
    {
        Bench {
            chassis: with_record(self.chassis, self.dock, controller),
            levels: with_place(self.levels, self.dock, levels_in(controller)),
            ..self
        }
    }
}

fn tell_refused(out: Stdout, refused: Refused) {
    let bytes = refused.bytes;
    tell(out, "  not loaded, the dock is as it was: ");
    match refused.finding {
        Finding::NoDigit(count) => {
            let s = plural(count as u64);
            say(
                out,
                format_args!("{count} hex digit{s}, and then a character that is none"),
            );
        }
        Finding::OddDigit(count) => {
            let s = plural(count as u64);
            say(
                out,
                format_args!("{count} hex digit{s}, and a byte has two"),
            );
        }
        Finding::OtherLength(count) => {
            let s = plural(count as u64);
            let wanted = image::BYTES;
            say(
                out,
                format_args!("{count} byte{s}, and an image has {wanted}"),
            );
        }
        Finding::NoImage(flaw) => tell_flaw(out, flaw, bytes),
        Finding::Unfit(number) => tell_unfit(out, number),
    }
    tell(out, "\n");
}

// What stands at a place of an image.
#[derive(Clone, Copy)]
struct Value(Option<u8>);

impl fmt::Display for Value {
    fn fmt<W: fmt::Write>(&self, f: &mut fmt::Formatter<W>) -> fmt::Result {
        match self.0 {
            Some(value) => write!(f, " is {value}"),
            None => Ok(()),
        }
    }
}

// Why bytes are no image: which of them, what it is and what it may be.
fn tell_flaw(out: Stdout, flaw: Flaw, bytes: [u8; image::BYTES]) {
    let value = |at: usize| Value(bytes.get(at).copied());
    let progress = image::PROGRESS;
    match flaw {
        Flaw::WrongLength => {}
        Flaw::UnknownVersion => {
            let version = image::VERSION;
            let layout = image::LAYOUT;
            say(
                out,
                format_args!(
                    "byte {version}, the layout's version,{}: this bench knows {layout}",
                    value(version)
                ),
            );
        }
        Flaw::NotAFlag(at) => say(
            out,
            format_args!("byte {at}, a flag,{}: it is 0 or 1", value(at)),
        ),
        Flaw::UnknownProgress => say(
            out,
            format_args!(
                "byte {progress}, the command in progress,{}: it is 0 to 8",
                value(progress)
            ),
        ),
        Flaw::NotUsed(at) => say(
            out,
            format_args!(
                "byte {at}{}: it is 0 while byte {progress}, the command in progress,{}",
                value(at),
                value(progress)
            ),
        ),
    }
}

// A number out of its range.
fn tell_unfit(out: Stdout, number: Ranged) {
    let Ranged { at, value, last } = number;
    let name = Name(at);
    say(
        out,
        format_args!("byte {at}{name} is {value}: it is 0 to {last}"),
    );
}

// What the number is that begins at a place of an image.
#[derive(Clone, Copy)]
struct Name(usize);

impl fmt::Display for Name {
    fn fmt<W: fmt::Write>(&self, f: &mut fmt::Formatter<W>) -> fmt::Result {
        match self.0 {
            image::STRAPS => f.write_str(", the straps,"),
            image::BAY_COUNT => f.write_str(", the bay count,"),
            image::LOCK_TIME => f.write_str(", the lock time,"),
            image::PHASE => f.write_str(", the phase,"),
            FORM_FACTOR_0 => f.write_str(", the form factor of bay 0,"),
            FORM_FACTOR_1 => f.write_str(", the form factor of bay 1,"),
            at if image::NUMBERS_1 <= at => {
                write!(f, "{} of bay 1,", number_name(at - image::NUMBERS_1))
            }
            at if image::NUMBERS_0 <= at => {
                write!(f, "{} of bay 0,", number_name(at - image::NUMBERS_0))
            }
            _ => Ok(()),
        }
    }
}

// A number of a bay, by its place among them.
fn number_name(number: usize) -> &'static str {
    match number {
        N1394 => ", the count of n1394",
        NUSB => ", the count of nUSB",
        NREMREQ => ", the count of nREMREQ",
        image::STATE => ", the state",
        image::REQUEST => ", the stored request",
        image::PULSE => ", the pulse",
        image::WAIT => ", the wait",
        _ => "",
    }
}
