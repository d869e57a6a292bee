// The bench: a dock, or several on one bus, to play on. Reads a line at a time, does what it asks and tells what happened; docs/BENCH.md
// describes the lines.
#![tactic(auto)]

mod bays;
mod docks;
mod events;
mod every;
mod first_kind;
mod help;
mod images;
mod input;
mod levels;
mod orders;
mod registers;
mod say;
mod second_kind;
mod sending;
mod transfers;

ghost use Rattle.std.specs.Prelude.{◌≡◌, false};
ghost use Rattle.bench.specs.Orders.{heeded, followed};

use arrayvec::ArrayVec;
use chassis::{Answer, Chassis, MOST};
use help::{Fault, tell_fault, tell_wrong};
use input::read_line;
use say::{part, said, say_typed, tell};
use script::Mistake;
use std::io::{IsTerminal, Stdin, Stdout};

// The docks on the bus, and what the lines to come depend on besides.
#[derive(Clone, Copy)]
struct Bench {
    chassis: Chassis,
    // The chosen one, which may be absent.
    dock: u8,
    // The byte that a whole command begins with.
    address: u8,
    // Of each dock, as the last PINS or RESET for it that was not refused gave them.
    levels: [u8; MOST],
}

// After a word: the bench, and the answer.
#[derive(Clone, Copy)]
struct Sent {
    bench: Bench,
    answer: Answer,
}

// What of a line has a place.
type Page = ArrayVec<u8, LONGEST>;

// How a line was read.
#[derive(Clone, Copy)]
struct Typed {
    // It has more characters than have a place.
    longer: bool,
    // The input ended with it.
    ended: bool,
}

// After a line: the bench, and whether the line was understood.
#[derive(Clone, Copy)]
struct Followed {
    bench: Bench,
    understood: bool,
}

// The longest line.
const LONGEST: usize = 255;

// What a line does, or why it isn't understood.
#[tactic(auto, unfolding(crate::specs::Orders::heeded))]
fn heed(out: Stdout, bench: Bench, line: &[u8]) -> Result<Bench, Mistake>
    ensures { result ≡ heeded line.now bench }
{
    match script::meaning(line)? {
        Some(order) => Ok(bench.obey(out, order, script::argument(line))),
        None => Ok(bench),
    }
}

// Tells why a line isn't understood; it changes nothing.
fn not_understood(out: Stdout, bench: Bench, number: u64, fault: Fault) -> Followed
    ensures { result ≡ record { bench = bench; understood = false } }
{
    tell_fault(out, number, fault);
    Followed {
        bench,
        understood: false,
    }
}

// The bench after a line, and whether it was understood.
#[tactic(auto, unfolding(crate::specs::Orders::followed))]
fn follow(out: Stdout, bench: Bench, number: u64, line: &[u8]) -> Followed
    ensures { result ≡ followed line.now bench }
{
    match heed(out, bench, line) {
        Ok(next) => Followed {
            bench: next,
            understood: true,
        },
        Err(mistake) => not_understood(out, bench, number, Fault::Mistake(mistake)),
    }
}

// A person sees a sign that a line is awaited; answers whether anybody reads it.
fn ask(out: Stdout, typing: bool) -> bool {
    !typing || said(out, "> ")
}

// Of a script the line itself is told; answers whether anybody reads it.
fn echo(out: Stdout, typing: bool, line: &[u8]) -> bool {
    if typing {
        return true;
    }
    tell(out, part(!line.is_empty(), "> "));
    say_typed(out, line);
    said(out, "\n")
}

// The next line; none at the input's end, or where nobody reads any more what is told.
fn next_line(input: Stdin, out: Stdout, typing: bool, line: &mut Page) -> Option<Typed> {
    if !ask(out, typing) {
        return None;
    }
    let typed = read_line(input, line);
    if typed.ended && line.is_empty() {
        tell(out, part(typing, "\n"));
        return None;
    }
    echo(out, typing, line.as_slice()).then_some(typed)
}

// A proved loop ends, and nothing says that an input does: the lines are counted up to a number that no run reaches.
fn main(rt: HostRuntime) {
    let input = rt.stdin();
    let out = rt.stdout();
    let typing = input.is_terminal();
    let mut bench = Bench::fresh();
    let mut line = Page::new();
    let mut wrong: u64 = 0;
    for number in 1..u64::MAX {
        let Some(typed) = next_line(input, out, typing, &mut line) else {
            break;
        };
        let followed = if typed.longer {
            not_understood(out, bench, number, Fault::Longer)
        } else {
            follow(out, bench, number, line.as_slice())
        };
        bench = followed.bench;
        if !followed.understood {
            wrong += 1;
        }
        if typed.ended {
            break;
        }
    }
    tell_wrong(out, wrong);
}
