// The capture program (document 02, request 7): reads samples of the two bus lines, as a logic analyser writes them, and
// prints what they come to in a dock: the trace program's lines, each behind the number of its sample, or the bare words.
// A piece is what one read gives, and its text is written at once. What a reader gives and a writer takes is proved of
// any two whose bytes are known (`captured`), and what an argument means (`arguments`); that the calls of the system read
// and write standard input and output is assumed.
#![tactic(auto)]

mod arguments;
mod number;
mod pieces;
mod rows;

ghost use Rattle.std.specs.Prelude.{◌≡◌, Err, OnOk};
ghost use Rattle.std.specs.Io.KnownBytes.{IsAtEnd};
ghost use Rattle.lines.specs.declared.reads.Stopped.TheVariants.{Unread};
ghost use Rattle.lines.specs.Telling.{Tells};
ghost use Rattle.capture.specs.Pieces.{capture_text};

use arguments::{Fault, Setup, Wish, wished};
use lines::reads::Stopped;
use lines::tell::run;
use lines::text::Page;
use pieces::begin;
use rows::Form;
use std::env::FillError;
use std::io::{Read, Write};
use std::rt::Env;

// The bytes of input in one piece: a page has room for two lines for each sample.
const INPUT: usize = 1024;

// A proved loop ends, and nothing says that an input does: the reads are counted to a number that no run reaches, and
// whose samples 64 bits count.
const READS: u64 = 0x20_0000_0000_0000;

// The whole capture's text, however the reader cuts it, or that of the samples before a read that failed.
fn captured<R: Read, W: Write>(
    form: Form,
    reset: u16,
    input: &mut R,
    out: &mut W,
) -> Result<(), Stopped>
    ensures end { OnOk result (IsAtEnd (R.remaining input.new)) }
    ensures told { OnOk result (Tells (capture_text form reset) (R.remaining input.old) (R.remaining input.new) (W.contents out.old) (W.contents out.new)) }
    ensures unread { result ≡ Err Unread → Tells (capture_text form reset) (R.remaining input.old) (R.remaining input.new) (W.contents out.old) (W.contents out.new) }
{
    let mut page = Page::new();
    let mut capture = begin(form, reset, &mut page);
    run(&mut capture, &mut page, &mut [0; INPUT], READS, input, out)
}

// What an argument asks for, or nothing behind the last. One that is longer than the buffer is longer than any that is
// understood.
fn argument(rt: HostRuntime, i: usize) -> Option<Result<Wish, Fault>> {
    let mut buffer = [0u8; 8];
    match rt.arg(i, &mut buffer) {
        Ok(length) => Some(wished(&buffer[..length])),
        Err(FillError::TooLong) => Some(Err(Fault::Unclear)),
        Err(FillError::NotPresent) => None,
    }
}

fn setup(rt: HostRuntime) -> Setup {
    (1..usize::MAX)
        .map_while(|i| argument(rt, i))
        .fold(Setup::plain(), Setup::asked)
}

fn main(rt: HostRuntime) {
    let setup = setup(rt);
    if let Some(fault) = setup.fault {
        let _ = eprintln!(rt; "{fault}");
        return;
    }
    if let Err(Stopped::Unread) = captured(
        setup.form,
        setup.front(),
        &mut rt.stdin(),
        &mut rt.stdout(),
    ) {
        let _ = eprintln!(rt; "capture: the input could not be read");
    }
}
