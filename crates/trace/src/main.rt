// The trace program (document 01): reads words from standard input, high byte first, steps them from a fresh
// controller and prints a line for each. A piece is what one read gives, and its lines are written at once. What a
// reader gives and a writer takes is proved of any two whose bytes are known (`traced`); that the calls of the system
// read and write standard input and output is assumed.
#![tactic(auto)]

mod pieces;

ghost use Rattle.std.specs.Prelude.{◌≡◌, Err, OnOk};
ghost use Rattle.std.specs.Io.KnownBytes.{IsAtEnd};
ghost use Rattle.lines.specs.declared.reads.Stopped.TheVariants.{Unread};
ghost use Rattle.lines.specs.Telling.{Tells};
ghost use Rattle.trace.specs.Text.{text_of, whole_lines};

use lines::reads::Stopped;
use lines::tell::run;
use lines::text::Page;
use pieces::begin;
use std::io::{Read, Write};

// The bytes of input in one piece: a page has room for a line for every two of them, and for one line more.
const INPUT: usize = 8192;

// The whole input's text, however the reader cuts it; where a read fails, the lines of the words that were whole. No input has
// so many pieces as are counted.
#[tactic(auto, unfolding(crate::specs::Text::header))]
fn traced<R: Read, W: Write>(input: &mut R, out: &mut W) -> Result<(), Stopped>
    ensures end { OnOk result (IsAtEnd (R.remaining input.new)) }
    ensures told { OnOk result (Tells text_of (R.remaining input.old) (R.remaining input.new) (W.contents out.old) (W.contents out.new)) }
    ensures unread { result ≡ Err Unread → Tells whole_lines (R.remaining input.old) (R.remaining input.new) (W.contents out.old) (W.contents out.new) }
{
    let mut page = Page::new();
    let mut trace = begin(&mut page);
    run(&mut trace, &mut page, &mut [0; INPUT], u64::MAX, input, out)
}

// Nothing is said of a byte that waits where the input can't be read.
fn main(rt: HostRuntime) {
    if let Err(Stopped::Unread) = traced(&mut rt.stdin(), &mut rt.stdout()) {
        let _ = rt
            .stderr()
            .write_all(b"trace: the input could not be read\n");
    }
}
