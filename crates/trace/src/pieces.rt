// The trace of an input that comes in pieces (document 01, "Bench examples"). A piece may end anywhere, also inside a
// word: its high byte then waits for the next piece.
ghost use Rattle.std.specs.Prelude.{◌+◌, ◌≤◌, ◌≡◌, ◌++◌, length};
ghost use Rattle.lines.specs.Text.{PAGE};
ghost use Rattle.trace.specs.Text.{header};
ghost use Rattle.trace.specs.Pieces.{begun};

use dock::Controller;
use lines::line::line;
use lines::tell::Telling;
use lines::text::{Page, put};
use pairs::wide;

#[derive(Clone, Copy)]
pub struct Trace {
    pub controller: Controller,
    // The high byte of a word that has come without the low one.
    pub waiting: Option<u8>,
}

// The header, and the trace of a fresh controller.
#[tactic(auto, unfolding(crate::specs::Text::header, crate::specs::Pieces::begun))]
pub(crate) fn begin(page: &mut Page) -> Trace
    requires { length page.old.items + length header ≤ PAGE }
    ensures value { result ≡ begun }
    ensures written { page.new.items ≡ page.old.items ++ header }
{
    put(b"word ref rep byte out\n", page);
    Trace {
        controller: Controller::fresh(),
        waiting: None,
    }
}

impl Telling for Trace {
    ghost use Rattle.std.specs.Prelude.{◌+◌, ◌*◌};
    ghost use Rattle.trace.specs.Pieces.{lines_fed, trace_fed, ending_of};
    ghost use Rattle.trace.specs.Laws.{laws as trace_laws};

    ghost text = { lines_fed };

    ghost after = { trace_fed };

    ghost ending = { ending_of };

    ghost most = { λ n. 8 * n + 8 };

    ghost hears = { λ _ _. Unit {0} };

    ghost laws = { trace_laws };

    // The first byte of a word waits; the second completes the word, whose line is put out.
    #[tactic(auto, unfolding(crate::specs::Pieces::lines_fed, crate::specs::Pieces::trace_fed, pairs::specs::Pairs::words_in, pairs::specs::Pairs::lone_in, crate::specs::Text::lines_of, dock::specs::Run::after, lines::specs::Line::line_of))]
    fn hear(&mut self, byte: u8, page: &mut Page) {
        let Some(high) = self.waiting else {
            self.waiting = Some(byte);
            return;
        };
        let word = wide(high, byte);
        let stepped = self.controller.step(word);
        put(&line(word, stepped.answer), page);
        self.controller = stepped.controller;
        self.waiting = None;
    }

    // A byte that still waits was a lone last one.
    #[tactic(auto, unfolding(crate::specs::Pieces::ending_of, crate::specs::Text::odd_for, crate::specs::Text::odd))]
    fn finish(&self, page: &mut Page) {
        if self.waiting.is_some() {
            put(b"odd\n", page);
        }
    }
}
