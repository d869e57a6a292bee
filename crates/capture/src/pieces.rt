// A capture whose samples come in pieces (document 02, request 7): each sample goes to the wire cell, and each word that
// comes of it into the dock.
ghost use Rattle.std.specs.Prelude.{◌+◌, ◌≤◌, ◌≡◌, ◌++◌, [], ◌∷◌, length};
ghost use Rattle.wire.specs.Hear.{spelled};
ghost use Rattle.lines.specs.Text.{PAGE};
ghost use Rattle.capture.specs.Rows.{tick_at};
ghost use Rattle.capture.specs.Pieces.{words_text, capture_given, header_for, opening_of, begun_of};

use crate::rows::{Form, bare, row};
use dock::Controller;
use event::{Event, packed_word};
use lines::tell::Telling;
use lines::text::{Page, put};
use wire::Wire;

// A TICK follows each so many samples: 10 ms, at 2 µs for a sample.
const TICK_SAMPLES: u64 = 5000;

// After the samples so far, and how many they are.
#[derive(Clone, Copy)]
pub struct Capture {
    pub form: Form,
    pub wire: Wire,
    pub controller: Controller,
    pub count: u64,
}

impl Capture {
    // One word goes into the dock.
    #[tactic(auto, using(crate::specs::Cut::line_text, crate::specs::Cut::bare_text), unfolding(crate::specs::Pieces::capture_given, dock::specs::Run::after))]
    fn give(&mut self, word: u16, page: &mut Page)
        requires { length page.old.items + length (words_text self.old (word ∷ [])) ≤ PAGE }
        ensures state { self.new ≡ capture_given self.old (word ∷ []) }
        ensures written { page.new.items ≡ page.old.items ++ words_text self.old (word ∷ []) }
    {
        let stepped = self.controller.step(word);
        match self.form {
            Form::Lines => row(self.count, word, stepped.answer, page),
            Form::Words => bare(word, page),
        }
        self.controller = stepped.controller;
    }

    // The word of the event that a sample has given, where it has given one.
    #[tactic(auto, using(crate::specs::Cut::no_words_behind, crate::specs::Cut::none_given))]
    fn give_event(&mut self, given: Option<Event>, page: &mut Page)
        requires { length page.old.items + length (words_text self.old (spelled given)) ≤ PAGE }
        ensures state { self.new ≡ capture_given self.old (spelled given) }
        ensures written { page.new.items ≡ page.old.items ++ words_text self.old (spelled given) }
    {
        if let Some(event) = given {
            self.give(packed_word(event), page);
        }
    }

    // The TICK after a sample, where it is time for one.
    #[tactic(auto, using(crate::specs::Cut::no_words_behind, crate::specs::Cut::none_given), unfolding(crate::specs::Rows::tick_at, event::specs::Words::packed, event::specs::Words::straps_of))]
    fn give_tick(&mut self, page: &mut Page)
        requires { length page.old.items + length (words_text self.old (tick_at self.old.count)) ≤ PAGE }
        ensures state { self.new ≡ capture_given self.old (tick_at self.old.count) }
        ensures written { page.new.items ≡ page.old.items ++ words_text self.old (tick_at self.old.count) }
    {
        if self.count % TICK_SAMPLES == 0 {
            self.give(packed_word(Event::Tick), page);
        }
    }
}

impl Telling for Capture {
    ghost use Rattle.std.specs.Prelude.{◌+◌, ◌*◌, ◌^◌, ◌<◌};
    ghost use Rattle.capture.specs.Pieces.{text_fed, capture_fed, ending_of};
    ghost use Rattle.capture.specs.Laws.{laws as capture_laws};

    ghost text = { text_fed };

    ghost after = { capture_fed };

    ghost ending = { ending_of };

    ghost most = { λ n. 74 * n };

    ghost hears = { λ c n. c.count + n < 2 ^ 64 };

    ghost laws = { capture_laws };

    // One sample: the word that it gives, and then the TICK.
    #[tactic(auto, using(crate::specs::Cut::event_fits, crate::specs::Cut::tick_fits, crate::specs::Cut::one_text, crate::specs::Cut::one_capture))]
    fn hear(&mut self, byte: u8, page: &mut Page) {
        let heard = self.wire.hear(byte);
        self.wire = heard.wire;
        self.count += 1;
        self.give_event(heard.given, page);
        self.give_tick(page);
    }

    // Nothing is put out at the end of a capture.
    fn finish(&self, _page: &mut Page) {}
}

// Bare words have no header.
#[tactic(auto, unfolding(crate::specs::Pieces::header_for))]
fn header(form: Form, page: &mut Page)
    requires { length page.old.items + length (header_for form) ≤ PAGE }
    ensures { page.new.items ≡ page.old.items ++ header_for form }
{
    if let Form::Lines = form {
        put(b"sample word ref rep byte out\n", page);
    }
}

// The header, and the RESET that no capture has.
#[tactic(auto, unfolding(crate::specs::Pieces::opening_of, crate::specs::Pieces::begun_of))]
pub(crate) fn begin(form: Form, reset: u16, page: &mut Page) -> Capture
    requires { length page.old.items + length (opening_of form reset) ≤ PAGE }
    ensures value { result ≡ begun_of form reset }
    ensures written { page.new.items ≡ page.old.items ++ opening_of form reset }
{
    header(form, page);
    let mut capture = Capture {
        form,
        wire: Wire::fresh(),
        controller: Controller::fresh(),
        count: 0,
    };
    capture.give(reset, page);
    capture
}
