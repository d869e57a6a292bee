// What the arguments ask for, in any order: four hex digits for the RESET in front, and `words` for the bare words.
ghost use Rattle.std.specs.Prelude.{◌≡◌};
ghost use Rattle.capture.specs.Arguments.{wish_of, plain_setup, front_of, faulty, asked_words, asked_reset, asked};

use crate::rows::Form;
use std::fmt;

// One argument.
#[derive(Clone, Copy)]
pub enum Wish {
    Words,
    Reset(u16),
}

// What is wrong with an argument.
#[derive(Clone, Copy)]
pub enum Fault {
    // A word that is no RESET's.
    NoReset,
    Unclear,
}

impl fmt::Display for Fault {
    fn fmt<W: fmt::Write>(&self, f: &mut fmt::Formatter<W>) -> fmt::Result {
        f.write_str(match self {
            Fault::NoReset => "capture: a RESET's word is C000 to DFFF",
            Fault::Unclear => {
                "usage: capture [WORD] [words]   (WORD: the RESET in front, four hex digits; C0FF by default)"
            }
        })
    }
}

// All arguments so far. A fault stays in it, since those behind it may have a fault of their own, and the last is told.
#[derive(Clone, Copy)]
pub struct Setup {
    pub form: Form,
    // The RESET's word, where it was an argument.
    pub reset: Option<u16>,
    pub fault: Option<Fault>,
}

#[tactic(auto, unfolding(crate::specs::Arguments::wish_of, crate::specs::Arguments::asks_words))]
pub(crate) fn wished(text: &[u8]) -> Result<Wish, Fault>
    ensures { result ≡ wish_of text.now }
{
    if text == b"words".as_slice() {
        return Ok(Wish::Words);
    }
    match script::word(text) {
        Some(word) if event::resets(word) => Ok(Wish::Reset(word)),
        Some(_) => Err(Fault::NoReset),
        None => Err(Fault::Unclear),
    }
}

impl Setup {
    // No argument: lines, from a RESET with nothing in either bay.
    #[tactic(auto, unfolding(crate::specs::Arguments::plain_setup))]
    pub fn plain() -> Setup
        ensures { result ≡ plain_setup }
    {
        Setup {
            form: Form::Lines,
            reset: None,
            fault: None,
        }
    }

    // The RESET in front.
    pub fn front(self) -> u16
        ensures { result ≡ front_of self }
    {
        self.reset.unwrap_or(0xC0FF)
    }

    fn faulty(self, fault: Fault) -> Setup
        ensures { result ≡ faulty self fault }
    {
        Setup {
            fault: Some(fault),
            ..self
        }
    }

    // Each may be asked for once.
    fn asked_words(self) -> Setup
        ensures { result ≡ asked_words self self.form }
    {
        match self.form {
            Form::Lines => Setup {
                form: Form::Words,
                ..self
            },
            Form::Words => self.faulty(Fault::Unclear),
        }
    }

    fn asked_reset(self, word: u16) -> Setup
        ensures { result ≡ asked_reset self word self.reset }
    {
        match self.reset {
            None => Setup {
                reset: Some(word),
                ..self
            },
            Some(_) => self.faulty(Fault::Unclear),
        }
    }

    // One argument more.
    #[tactic(auto, unfolding(crate::specs::Arguments::asked))]
    pub fn asked(self, wish: Result<Wish, Fault>) -> Setup
        ensures { result ≡ asked self wish }
    {
        match wish {
            Ok(Wish::Words) => self.asked_words(),
            Ok(Wish::Reset(word)) => self.asked_reset(word),
            Err(fault) => self.faulty(fault),
        }
    }
}
