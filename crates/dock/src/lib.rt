// The controller of a two-bay dock (document 01; document 03): a machine and a bus command in progress, one event word at a
// time, the call that names its kind, and the questions that change nothing: one register's reading, the nine outputs, the
// byte that an open read holds, and how it stands on a bus that it shares.
#![tactic(auto)]

mod answers;
mod events;
mod held;
mod name;
mod record;
mod shared;
mod step;

pub use answers::{outputs_of, reply_in};
use bus::{Progress, Reply};
pub use held::held_value;
use machine::{Act, Machine};

// Any value of any field may come in; `fit` tells the ones that the rules can step.
#[derive(Clone, Copy, PartialEq, Eq)]
pub struct Controller {
    pub machine: Machine,
    pub progress: Progress,
}

// The event was acted on: the reply, and the outputs afterwards.
#[derive(Clone, Copy, PartialEq, Eq)]
pub struct Done {
    pub reply: Reply,
    pub outputs: u16,
}

// Why an event, or a question about a state, is refused.
#[derive(Clone, Copy, PartialEq, Eq)]
pub enum Refusal {
    // The state isn't fit.
    Unfit,
    // A bit of the word that must be 0 is set: the outputs as they were.
    StrayBit(u16),
    // No RESET yet, and this isn't one.
    NotStarted,
}

// The paper's numbers of an answer, one for each column of its table.
#[derive(Clone, Copy, PartialEq, Eq)]
pub struct Numbers {
    pub refusal: u8,
    pub reply: u8,
    pub byte: u8,
    pub outputs: u16,
}

// What the single call answers.
pub type Answer = Result<Done, Refusal>;

#[derive(Clone, Copy)]
pub struct Stepped {
    pub controller: Controller,
    pub answer: Answer,
}

// What the single call comes to where the state is fit.
#[derive(Clone, Copy)]
pub struct Went {
    pub controller: Controller,
    pub answer: Answer,
    // The outputs then.
    pub outputs: u16,
}

// What an event that isn't refused comes to.
#[derive(Clone, Copy)]
pub struct Turn {
    // How far the command has come then.
    pub progress: Progress,
    // What it has the machine do.
    pub deed: Option<Act>,
    pub reply: Reply,
}

// What it leaves.
#[derive(Clone, Copy)]
struct Taken {
    controller: Controller,
    // It is one that leaves the outputs as they were.
    keeps: bool,
}

// Why a name is refused.
#[derive(Clone, Copy, PartialEq, Eq)]
pub enum NamingRefusal {
    // The state isn't fit.
    Unfit,
    // The number is of neither kind.
    NoSuchKind,
}

#[derive(Clone, Copy)]
pub struct Renamed {
    pub controller: Controller,
    // The name is stored, or it is refused.
    pub naming: Result<(), NamingRefusal>,
}

// How a controller stands on a bus that it shares with others.
#[derive(Clone, Copy)]
pub struct Standing {
    pub fit: bool,
    // It has had a RESET: before that it hears nothing.
    pub started: bool,
    // Its own address byte for writing.
    pub address: u8,
    // A read of it is open: it drives the next TAKE.
    pub reading: bool,
}
