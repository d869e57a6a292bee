// What the programs that print a trace share: a line of it, a text that grows in a buffer, what a read has answered, and the run
// over an input that comes in pieces.
#![tactic(auto)]

pub mod line;
pub mod reads;
pub mod tell;
pub mod text;
