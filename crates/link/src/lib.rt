// The library for C and Rust: the controller behind a handful of functions on numbers and slices, names that begin
// `dock_`. host/include/dock.h has the same functions for C.
#![tactic(auto)]

mod answer;
pub mod events;
pub mod held;
mod images;
pub mod lists;
pub mod queues;
pub mod replay;
pub mod version;
pub mod wires;
