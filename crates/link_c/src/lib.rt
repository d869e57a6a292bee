// The library as C sees it, libdock.a: each function of the crate `link` under its own name and with its own clauses, which the
// call behind it meets. host/include/dock.h declares them for C.
#![tactic(auto)]

mod events;
mod held;
mod lists;
mod queues;
mod replay;
mod version;
mod wires;
