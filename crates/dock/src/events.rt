// What each event comes to in a controller that is fit and may take it (document 01; document 03, "Bus transfers"): the bus
// decides, the machine does.
ghost use Rattle.std.specs.Prelude.{◌≡◌, Some};
ghost use Rattle.machine.specs.InForce.{reading};
ghost use Rattle.dock.specs.Events.{ended, start_at, stop_at, read_at, byte_at, take_at, turn_of, taken, kept};

use crate::{Controller, Taken, Turn};
use bus::{Heard, Progress, Reply, next_register};
use event::Event;
use kind::Kind;
use machine::{Act, Acted, Machine};

// An open command ends, and the event is spent with it.
fn ended(reply: Reply) -> Turn
    ensures { result ≡ ended reply }
{
    Turn {
        progress: Progress::Idle,
        deed: None,
        reply,
    }
}

// A START only moves the command on, or ends it.
fn start(kind: Kind, progress: Progress) -> Turn
    ensures { result ≡ start_at kind progress }
{
    Turn {
        progress: progress.start(kind),
        deed: None,
        reply: Reply::Nothing,
    }
}

// In the first kind the STOP after a data byte decides the write.
#[tactic(auto, using(bus::proofs::Cases::among, bus::proofs::Cases::found), unfolding(crate::specs::Events::stop_deed))]
fn stop(kind: Kind, progress: Progress) -> Turn
    ensures { result ≡ stop_at kind progress }
{
    let Progress::Data { register, value } = progress.known(kind) else {
        return ended(Reply::Nothing);
    };
    decided(Progress::Idle, Act::Write { register, value })
}

// The register's reading now is held for the next TAKE: a whole read.
#[tactic(auto, unfolding(crate::specs::Events::read_at))]
fn read(machine: Machine, register: u8, reply: Reply) -> Turn
    ensures { result ≡ read_at machine.kind (reading machine) register reply }
{
    Turn {
        progress: Progress::holding(machine.kind, register, machine.reading(register)),
        deed: Some(Act::Read(register)),
        reply,
    }
}

// A BYTE goes on with the command, decides a read or, in the second kind, a write, or ends the command.
#[tactic(auto, unfolding(crate::specs::Events::byte_heard, crate::specs::Events::byte_at))]
fn byte(machine: Machine, progress: Progress, byte: u8) -> Turn
    ensures { result ≡ byte_at machine progress byte }
{
    match progress.byte(machine.kind, machine.straps, byte) {
        Heard::On(next) => Turn {
            progress: next,
            deed: None,
            reply: Reply::Ack,
        },
        Heard::Write { register, value } => Turn {
            progress: Progress::Writing(next_register(register)),
            deed: Some(Act::Write { register, value }),
            reply: Reply::Ack,
        },
        Heard::Read(register) => {
            // A copy of its own, so that no other BYTE is charged with one.
            let now = machine;
            read(now, register, Reply::Ack)
        }
        Heard::End => ended(Reply::NoAck),
    }
}

// A TAKE gives the byte that is held. In the second kind one that the host ACKs reads the next register for the one after it.
#[tactic(auto, using(bus::proofs::Cases::among, bus::proofs::Cases::found), unfolding(crate::specs::Events::take_known))]
fn take(machine: Machine, progress: Progress, ack: bool) -> Turn
    ensures { result ≡ take_at machine ack progress }
{
    match progress.known(machine.kind) {
        Progress::Reading(value) => ended(Reply::Driven(value)),
        Progress::Sending { register, value } => {
            if ack {
                let now = machine;
                read(now, next_register(register), Reply::Driven(value))
            } else {
                ended(Reply::Driven(value))
            }
        }
        _ => ended(Reply::NotDriven),
    }
}

// The machine is to do an act, and there is no reply.
fn decided(progress: Progress, act: Act) -> Turn
    ensures { result ≡ record { progress = progress; deed = Some act; reply = Reply.Nothing } }
{
    Turn {
        progress,
        deed: Some(act),
        reply: Reply::Nothing,
    }
}

impl Controller {
    // What an event comes to. PINS and TICK are passed over by an open command; TIMEOUT and RESET end it.
    #[tactic(auto, unfolding(crate::specs::Events::turn_of))]
    pub(crate) fn turn(self, event: Event) -> Turn
        ensures { result ≡ turn_of self event }
    {
        let Controller { machine, progress } = self;
        match event {
            Event::Start => start(machine.kind, progress),
            Event::Stop => stop(machine.kind, progress),
            Event::Byte(value) => byte(machine, progress, value),
            Event::Take(ack) => take(machine, progress, ack),
            Event::Pins(levels) => decided(progress, Act::Pins(levels)),
            Event::Tick => decided(progress, Act::Tick),
            Event::Reset {
                straps,
                levels,
                short_pulse,
            } => {
                decided(
                    Progress::Idle,
                    Act::Reset {
                        straps,
                        levels,
                        short_pulse,
                    },
                )
            }
            Event::Timeout => ended(Reply::Nothing),
        }
    }
}

impl Turn {
    // The controller that it leaves.
    pub(crate) fn taken(self, machine: Machine) -> Taken
        ensures { result ≡ record { controller = taken self machine; keeps = kept self.deed machine } }
    {
        let progress = self.progress;
        let Some(act) = self.deed else {
            return Taken {
                controller: Controller { machine, progress },
                keeps: true,
            };
        };
        let Acted { machine, keeps } = machine.does(act);
        Taken {
            controller: Controller { machine, progress },
            keeps,
        }
    }
}
