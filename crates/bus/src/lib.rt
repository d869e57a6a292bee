// A bus command in progress (document 01, "Bus commands"; document 03, "Bus transfers"): what a START or a BYTE makes of
// it in each kind of controller, the byte that an open read holds, and the replies. It knows addresses and bytes, and
// nothing of what a register holds.
#![tactic(auto)]

ghost use Rattle.std.specs.Prelude.{◌≡◌};
ghost use Rattle.bus.specs.Progress.{own_write_byte, own_read_byte, next_register, holding, known_to, started, heard, held_by};
ghost use Rattle.bus.specs.Reply.{reply_number, reply_byte};

use bits::straps;
use kind::Kind;

// How far the open command has come. In the first kind a write is START, own write byte, register byte, data byte, STOP;
// a read is START, own write byte, register byte, START, own read byte, TAKE. In the second a write has any number of
// data bytes, each a whole write at once, and a read any number of ACKed TAKEs before its NACKed one.
#[derive(Clone, Copy, PartialEq, Eq)]
pub enum Progress {
    // No command is open.
    Idle,
    // The START has come.
    Opened,
    // The own write byte has come.
    Addressed,
    // The register byte has come, which it holds.
    Register(u8),
    // First kind, the data byte has come: a STOP decides the write.
    Data { register: u8, value: u8 },
    // The second START has come: the own read byte decides the read.
    Again(u8),
    // First kind, the own read byte has come: what the register read then, for the TAKE.
    Reading(u8),
    // Second kind, a data byte has been written: the number that the next one goes to.
    Writing(u8),
    // Second kind, the own read byte, or an ACKed TAKE, has come: the number that was read, and the byte held for the
    // next TAKE.
    Sending { register: u8, value: u8 },
}

// What a BYTE makes of a command.
#[derive(Clone, Copy, PartialEq, Eq)]
pub enum Heard {
    // It is the next one of a form: the command goes on.
    On(Progress),
    // Second kind, it is a data byte: a whole write at once.
    Write { register: u8, value: u8 },
    // It is the own read byte, which decides a read of this register.
    Read(u8),
    // It is not the next one: the command ends.
    End,
}

// What the host sees of an event.
#[derive(Clone, Copy, PartialEq, Eq)]
pub enum Reply {
    // START, STOP, PINS, TICK, RESET and TIMEOUT have no reply.
    Nothing,
    Ack,
    NoAck,
    // The byte that is driven at a TAKE.
    Driven(u8),
    NotDriven,
}

// The own address byte for writing: 90h + 2 x SMB_A.
#[tactic(auto, unfolding(crate::specs::Progress::own_write_byte))]
pub fn own_write(straps: u8) -> u8
    ensures { result ≡ own_write_byte straps }
{
    0x90 + straps::smb_a(straps) * 2
}

// One more for reading.
#[tactic(auto, unfolding(crate::specs::Progress::own_write_byte, crate::specs::Progress::own_read_byte))]
pub fn own_read(straps: u8) -> u8
    ensures { result ≡ own_read_byte straps }
{
    own_write(straps) + 1
}

// The number rises within a transfer of the second kind: FFh to 00h.
#[tactic(auto, unfolding(crate::specs::Progress::next_register))]
pub fn next_register(register: u8) -> u8
    ensures { result ≡ next_register register }
{
    if register == 0xFF { 0x00 } else { register + 1 }
}

impl Progress {
    // What a read holds for its TAKE.
    #[tactic(auto, unfolding(crate::specs::Progress::holding))]
    pub fn holding(kind: Kind, register: u8, value: u8) -> Progress
        ensures { result ≡ holding kind register value }
    {
        match kind {
            Kind::First => Progress::Reading(value),
            Kind::Second => Progress::Sending { register, value },
        }
    }

    // A progress of the other kind counts as none.
    #[tactic(auto, unfolding(crate::specs::Progress::known_to))]
    pub fn known(self, kind: Kind) -> Progress
        ensures { result ≡ known_to kind self }
    {
        match kind {
            Kind::First => match self {
                Progress::Writing(_) | Progress::Sending { .. } => Progress::Idle,
                _ => self,
            },
            Kind::Second => match self {
                Progress::Data { .. } | Progress::Reading(_) => Progress::Idle,
                _ => self,
            },
        }
    }

    // A START opens a command when none is open; after a register byte it goes on to a read.
    #[tactic(auto, unfolding(crate::specs::Progress::started, crate::specs::Progress::started_known))]
    pub fn start(self, kind: Kind) -> Progress
        ensures { result ≡ started kind self }
    {
        let progress = self.known(kind);
        if let Progress::Idle = progress {
            return Progress::Opened;
        }
        let Progress::Register(register) = progress else {
            return Progress::Idle;
        };
        Progress::Again(register)
    }

    // A BYTE, to the controller of this kind with these straps.
    #[tactic(auto, unfolding(crate::specs::Progress::heard, crate::specs::Progress::heard_known))]
    pub fn byte(self, kind: Kind, straps: u8, value: u8) -> Heard
        ensures { result ≡ heard kind straps value self }
    {
        match self.known(kind) {
            Progress::Opened => {
                if value == own_write(straps) {
                    Heard::On(Progress::Addressed)
                } else {
                    Heard::End
                }
            }
            Progress::Addressed => Heard::On(Progress::Register(value)),
            Progress::Register(register) => match kind {
                Kind::First => Heard::On(Progress::Data { register, value }),
                Kind::Second => Heard::Write { register, value },
            },
            Progress::Writing(register) => Heard::Write { register, value },
            Progress::Again(register) => {
                if value == own_read(straps) {
                    Heard::Read(register)
                } else {
                    Heard::End
                }
            }
            _ => Heard::End,
        }
    }

    // The byte that an open read holds for its next TAKE; where none is open, none.
    #[tactic(auto, unfolding(crate::specs::Progress::held_known, crate::specs::Progress::held_by))]
    pub fn held(self, kind: Kind) -> Option<u8>
        ensures { result ≡ held_by kind self }
    {
        let command = self.known(kind);
        match command {
            Progress::Reading(value) | Progress::Sending { value, .. } => Some(value),
            _ => None,
        }
    }
}

impl Reply {
    // The paper's number for the reply.
    pub fn number(self) -> u8
        ensures { result ≡ reply_number self }
    {
        match self {
            Reply::Nothing => 0,
            Reply::Ack => 1,
            Reply::NoAck => 2,
            Reply::Driven(_) => 3,
            Reply::NotDriven => 4,
        }
    }

    // The byte that comes with it.
    pub fn byte(self) -> u8
        ensures { result ≡ reply_byte self }
    {
        match self {
            Reply::Nothing | Reply::Ack | Reply::NoAck => 0,
            Reply::Driven(value) => value,
            Reply::NotDriven => 255,
        }
    }
}
