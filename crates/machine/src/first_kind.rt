// The first kind's register map (document 01, "Registers"; document 02, request 6).
ghost use Rattle.std.specs.Prelude.{◌≡◌, ◌/◌, ◌%◌};
ghost use Rattle.machine.specs.FirstKind.{first_register, letr_write, wait_write, first_written};

use crate::{Machine, Shared};

// The addresses of the registers; those of a bay's are for bay 0 and for bay 1.
pub const VENDOR_LOW: u8 = 0x00;

pub const VENDOR_HIGH: u8 = 0x01;

pub const REVISION: u8 = 0x04;

pub const DBCCR: u8 = 0x0C;

pub const BSTR_0: u8 = 0x10;

pub const BCER_0: u8 = 0x14;

pub const BSTR_1: u8 = 0x18;

pub const BCER_1: u8 = 0x1C;

pub const LETR: u8 = 0x40;

pub const WAIT: u8 = 0x42;

// The bay of a bay's register: bit 3 of its address.
fn bay_of(address: u8) -> u8
    ensures { result ≡ address / 8 % 2 }
{
    address / 8 % 2
}

impl Machine {
    #[tactic(auto, unfolding(crate::specs::FirstKind::first_register, crate::specs::FirstKind::first_registers))]
    pub(crate) fn first_register(self, address: u8) -> u8
        ensures { result ≡ first_register self address }
    {
        match address {
            VENDOR_LOW => 0x55,
            VENDOR_HIGH => 0x10,
            REVISION => 0x01,
            DBCCR => self.dbccr(),
            BSTR_0 | BSTR_1 => self.bstr(bay_of(address)),
            BCER_0 | BCER_1 => self.bcer(bay_of(address)),
            LETR => self.shared.lock_time % 4,
            WAIT => self.shared.wait_time,
            _ => 0,
        }
    }

    #[tactic(auto, unfolding(crate::specs::FirstKind::letr_write))]
    fn with_letr(self, value: u8) -> Machine
        ensures { result ≡ letr_write value self }
    {
        Machine {
            shared: Shared {
                lock_time: value % 4,
                ..self.shared
            },
            ..self
        }
    }

    #[tactic(auto, unfolding(crate::specs::FirstKind::wait_write))]
    fn with_wait(self, value: u8) -> Machine
        ensures { result ≡ wait_write value self }
    {
        Machine {
            shared: Shared {
                wait_time: value,
                ..self.shared
            },
            ..self
        }
    }

    #[tactic(auto, unfolding(crate::specs::FirstKind::first_written, crate::specs::FirstKind::first_writes))]
    pub(crate) fn first_write(self, address: u8, value: u8) -> Machine
        ensures { result ≡ first_written address value self }
    {
        match address {
            DBCCR => self.with_dbccr(value),
            BSTR_0 | BSTR_1 => self.with_bstr(bay_of(address), value),
            BCER_0 | BCER_1 => self.with_bcer(bay_of(address), value),
            LETR => self.with_letr(value),
            WAIT => self.with_wait(value),
            _ => self,
        }
    }
}
