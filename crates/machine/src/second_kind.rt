// The second kind's register map (document 03, "Registers"): its registers have four bytes, or two, lowest byte first, and are
// read and written byte by byte.
ghost use Rattle.std.specs.Prelude.{◌≡◌, cond, ◌%◌, eqb};
ghost use Rattle.machine.specs.SecondKind.{subsystem_at, form_factor_at, second_register, subsystem_write, form_factor_write, sfr_write, second_written};

use crate::Machine;

// The addresses of the registers; those of a bay's are for bay 0 and for bay 1.
pub const VENDOR_LOW: u8 = 0x00;

pub const VENDOR_HIGH: u8 = 0x01;

pub const REVISION: u8 = 0x04;

// The four bytes of the subsystem words.
pub const SUBSYSTEM_0: u8 = 0x08;

pub const SUBSYSTEM_1: u8 = 0x09;

pub const SUBSYSTEM_2: u8 = 0x0A;

pub const SUBSYSTEM_3: u8 = 0x0B;

pub const DBCCR: u8 = 0x0C;

pub const BCER_0: u8 = 0x10;

pub const BSTR_0: u8 = 0x14;

pub const BCER_1: u8 = 0x18;

// Document 000 prints this number, where 1Ch would follow 10h, 14h and 18h.
pub const BSTR_1: u8 = 0x20;

// BAY_FF is in the byte after BSTR.
pub const FORM_FACTOR_0: u8 = BSTR_0 + 1;

pub const FORM_FACTOR_1: u8 = BSTR_1 + 1;

pub const SFR: u8 = 0xFC;

// The bay of a bay's register, by the address that it has in bay 1.
fn bay_of(address: u8, in_bay_1: u8) -> u8
    ensures { result ≡ cond (eqb address in_bay_1) 1 0 }
{
    if address == in_bay_1 { 1 } else { 0 }
}

// A byte reads as all of its eight bits.
fn whole(byte: u8) -> u8
    ensures { result ≡ byte % 256 }
{
    byte
}

impl Machine {
    // Byte k of the subsystem words.
    #[tactic(auto, unfolding(crate::specs::SecondKind::subsystem_at))]
    fn subsystem(self, k: u8) -> u8
        ensures { result ≡ subsystem_at self k }
    {
        match k {
            0 => whole(self.second.subsystem[0]),
            1 => whole(self.second.subsystem[1]),
            2 => whole(self.second.subsystem[2]),
            3 => whole(self.second.subsystem[3]),
            _ => 0,
        }
    }

    // BAY_FF of bay i; 0 of a closed one.
    #[tactic(auto, unfolding(crate::specs::SecondKind::form_factor_at))]
    fn form_factor(self, i: u8) -> u8
        ensures { result ≡ form_factor_at self i }
    {
        if !self.shared.is_open(i) {
            return 0;
        }
        if i == 0 {
            self.second.form_factors[0] % 8
        } else {
            self.second.form_factors[1] % 8
        }
    }

    #[tactic(auto, unfolding(crate::specs::SecondKind::second_register, crate::specs::SecondKind::second_registers))]
    pub(crate) fn second_register(self, address: u8) -> u8
        ensures { result ≡ second_register self address }
    {
        match address {
            VENDOR_LOW => 0x60,
            VENDOR_HIGH => 0x12,
            REVISION => 0x01,
            SUBSYSTEM_0..=SUBSYSTEM_3 => self.subsystem(address - SUBSYSTEM_0),
            DBCCR => self.dbccr(),
            BCER_0 | BCER_1 => self.bcer(bay_of(address, BCER_1)),
            BSTR_0 | BSTR_1 => self.bstr(bay_of(address, BSTR_1)),
            FORM_FACTOR_0 | FORM_FACTOR_1 => self.form_factor(bay_of(address, FORM_FACTOR_1)),
            SFR => self.second.sfr,
            _ => 0,
        }
    }

    #[tactic(auto, unfolding(crate::specs::SecondKind::subsystem_write))]
    fn with_subsystem(self, k: u8, value: u8) -> Machine
        ensures { result ≡ subsystem_write k value self }
    {
        Machine {
            second: self.second.with_subsystem(k, value),
            ..self
        }
    }

    // That of a closed bay takes no write, which doesn't count as one.
    #[tactic(auto, unfolding(crate::specs::SecondKind::form_factor_write))]
    fn with_form_factor(self, i: u8, value: u8) -> Machine
        ensures { result ≡ form_factor_write i value self }
    {
        if !self.shared.is_open(i) {
            return self;
        }
        Machine {
            second: self.second.with_form_factor(i, value),
            ..self
        }
    }

    // The first write opens the locks of both bays, and power goes with them; no other counts.
    #[tactic(auto, unfolding(crate::specs::SecondKind::sfr_write, crate::specs::Record::bay_in))]
    fn with_sfr(self, value: u8) -> Machine
        ensures { result ≡ sfr_write value self }
    {
        if self.second.sfr_written {
            return self;
        }
        Machine {
            second: self.second.with_sfr(value),
            bays: self.bays.map(|bay| bay.unlocked()),
            ..self
        }
    }

    #[tactic(auto, unfolding(crate::specs::SecondKind::second_written, crate::specs::SecondKind::second_writes))]
    pub(crate) fn second_write(self, address: u8, value: u8) -> Machine
        ensures { result ≡ second_written address value self }
    {
        match address {
            SUBSYSTEM_0..=SUBSYSTEM_3 => self.with_subsystem(address - SUBSYSTEM_0, value),
            DBCCR => self.with_dbccr(value),
            BCER_0 | BCER_1 => self.with_bcer(bay_of(address, BCER_1), value),
            BSTR_0 | BSTR_1 => self.with_bstr(bay_of(address, BSTR_1), value),
            FORM_FACTOR_0 | FORM_FACTOR_1 => {
                self.with_form_factor(bay_of(address, FORM_FACTOR_1), value)
            }
            SFR => self.with_sfr(value),
            _ => self,
        }
    }
}
