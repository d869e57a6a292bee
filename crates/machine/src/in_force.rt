// The register map of the kind in force: what each of the 256 addresses reads, and what a write there does.
ghost use Rattle.std.specs.Prelude.{◌≡◌};
ghost use Rattle.machine.specs.InForce.{reading, register, written};

use crate::Machine;
use kind::Kind;

impl Machine {
    #[tactic(auto, unfolding(crate::specs::InForce::register))]
    fn register(self, address: u8) -> u8
        ensures { result ≡ register self address }
    {
        match self.kind {
            Kind::First => self.first_register(address),
            Kind::Second => self.second_register(address),
        }
    }

    // What an address reads: the answer to a whole read.
    #[tactic(auto, unfolding(crate::specs::InForce::reading))]
    pub fn reading(self, address: u8) -> u8
        ensures { result ≡ reading self address }
    {
        if self.started {
            self.register(address)
        } else {
            0
        }
    }

    // A whole write.
    #[tactic(auto, unfolding(crate::specs::InForce::written))]
    pub(crate) fn write(self, address: u8, value: u8) -> Machine
        ensures { result ≡ written address value self }
    {
        match self.kind {
            Kind::First => self.first_write(address, value),
            Kind::Second => self.second_write(address, value),
        }
    }
}
