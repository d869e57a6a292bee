// The call that names a kind of controller (document 02, request 2; document 03, "Naming the kind"): it is no event, has no reply and no
// outputs, and is taken before the first RESET too.
ghost use Rattle.std.specs.Prelude.{◌≡◌};
ghost use Rattle.dock.specs.Name.{naming_number, name_of};

use crate::{Controller, NamingRefusal, Renamed};
use kind::Kind;

impl NamingRefusal {
    // The paper's number.
    pub fn number(self) -> u8
        ensures { result ≡ naming_number self }
    {
        match self {
            NamingRefusal::Unfit => 1,
            NamingRefusal::NoSuchKind => 14,
        }
    }
}

impl Controller {
    // 1 names the first kind and 2 the second, from the next RESET on.
    #[tactic(auto, unfolding(crate::specs::Name::name_of, machine::specs::Acts::does))]
    pub fn name(self, number: u8) -> Renamed
        ensures { result ≡ name_of self number }
    {
        if !self.fit() {
            return Renamed {
                controller: self,
                naming: Err(NamingRefusal::Unfit),
            };
        }
        let Ok(kind) = Kind::try_from(number) else {
            return Renamed {
                controller: self,
                naming: Err(NamingRefusal::NoSuchKind),
            };
        };
        // Not by `does`, which stays a part of the one function that calls it, so that no event has its record copied.
        Renamed {
            controller: Controller {
                machine: self.machine.name(kind),
                ..self
            },
            naming: Ok(()),
        }
    }
}
