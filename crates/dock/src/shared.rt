// What a bus that several controllers share has to know of one (document 02, request 9).
ghost use Rattle.std.specs.Prelude.{◌≡◌};
ghost use Rattle.dock.specs.Held.{held_fit};
ghost use Rattle.dock.specs.Shared.{is_byte, standing_of};

use crate::{Controller, Standing};

impl Controller {
    // A read is open; before the first RESET none is, whatever the progress of a state.
    #[tactic(auto, unfolding(crate::specs::Held::held_fit))]
    fn drives(self) -> bool
        ensures { result ≡ is_byte (held_fit self) }
    {
        self.machine.started && self.progress.held(self.machine.kind).is_some()
    }

    // Asked of any state, fit or not, and changes nothing.
    #[tactic(auto, unfolding(crate::specs::Shared::standing_of))]
    pub fn standing(self) -> Standing
        ensures { result ≡ standing_of self }
    {
        Standing {
            fit: self.fit(),
            started: self.machine.started,
            address: bus::own_write(self.machine.straps),
            reading: self.drives(),
        }
    }
}
