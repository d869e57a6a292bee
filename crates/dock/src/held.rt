// The byte that an open read holds (document 02, request 7), from which SDAT is driven outside.
ghost use Rattle.std.specs.Prelude.{◌≡◌};
ghost use Rattle.dock.specs.Held.{value_held, told_held};

use crate::{Controller, Refusal};

// What stands above the byte where one is held: a byte 00h isn't none.
const HELD: u16 = 256;

// The byte in numbers, 0 where none is held.
pub fn held_value(held: Option<u8>) -> u16
    ensures { result ≡ value_held held }
{
    match held {
        Some(byte) => HELD + byte as u16,
        None => 0,
    }
}

impl Controller {
    // The byte that the next TAKE would drive, where a read is open. Before the first RESET none is, whatever the progress of a state.
    #[tactic(auto, unfolding(crate::specs::Held::told_held, crate::specs::Held::held_fit))]
    pub fn held(self) -> Result<Option<u8>, Refusal>
        ensures { result ≡ told_held self }
    {
        if !self.fit() {
            return Err(Refusal::Unfit);
        }
        if !self.machine.started {
            return Ok(None);
        }
        Ok(self.progress.held(self.machine.kind))
    }
}
