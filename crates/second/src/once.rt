// Bytes that are written once (document 03, "Registers"): a byte counts as written at its first write, whatever that is.
ghost use Rattle.std.specs.Prelude.{◌≡◌};
ghost use Rattle.second.specs.Once.{once, after_subsystem_write, form_factor_written, after_sfr_write};

use crate::Second;
use std::array;

// A byte after a write that may be meant for it.
fn once(meant: bool, written: bool, old: u8, value: u8) -> u8
    ensures { result ≡ once meant written old value }
{
    if meant & !written { value } else { old }
}

impl Second {
    // A write of byte `i` of the subsystem words.
    #[tactic(auto, using(crate::proofs::Four::four), unfolding(crate::specs::Once::after_subsystem_write))]
    pub fn with_subsystem(self, i: u8, value: u8) -> Second
        ensures { result ≡ after_subsystem_write i value self }
    {
        let i = i as usize;
        Second {
            subsystem: array::from_fn(|k| {
                once(i == k, self.subsystem_written[k], self.subsystem[k], value)
            }),
            subsystem_written: array::from_fn(|k| self.subsystem_written[k] | (i == k)),
            ..self
        }
    }

    // A write of bay i's BAY_FF: three bits of the byte.
    #[tactic(auto, unfolding(crate::specs::Once::form_factor_written))]
    pub fn with_form_factor(self, i: u8, value: u8) -> Second
        ensures { result ≡ form_factor_written i value self }
    {
        let i = i as usize;
        Second {
            form_factors: array::from_fn(|k| {
                once(
                    i == k,
                    self.form_factors_written[k],
                    self.form_factors[k],
                    value % 8,
                )
            }),
            form_factors_written: array::from_fn(|k| self.form_factors_written[k] | (i == k)),
            ..self
        }
    }

    // A write of SFR.
    #[tactic(auto, unfolding(crate::specs::Once::after_sfr_write))]
    pub fn with_sfr(self, value: u8) -> Second
        ensures { result ≡ after_sfr_write value self }
    {
        Second {
            sfr: once(true, self.sfr_written, self.sfr, value),
            sfr_written: true,
            ..self
        }
    }
}
