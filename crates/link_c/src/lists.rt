// One to four states that the caller holds, as the bytes of their images.
ghost use Rattle.std.specs.Prelude.{◌≡◌};
ghost use Rattle.link.specs.Lists.{told_in, list_in, chassis_as};

// One event for one to four states on one bus; PINS and RESET are for the one that is named, counted from 0.
#[unsafe(no_mangle)]
pub extern "C" fn dock_chassis_step(states: &mut [u8], named: usize, word: u16) -> u64
    ensures value { result ≡ chassis_as (told_in states.old named word) }
    ensures states_after { states.new ≡ list_in states.old named word }
{
    link::lists::dock_chassis_step(states, named, word)
}
