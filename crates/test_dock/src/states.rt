// States that no event makes: a state with one field set.
use bay::Bay;
use dock::Controller;

pub(crate) fn bay(c: Controller, i: u8) -> Bay {
    if i == 0 {
        c.machine.bays[0]
    } else {
        c.machine.bays[1]
    }
}

// The state with a field of bay i set.
pub(crate) fn with_bay<F: FnOnce(&mut Bay)>(mut c: Controller, i: u8, set: F) -> Controller
    requires { F.IsAlwaysCallable set }
{
    if i == 0 {
        set(&mut c.machine.bays[0]);
    } else {
        set(&mut c.machine.bays[1]);
    }
    c
}

// .. with a field of the machine or of the command in progress set.
pub(crate) fn with<F: FnOnce(&mut Controller)>(mut c: Controller, set: F) -> Controller
    requires { F.IsAlwaysCallable set }
{
    set(&mut c);
    c
}
