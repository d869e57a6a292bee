// How the records of a list stand on the bus, looked at one after the other.
ghost use Rattle.std.specs.Prelude.{◌≡◌, length};
ghost use Rattle.chassis.specs.Judge.{nobody};
ghost use Rattle.chassis.specs.Looking.{looked_at, begun, seen_with, seen_to};

use crate::{MOST, Seen};
use dock::{Controller, Standing};

// Of a list of the wrong length no record is looked at.
fn looked_at(records: usize) -> usize
    ensures { result ≡ looked_at records }
{
    if records <= MOST { records } else { 0 }
}

// A place without a record: fit and not started, so that it is never in the way.
fn nobody() -> Standing
    ensures { result ≡ nobody }
{
    Standing {
        fit: true,
        started: false,
        address: 0,
        reading: false,
    }
}

impl Seen {
    pub fn begun() -> Seen
        ensures { result ≡ begun }
    {
        Seen {
            standings: [nobody(); MOST],
            count: 0,
        }
    }

    // One record more.
    pub fn with(self, controller: Controller) -> Seen
        ensures { result ≡ seen_with self controller }
    {
        let count = self.count;
        if count < MOST {
            let mut standings = self.standings;
            standings[count] = controller.standing();
            return Seen {
                standings,
                count: count + 1,
            };
        }
        self
    }
}

pub(crate) fn look(list: &[Controller]) -> Seen
    ensures { result ≡ seen_to begun (looked_at (length list.now)) list.now }
{
    let mut seen = Seen::begun();
    for controller in &list[..looked_at(list.len())] {
        seen = seen.with(*controller);
    }
    seen
}
