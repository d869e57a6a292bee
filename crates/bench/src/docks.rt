// The docks on the bus by their numbers: a record and levels for each.
ghost use Rattle.std.specs.Prelude.{◌≡◌, cond, ltb, set, unwrap_or};
ghost use Rattle.std.specs.List.{slice_get};
ghost use Rattle.chassis.specs.Judge.{MOST};
ghost use Rattle.bench.specs.Docks.{record_at, with_record};
ghost use Rattle.bench.specs.Orders.{is_there};

use crate::Bench;
use chassis::{Chassis, MOST};
use dock::Controller;

// Before any are given, no input is asserted.
pub(crate) const AT_REST: u8 = 0xFF;

// What stands at a number; at one that has no place, what stands in for it.
pub(crate) fn place_at<T: Copy>(places: [T; MOST], dock: u8, missing: T) -> T
    ensures { result ≡ unwrap_or (slice_get places dock) missing }
{
    let at = places.get(usize::from(dock)).copied();
    at.unwrap_or(missing)
}

// Another at it.
pub(crate) fn with_place<T: Copy>(mut places: [T; MOST], dock: u8, given: T) -> [T; MOST]
    ensures { result ≡ cond (ltb dock MOST) (set places dock given) places }
{
    let at = usize::from(dock);
    if at < MOST {
        places[at] = given;
    }
    places
}

// The record of a number; one that has no place is a fresh dock's.
#[tactic(auto, unfolding(crate::specs::Docks::record_at))]
pub(crate) fn record_at(chassis: Chassis, dock: u8) -> Controller
    ensures { result ≡ record_at dock chassis }
{
    place_at(chassis.records, dock, Controller::fresh())
}

// Another record at it.
#[tactic(auto, unfolding(crate::specs::Docks::with_record))]
pub(crate) fn with_record(chassis: Chassis, dock: u8, controller: Controller) -> Chassis
    ensures { result ≡ with_record dock controller chassis }
{
    Chassis {
        records: with_place(chassis.records, dock, controller),
        ..chassis
    }
}

// The number is one of the docks on the bus.
pub(crate) fn is_on(chassis: Chassis, dock: u8) -> bool
    ensures { result ≡ ltb dock chassis.count }
{
    usize::from(dock) < chassis.count
}

// The chosen dock is.
#[tactic(auto, unfolding(crate::specs::Orders::is_there))]
pub(crate) fn is_there(bench: Bench) -> bool
    ensures { result ≡ is_there bench }
{
    is_on(bench.chassis, bench.dock)
}
