// The numbers of a fit state have ranges (document 01; document 03, "State"), by the kind in force: each begins at 0.
ghost use Rattle.std.specs.Prelude.{◌≡◌, ◌≤◌};
ghost use Rattle.paste.specs.Ranges.{ranged, is_out, longest, own_ranged, second_ranged, bay_ranged, first_out, out_of};

use crate::Ranged;
use bay::Bay;
use kind::Kind;
use machine::{Machine, Shared};
use second::Second;

impl Ranged {
    // A number that is one byte of the image.
    fn byte(at: usize, value: u8, last: u8) -> Ranged
        ensures { result ≡ ranged at value last }
    {
        Ranged {
            at,
            value: u16::from(value),
            last: u16::from(last),
        }
    }

    fn is_out(self) -> bool
        ensures { result ≡ is_out self }
    {
        self.last < self.value
    }
}

// The longest pulse and the longest wait with a kind in force.
#[tactic(auto, unfolding(crate::specs::Ranges::longest))]
fn longest(kind: Kind) -> (u16, u16)
    ensures { result ≡ longest kind }
{
    match kind {
        Kind::First => (200, 255),
        Kind::Second => (1200, 560),
    }
}

// The numbers that a machine of either kind has once.
fn own_ranged(machine: Machine) -> [Ranged; 4]
    ensures { result ≡ own_ranged machine }
{
    let shared = machine.shared;
    [
        Ranged::byte(image::STRAPS, machine.straps, bits::straps::MOST),
        Ranged::byte(image::BAY_COUNT, shared.bay_count, Shared::MOST_BAYS),
        Ranged::byte(image::LOCK_TIME, shared.lock_time, Shared::MOST_LOCK_TIME),
        Ranged::byte(image::PHASE, machine.phase, Machine::PHASES - 1),
    ]
}

// The numbers of the second kind's own registers.
fn second_ranged(second: Second) -> [Ranged; Second::BAYS]
    ensures { result ≡ second_ranged second }
{
    let [first, other] = second.form_factors;
    [
        Ranged::byte(image::FORM_FACTORS, first, Second::MOST_FORM_FACTOR),
        Ranged::byte(image::FORM_FACTORS + 1, other, Second::MOST_FORM_FACTOR),
    ]
}

// The numbers of a bay, which begin there.
fn bay_ranged(start: usize, kind: Kind, bay: Bay) -> [Ranged; 7]
    requires { start ≤ 62 }
    ensures { result ≡ bay_ranged start kind bay }
{
    let (pulse, wait) = longest(kind);
    let [n1394, nusb, nremreq] = bay.counts;
    let counts = start + image::COUNTS;
    [
        Ranged::byte(counts, n1394, Bay::PRESENCE_TICKS - 1),
        Ranged::byte(counts + 1, nusb, Bay::PRESENCE_TICKS - 1),
        Ranged::byte(counts + 2, nremreq, Bay::REMREQ_TICKS - 1),
        Ranged::byte(start + image::STATE, bay.state, Bay::REMOVAL_ALLOWED),
        Ranged::byte(
            start + image::REQUEST,
            bay.control.request,
            Bay::REMOVAL_ALLOWED,
        ),
        Ranged {
            at: start + image::PULSE,
            value: bay.pulse,
            last: pulse,
        },
        Ranged {
            at: start + image::WAIT,
            value: bay.wait,
            last: wait,
        },
    ]
}

// The first of some numbers that is out of its range.
fn first_out(numbers: &[Ranged]) -> Option<Ranged>
    ensures { result ≡ first_out numbers.now }
{
    numbers.iter().find(|number| number.is_out()).copied()
}

// The first of a state's, in the image's order.
#[tactic(auto, using(crate::proofs::Fit::in_turn), unfolding(crate::specs::Ranges::out_of))]
pub(crate) fn out_of(machine: Machine) -> Option<Ranged>
    ensures { result ≡ out_of machine }
{
    let kind = machine.kind;
    let [bay_0, bay_1] = machine.bays;
    first_out(&own_ranged(machine))
        .or(first_out(&second_ranged(machine.second)))
        .or(first_out(&bay_ranged(image::NUMBERS_0, kind, bay_0)))
        .or(first_out(&bay_ranged(image::NUMBERS_1, kind, bay_1)))
}
