// Debounce (document 01, "Bay moves"): what PINS and a TICK make of an input.
ghost use Rattle.std.specs.Prelude.{◌≡◌, ◌<◌};
ghost use Rattle.bay.specs.Record.{ticks_for};
ghost use Rattle.bay.specs.Debounce.{debounce, restart, sampled_bay};

use crate::{Bay, Input};
use bits::has;

// For how many ticks the level of an input must differ before it is accepted.
pub(crate) fn ticks_for(input: usize) -> u8
    ensures { result ≡ ticks_for input }
{
    if input == Bay::NREMREQ {
        Bay::REMREQ_TICKS
    } else {
        Bay::PRESENCE_TICKS
    }
}

// A TICK: a count whose level differs rises by one; at `length` the level is accepted and the count is 0.
#[tactic(auto, unfolding(crate::specs::Debounce::debounce))]
pub(crate) fn debounced(length: u8, level: bool, accepted: bool, count: u8) -> Input
    requires { 0 < length }
    ensures { result ≡ debounce length level accepted count }
{
    if level == accepted {
        return Input {
            accepted,
            count,
            settled: false,
        };
    }
    if count < length - 1 {
        return Input {
            accepted,
            count: count + 1,
            settled: false,
        };
    }
    Input {
        accepted: level,
        count: 0,
        settled: true,
    }
}

// A sample: the count is 0 where the level is the accepted one.
#[tactic(auto, unfolding(crate::specs::Debounce::restart))]
fn restarted(level: bool, accepted: bool, count: u8) -> u8
    ensures { result ≡ restart level accepted count }
{
    if level == accepted { 0 } else { count }
}

impl Bay {
    // PINS, with the bay's four levels, nSL lowest.
    #[tactic(auto, unfolding(crate::specs::Debounce::sampled_bay))]
    pub fn sampled(self, levels: u8) -> Bay
        ensures { result ≡ sampled_bay levels self }
    {
        let n1394 = has(levels, 8);
        let nusb = has(levels, 4);
        let nremreq = has(levels, 2);
        Bay {
            levels: [n1394, nusb, nremreq],
            counts: [
                restarted(n1394, self.accepted[Bay::N1394], self.counts[Bay::N1394]),
                restarted(nusb, self.accepted[Bay::NUSB], self.counts[Bay::NUSB]),
                restarted(
                    nremreq,
                    self.accepted[Bay::NREMREQ],
                    self.counts[Bay::NREMREQ],
                ),
            ],
            n_sl: has(levels, 1),
            ..self
        }
    }
}
