// The two lines, sample by sample: what moved, and for how long SCLK has been low.
ghost use Rattle.std.specs.Prelude.{◌≡◌};
ghost use Rattle.wire.specs.Levels.{sclk, sdat, lines_after, while_high, shown_by};

use crate::{Lines, Shown};
use bits::has;

// The lines in a sample byte; its other bits are ignored.
fn sclk(sample: u8) -> bool
    ensures { result ≡ sclk sample }
{
    has(sample, 2)
}

fn sdat(sample: u8) -> bool
    ensures { result ≡ sdat sample }
{
    has(sample, 1)
}

// SDAT before and now, while SCLK stays high.
fn while_high(before: bool, now: bool) -> Option<Shown>
    ensures { result ≡ while_high before «now» }
{
    match (before, now) {
        (true, false) => Some(Shown::Start),
        (false, true) => Some(Shown::Stop),
        (true, true) | (false, false) => None,
    }
}

impl Lines {
    // SCLK may be low for so many samples in a row, which are 35 ms.
    pub const MOST_LOW: u16 = 17500;

    // The lines after a sample. One more low sample than there may be is counted, and no further one.
    #[tactic(auto, unfolding(crate::specs::Levels::lines_after))]
    pub(crate) fn after(self, sample: u8) -> Lines
        ensures { result ≡ lines_after self sample }
    {
        let sdat = sdat(sample);
        if sclk(sample) {
            return Lines { sdat, low: 0 };
        }
        let low = if self.low <= Lines::MOST_LOW {
            self.low + 1
        } else {
            self.low
        };
        Lines { sdat, low }
    }

    // What a sample shows.
    #[tactic(auto, unfolding(crate::specs::Levels::shown_by))]
    pub(crate) fn shown(self, sample: u8) -> Option<Shown>
        ensures { result ≡ shown_by self sample }
    {
        if !sclk(sample) {
            return if self.low == Lines::MOST_LOW {
                Some(Shown::Timeout)
            } else {
                None
            };
        }
        if 0 < self.low {
            return Some(Shown::Bit(sdat(sample)));
        }
        while_high(self.sdat, sdat(sample))
    }
}
