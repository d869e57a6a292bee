// What is made of what the lines show: nine bits become a byte from the host, or a TAKE.
ghost use Rattle.std.specs.Prelude.{◌≡◌, ◌<◌};
ghost use Rattle.wire.specs.Nine.{listens, waiting, dropped, told, joined, eighth, collects, after_ninth, at_ninth, ninth, bit_to, tells};

use crate::{Ear, Listening, Shown, Told};
use bits::has;
use event::Event;

impl Listening {
    // Bits count.
    fn listens(self) -> bool
        ensures { result ≡ listens self }
    {
        self != Listening::Nothing
    }

    // What the eighth bit gives: a byte from the host is whole.
    fn eighth(self, value: u8) -> Option<Event>
        ensures { result ≡ eighth self value }
    {
        match self {
            Listening::FirstByte | Listening::Bytes => Some(Event::Byte(value)),
            Listening::Nothing | Listening::Takes => None,
        }
    }

    // What the ninth gives: low is the ACK of a host that clocks a byte in; of the host's own byte it is passed over.
    fn ninth(self, sdat: bool) -> Option<Event>
        ensures { result ≡ at_ninth self «sdat» }
    {
        match self {
            Listening::Takes => Some(Event::Take(!sdat)),
            Listening::Nothing | Listening::FirstByte | Listening::Bytes => None,
        }
    }

    // What is listened for after that: the lowest bit of a first byte decides.
    fn after_ninth(self, value: u8) -> Listening
        ensures { result ≡ after_ninth self value }
    {
        match self {
            Listening::FirstByte if has(value, 1) => Listening::Takes,
            Listening::FirstByte => Listening::Bytes,
            Listening::Nothing | Listening::Bytes | Listening::Takes => self,
        }
    }
}

impl Ear {
    // The bits of a byte; one more is the ninth.
    pub const BITS: u8 = 8;

    // Nothing has come yet of what is listened for.
    pub(crate) fn waiting(listening: Listening) -> Ear
        ensures { result ≡ waiting listening }
    {
        Ear {
            listening,
            bits: 0,
            value: 0,
        }
    }

    // What has come of a byte is dropped.
    fn dropped(self, listening: Listening) -> Ear
        ensures { result ≡ dropped self listening }
    {
        Ear::waiting(listening)
    }

    // A bit below those before it.
    fn joined(value: u8, sdat: bool) -> u8
        ensures { result ≡ joined value «sdat» }
    {
        value % 128 * 2 + u8::from(sdat)
    }

    // One of the first eight bits, most significant first.
    fn collects(self, sdat: bool) -> Told
        requires { self.bits < 8 }
        ensures { result ≡ collects self «sdat» }
    {
        let bits = self.bits + 1;
        let value = Ear::joined(self.value, sdat);
        let given = if bits < Ear::BITS {
            None
        } else {
            self.listening.eighth(value)
        };
        Told {
            ear: Ear {
                bits,
                value,
                ..self
            },
            given,
        }
    }

    // The ninth.
    fn ninth(self, sdat: bool) -> Told
        ensures { result ≡ ninth self «sdat» }
    {
        Told {
            ear: Ear::waiting(self.listening.after_ninth(self.value)),
            given: self.listening.ninth(sdat),
        }
    }

    // A bit.
    #[tactic(auto, unfolding(crate::specs::Nine::bit_to))]
    fn bit(self, sdat: bool) -> Told
        ensures { result ≡ bit_to self «sdat» }
    {
        if !self.listening.listens() {
            return Told {
                ear: self,
                given: None,
            };
        }
        if self.bits < Ear::BITS {
            self.collects(sdat)
        } else {
            self.ninth(sdat)
        }
    }

    // START, STOP and TIMEOUT drop what has come of a byte.
    fn dropped_at(self, listening: Listening, event: Event) -> Told
        ensures { result ≡ told (dropped self listening) (Some event) }
    {
        Told {
            ear: self.dropped(listening),
            given: Some(event),
        }
    }

    // What the lines show.
    #[tactic(auto, unfolding(crate::specs::Nine::tells))]
    pub(crate) fn hears(self, shown: Shown) -> Told
        ensures { result ≡ tells self (Some shown) }
    {
        match shown {
            Shown::Start => self.dropped_at(Listening::FirstByte, Event::Start),
            Shown::Stop => self.dropped_at(Listening::Nothing, Event::Stop),
            Shown::Timeout => self.dropped_at(Listening::Nothing, Event::Timeout),
            Shown::Bit(sdat) => self.bit(sdat),
        }
    }
}
