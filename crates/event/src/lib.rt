// Event words (document 01, "Event words"): what can happen to a controller, one kind with its own
// data, and its packing into 16 bits. `specs/Words.antt` has the table and what each call answers.
#![tactic(auto)]

ghost use Rattle.std.specs.Prelude.{◌≡◌, ◌<◌, ◌≤◌, ◌+◌, ◌*◌, ◌^◌, Err};
ghost use Rattle.bits.specs.Straps.{MOST_STRAPS};
ghost use Rattle.event.specs.Words.{KIND, bits_of, event_of, unpacked, is_reset, is_reset_word, reset_data, packed, pack_word, unpack_refusal, pack_refusal};

use bits::straps;

#[derive(Clone, Copy, PartialEq, Eq)]
pub enum Event {
    Start,
    Stop,
    // A byte from the host.
    Byte(u8),
    // The host clocks a byte in, and ACKs it or not.
    Take(bool),
    // Levels: n1394, nUSB, nREMREQ, nSL of bay 0, then of bay 1; 0 is asserted.
    Pins(u8),
    Tick,
    // Straps: SMB_A1, SMB_A0, LOCK_DEF, LOCK_MODE. The short pulse, LETR 0 at first, is asked for or not.
    Reset {
        straps: u8,
        levels: u8,
        short_pulse: bool,
    },
    // SCLK held low too long.
    Timeout,
}

// A word with a bit set that must be 0.
#[derive(Clone, Copy, PartialEq, Eq)]
pub struct NoEvent;

// An event whose straps exceed 15.
#[derive(Clone, Copy, PartialEq, Eq)]
pub struct NoWord;

impl Event {
    // One more in bits 15-13, the kind.
    pub const KIND: u16 = 8192;
    // Bit 12 of a RESET, and one more in bits 11-8, its straps.
    const SHORT_PULSE: u16 = 4096;

    const STRAPS: u16 = 256;

    const RESET: u16 = 6;
    // How many values the data of each kind can have: the bits above them must be 0.
    const ROOM: [u16; 8] = [1, 1, 256, 2, 256, 1, 8192, 1];

    pub fn is_reset(self) -> bool
        ensures { result ≡ is_reset self }
    {
        matches!(self, Event::Reset { .. })
    }
}

// Whether a word is a RESET's, by its kind.
pub fn resets(word: u16) -> bool
    ensures { result ≡ is_reset_word word }
{
    word / Event::KIND == Event::RESET
}

fn room(kind: u16) -> u16
    requires { kind < 8 }
    ensures { result ≡ 2 ^ bits_of kind }
{
    Event::ROOM[kind as usize]
}

fn event_of(kind: u16, field: u16) -> Event
    requires { field < 2 ^ bits_of kind }
    ensures { result ≡ event_of kind field }
{
    match kind {
        0 => Event::Start,
        1 => Event::Stop,
        2 => Event::Byte(field as u8),
        3 => Event::Take(field == 1),
        4 => Event::Pins(field as u8),
        5 => Event::Tick,
        6 => Event::Reset {
            straps: (field / Event::STRAPS % 16) as u8,
            levels: (field % Event::STRAPS) as u8,
            short_pulse: field / Event::SHORT_PULSE % 2 == 1,
        },
        _ => Event::Timeout,
    }
}

// The event of a word, unless a bit that must be 0 is set.
#[tactic(auto, unfolding(crate::specs::Words::unpacked))]
pub fn unpack(word: u16) -> Result<Event, NoEvent>
    ensures { result ≡ unpacked word }
{
    let kind = word / Event::KIND;
    let field = word % Event::KIND;
    if field < room(kind) {
        Ok(event_of(kind, field))
    } else {
        Err(NoEvent)
    }
}

// The word of a kind and its data.
fn word(kind: u16, field: u16) -> u16
    requires { (kind < 8) × (field < KIND) }
    ensures { result ≡ kind * KIND + field }
{
    kind * Event::KIND + field
}

// The data of a RESET, most significant field first.
fn reset_data(straps: u8, levels: u8, short_pulse: bool) -> u16
    requires { straps ≤ MOST_STRAPS }
    ensures value { result ≡ reset_data straps levels short_pulse }
    ensures small { result < KIND }
{
    let data = straps as u16 * Event::STRAPS + levels as u16;
    if short_pulse {
        Event::SHORT_PULSE + data
    } else {
        data
    }
}

// The word of an event, unless its straps exceed 15.
#[tactic(auto, unfolding(crate::specs::Words::packed, crate::specs::Words::word_of, crate::specs::Words::straps_of))]
pub fn pack(event: Event) -> Result<u16, NoWord>
    ensures { result ≡ packed event }
{
    Ok(match event {
        Event::Start => word(0, 0),
        Event::Stop => word(1, 0),
        Event::Byte(b) => word(2, b as u16),
        Event::Take(ack) => word(3, u16::from(ack)),
        Event::Pins(p) => word(4, p as u16),
        Event::Tick => word(5, 0),
        Event::Reset {
            straps,
            levels,
            short_pulse,
        } => {
            if straps::MOST < straps {
                return Err(NoWord);
            }
            word(6, reset_data(straps, levels, short_pulse))
        }
        Event::Timeout => word(7, 0),
    })
}

// The word of an event, 0 where it has none.
pub fn packed_word(event: Event) -> u16
    ensures { result ≡ pack_word (packed event) }
{
    pack(event).unwrap_or(0)
}

impl NoEvent {
    const NUMBER: u8 = 2;

    // The paper's number.
    pub fn number(self) -> u8
        ensures { result ≡ unpack_refusal (Err self) }
    {
        Self::NUMBER
    }
}

impl NoWord {
    const NUMBER: u8 = 6;

    // The paper's number.
    pub fn number(self) -> u8
        ensures { result ≡ pack_refusal (Err self) }
    {
        Self::NUMBER
    }
}
