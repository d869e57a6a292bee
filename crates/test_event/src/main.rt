// Goes through all 65,536 words, and through all 131,072 RESET events, with the compiled code, and prints counts that a
// reader can hold against the table of document 01, "Event words", with bit 12 of RESET as document 02, request 4, has it.
#![tactic(auto)]

use event::Event;
use std::io;
use std::io::Stdout;

#[derive(Clone, Copy, Default)]
struct Tally {
    accepted: u32,
    // Accepted, and converted back to what it was.
    same: u32,
    refused: u32,
    // A RESET that asks for the short pulse.
    short: u32,
}

// One more where `yes`: no count of this program comes near its width.
fn counted(n: u32, yes: bool) -> u32 {
    n.wrapping_add(yes as u32)
}

fn unpacks_and_packs_back(word: u16) -> bool {
    event::unpack(word).is_ok_and(|event| event::pack(event) == Ok(word))
}

fn asks_for_short(word: u16) -> bool {
    matches!(
        event::unpack(word),
        Ok(Event::Reset {
            short_pulse: true,
            ..
        })
    )
}

fn with_word(t: Tally, word: u16) -> Tally {
    let unpacked = event::unpack(word);
    Tally {
        accepted: counted(t.accepted, unpacked.is_ok()),
        same: counted(t.same, unpacks_and_packs_back(word)),
        refused: counted(t.refused, matches!(unpacked, Err(why) if why.number() == 2)),
        short: counted(t.short, asks_for_short(word)),
    }
}

fn with_reset(t: Tally, straps: u8, levels: u8, short_pulse: bool) -> Tally {
    let event = Event::Reset {
        straps,
        levels,
        short_pulse,
    };
    let packed = event::pack(event);
    let word = event::packed_word(event);
    Tally {
        accepted: counted(t.accepted, packed.is_ok()),
        same: counted(t.same, packed.is_ok() && event::unpack(word) == Ok(event)),
        refused: counted(
            t.refused,
            matches!(packed, Err(why) if why.number() == 6) && word == 0,
        ),
        short: counted(t.short, asks_for_short(word)),
    }
}

fn words(from: u32, to: u32) -> Tally {
    (from..to).fold(Tally::default(), |t, n| with_word(t, (n % 65536) as u16))
}

fn resets(from: u32, to: u32, short_pulse: bool) -> Tally {
    (from..to).fold(Tally::default(), |t, n| {
        with_reset(t, (n / 256 % 256) as u8, (n % 256) as u8, short_pulse)
    })
}

fn row(out: Stdout, name: &str, t: Tally) -> io::Result<()> {
    println!(out;
        "{name}\t{}\t{}\t{}\t{}",
        t.accepted, t.same, t.refused, t.short
    )
}

fn main(rt: HostRuntime) -> io::Result<()> {
    let out = rt.stdout();
    println!(out; "words of kind\taccepted\tback the same\trefused with 2\tshort pulse")?;
    row(out, "0 START", words(0x0000, 0x2000))?;
    row(out, "1 STOP", words(0x2000, 0x4000))?;
    row(out, "2 BYTE", words(0x4000, 0x6000))?;
    row(out, "3 TAKE", words(0x6000, 0x8000))?;
    row(out, "4 PINS", words(0x8000, 0xA000))?;
    row(out, "5 TICK", words(0xA000, 0xC000))?;
    row(out, "6 RESET", words(0xC000, 0xE000))?;
    row(out, "7 TIMEOUT", words(0xE000, 0x10000))?;
    row(out, "all", words(0, 0x10000))?;
    println!(out; "RESET events\tpacked\tback the same\trefused with 6 and word 0\tshort pulse")?;
    row(out, "straps 0-15", resets(0x0000, 0x1000, false))?;
    row(out, "straps 16-255", resets(0x1000, 0x10000, false))?;
    row(out, "straps 0-15, short", resets(0x0000, 0x1000, true))?;
    row(out, "straps 16-255, short", resets(0x1000, 0x10000, true))
}
