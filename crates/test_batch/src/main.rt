// The batch on the compiled code: document 01's examples of answer buffers, and the records of its twelve words.
#![tactic(auto)]

use batch::Batched;
use dock::Controller;
use std::io;
use std::io::Stdout;

// The words of the twelve-word example.
const WORDS: [u16; 12] = [
    0xC0BF, 0x0000, 0x4090, 0x4014, 0x4004, 0x2000, 0x0000, 0x4090, 0x4010, 0x0000, 0x4091, 0x6000,
];

fn say(out: Stdout, name: &str, done: Batched) -> io::Result<()> {
    let refusal = calls::number(done.outcome);
    let count = calls::count(done.outcome);
    print!(out; "{name}: refusal {refusal}, count {count}, buffer")
}

fn show(out: Stdout, buffer: &[u8]) -> io::Result<()> {
    for (i, byte) in buffer.iter().enumerate() {
        if i % 4 == 0 {
            print!(out; " ")?;
        }
        print!(out; "{byte:02x}")?;
    }
    println!(out; "")
}

fn main(rt: HostRuntime) -> io::Result<()> {
    let out = rt.stdout();
    let words = WORDS;
    let mut short = [0xEEu8; 11];
    say(
        out,
        "3 words, 11 bytes",
        batch::batch(Controller::fresh(), &words[..3], &mut short),
    )?;
    show(out, &short)?;
    let mut exact = [0xEEu8; 12];
    say(
        out,
        "3 words, 12 bytes",
        batch::batch(Controller::fresh(), &words[..3], &mut exact),
    )?;
    show(out, &exact)?;
    let mut roomy = [0xEEu8; 15];
    say(
        out,
        "3 words, 15 bytes",
        batch::batch(Controller::fresh(), &words[..3], &mut roomy),
    )?;
    show(out, &roomy)?;
    let mut none = [0xEEu8; 2];
    say(
        out,
        "no words, 2 bytes",
        batch::batch(Controller::fresh(), &words[..0], &mut none),
    )?;
    show(out, &none)?;
    let mut all = [0xEEu8; 48];
    say(
        out,
        "12 words, 48 bytes",
        batch::batch(Controller::fresh(), &words, &mut all),
    )?;
    show(out, &all)?;
    let mut damaged = Controller::fresh();
    damaged.machine.phase = 200;
    let mut kept = [0xEEu8; 4];
    say(
        out,
        "phase 200, 1 word",
        batch::batch(damaged, &words[..1], &mut kept),
    )?;
    show(out, &kept)
}
