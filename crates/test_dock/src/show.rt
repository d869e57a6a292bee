// What came back, as text.
use dock::{Answer, Controller, Numbers};
use std::io::Stdout;

pub(crate) fn put(out: Stdout, text: &str) {
    let _ = print!(out; "{text}");
}

// The end of a line.
pub(crate) fn line(out: Stdout) {
    put(out, "\n");
}

pub(crate) fn decimal(out: Stdout, n: u16) {
    let _ = print!(out; "{n}");
}

pub(crate) fn hex(out: Stdout, n: u8) {
    let _ = print!(out; "{n:02X}");
}

pub(crate) fn word(out: Stdout, n: u16) {
    let _ = print!(out; "{n:04X}");
}

// Outputs have nine bits: three digits.
fn three(out: Stdout, n: u16) {
    let _ = print!(out; "{n:03X}");
}

// The reply in brackets, with the byte of a TAKE, or the refusal.
pub(crate) fn reply(out: Stdout, a: Answer) {
    let Numbers {
        refusal,
        reply,
        byte,
        ..
    } = Numbers::from(a);
    if refusal > 0 {
        put(out, " refused ");
        decimal(out, refusal as u16);
        return;
    }
    put(out, "(");
    decimal(out, reply as u16);
    if reply > 2 {
        put(out, " ");
        hex(out, byte);
    }
    put(out, ")");
}

// The four numbers of an answer.
pub(crate) fn answer(out: Stdout, a: Answer) {
    let Numbers {
        refusal,
        reply,
        byte,
        outputs,
    } = Numbers::from(a);
    put(out, ": ");
    decimal(out, refusal as u16);
    put(out, " ");
    decimal(out, reply as u16);
    put(out, " ");
    hex(out, byte);
    put(out, " ");
    three(out, outputs);
}

pub(crate) fn given_back(out: Stdout, same: bool) {
    put(out, if same { " as given" } else { " next state" });
}

// One register, asked outside the bus; 0 beside a refusal.
pub(crate) fn reads(out: Stdout, c: Controller, address: u8) {
    put(out, ", ");
    hex(out, address);
    let told = c.reading(address);
    match told {
        Ok(_) => put(out, "h reads "),
        Err(refusal) => {
            put(out, "h refused ");
            decimal(out, refusal.number() as u16);
            put(out, " with ");
        }
    }
    hex(out, (told.unwrap_or(0) % 256) as u8);
    put(out, "h");
}

// The outputs, asked outside the bus.
pub(crate) fn drives(out: Stdout, c: Controller) {
    put(out, ", outputs ");
    let told = c.outputs();
    if let Err(refusal) = told {
        put(out, "refused ");
        decimal(out, refusal.number() as u16);
        put(out, " with ");
    }
    three(out, told.unwrap_or(0));
}
