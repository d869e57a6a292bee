// Events, each printed with its reply.
use crate::show::{hex, put, reply, word};
use dock::Controller;
use std::io::Stdout;

fn stepped(out: Stdout, c: Controller, w: u16) -> Controller {
    let s = c.step(w);
    reply(out, s.answer);
    s.controller
}

// A RESET word, to a fresh controller for which the second kind is named.
pub(crate) fn second_reset(out: Stdout, w: u16) -> Controller {
    put(out, "name 2, RESET ");
    word(out, w);
    stepped(out, Controller::fresh().name(2).controller, w)
}

// A RESET word, to a fresh controller.
pub(crate) fn reset(out: Stdout, w: u16) -> Controller {
    put(out, "RESET ");
    word(out, w);
    stepped(out, Controller::fresh(), w)
}

pub(crate) fn event(out: Stdout, c: Controller, name: &str, w: u16) -> Controller {
    put(out, " ");
    put(out, name);
    stepped(out, c, w)
}

pub(crate) fn byte(out: Stdout, c: Controller, value: u8) -> Controller {
    put(out, " ");
    hex(out, value);
    stepped(out, c, 0x4000 + value as u16)
}

pub(crate) fn start(out: Stdout, c: Controller) -> Controller {
    event(out, c, "START", 0x0000)
}

pub(crate) fn stop(out: Stdout, c: Controller) -> Controller {
    event(out, c, "STOP", 0x2000)
}

pub(crate) fn take(out: Stdout, c: Controller) -> Controller {
    event(out, c, "TAKE", 0x6000)
}

pub(crate) fn tick(out: Stdout, c: Controller) -> Controller {
    event(out, c, "TICK", 0xA000)
}

pub(crate) fn ten_ticks(out: Stdout, c: Controller) -> Controller {
    (0..10).fold(c, |c, _| tick(out, c))
}

pub(crate) fn pins(out: Stdout, c: Controller, levels: u8) -> Controller {
    put(out, " PINS ");
    hex(out, levels);
    stepped(out, c, 0x8000 + levels as u16)
}

// A whole write, with no word of its replies.
pub(crate) fn write(out: Stdout, c: Controller, register: u8, value: u8) -> Controller {
    put(out, ", w ");
    hex(out, register);
    put(out, "=");
    hex(out, value);
    [
        0x0000,
        0x4090,
        0x4000 + register as u16,
        0x4000 + value as u16,
        0x2000,
    ]
    .into_iter()
    .fold(c, |c, w| c.step(w).controller)
}
