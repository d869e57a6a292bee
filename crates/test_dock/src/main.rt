// Runs the compiled controller through the bench examples of document 01 that no theorem has, the readings that it
// shuts out, every refusal of the single call and of the two questions, states that are fit though no event reaches
// them, and each field at the end of its range. It prints what was done, in the paper's notation, and what came back.
#![tactic(auto)]

mod events;
mod show;
mod states;

use bay::Bay;
use bus::Progress;
use dock::Controller;
use events::{byte, event, pins, reset, second_reset, start, stop, take, ten_ticks, tick, write};
use show::{answer, decimal, drives, given_back, line, put, reads, word};
use states::{bay, with, with_bay};
use std::io::Stdout;

fn two_data_bytes(out: Stdout) {
    let c = byte(out, byte(out, start(out, reset(out, 0xC0BF)), 0x90), 0x14);
    let d = stop(out, byte(out, byte(out, c, 0x04), 0x05));
    reads(out, d, 0x14);
    line(out);
    reads(out, write(out, reset(out, 0xC0BF), 0x14, 0x04), 0x14);
    line(out);
}

fn no_such_register(out: Stdout) {
    let c = byte(out, byte(out, start(out, reset(out, 0xC0BF)), 0x90), 0x41);
    let d = take(out, byte(out, start(out, c), 0x91));
    let e = write(out, d, 0x41, 0xFF);
    reads(out, e, 0x41);
    reads(out, e, 0x40);
    line(out);
}

fn own_address(out: Stdout) {
    byte(out, start(out, reset(out, 0xCCFF)), 0x96);
    line(out);
    byte(out, start(out, reset(out, 0xCCFF)), 0x90);
    line(out);
}

fn write_at_the_stop(out: Stdout) {
    let c = byte(
        out,
        byte(out, byte(out, start(out, reset(out, 0xC0BF)), 0x90), 0x14),
        0x04,
    );
    reads(out, c, 0x14);
    reads(out, stop(out, c), 0x14);
    line(out);
}

fn read_at_the_read_byte(out: Stdout) {
    let c = byte(out, byte(out, start(out, reset(out, 0xC0BF)), 0x90), 0x10);
    let d = ten_ticks(out, pins(out, byte(out, start(out, c), 0x91), 0xFF));
    reads(out, d, 0x10);
    take(out, d);
    line(out);
}

fn dbccr_once(out: Stdout) {
    let c = write(out, write(out, reset(out, 0xC0FF), 0x0C, 0x00), 0x0C, 0x12);
    reads(out, c, 0x0C);
    line(out);
}

fn command_ended(out: Stdout) {
    let c = byte(out, byte(out, start(out, reset(out, 0xC0BF)), 0x90), 0x14);
    byte(out, event(out, c, "TIMEOUT", 0xE000), 0x04);
    line(out);
    byte(out, start(out, start(out, reset(out, 0xC0BF))), 0x90);
    line(out);
}

// The whole answer of the single call, and whether the state came back as it was.
fn answered(out: Stdout, c: Controller, w: u16) {
    let s = c.step(w);
    answer(out, s.answer);
    given_back(out, s.controller == c);
}

fn single(out: Stdout, name: &str, c: Controller, w: u16) {
    put(out, name);
    put(out, ", ");
    word(out, w);
    answered(out, c, w);
    line(out);
}

fn fresh_takes_only_a_reset(out: Stdout) {
    let c = Controller::fresh();
    for w in [
        0x0000, 0x2000, 0x4090, 0x6000, 0x80FF, 0xA000, 0xE000, 0xC0BF, 0x0001,
    ] {
        single(out, "fresh", c, w);
    }
}

fn refusals(out: Stdout, c: Controller) {
    for w in [0xA000, 0x6000, 0x0001, 0x4190] {
        single(out, "started", c, w);
    }
    let unfit = with(c, |c| c.machine.phase = 200);
    for w in [0xA000, 0x0001, 0xC0BF] {
        single(out, "unfit", unfit, w);
    }
}

fn questions(out: Stdout, name: &str, c: Controller) {
    put(out, name);
    reads(out, c, 0x00);
    reads(out, c, 0x10);
    drives(out, c);
    line(out);
}

fn enabled_without_device(out: Stdout) {
    let c = with_bay(reset(out, 0xC0FF), 0, |b| b.state = Bay::ENABLED);
    put(out, ", state 2");
    reads(out, c, 0x10);
    drives(out, c);
    let d = tick(out, c);
    reads(out, d, 0x10);
    drives(out, d);
    let e = write(out, d, 0x14, 0x81);
    reads(out, e, 0x14);
    drives(out, e);
    line(out);
}

fn count_of_1394(out: Stdout, c: Controller) {
    put(out, ", count ");
    decimal(out, bay(c, 0).counts[Bay::N1394] as u16);
}

fn count_running_at_rest(out: Stdout) {
    let c = with_bay(reset(out, 0xC0FF), 0, |b| b.counts = [9, 0, 0]);
    put(out, ", count 9 of 1394");
    let d = tick(out, c);
    count_of_1394(out, d);
    reads(out, d, 0x10);
    count_of_1394(out, pins(out, d, 0xFF));
    line(out);
    put(out, "after that TICK,");
    let e = tick(out, pins(out, d, 0x7F));
    count_of_1394(out, e);
    reads(out, e, 0x10);
    line(out);
}

fn wait_of(out: Stdout, c: Controller) {
    put(out, ", wait ");
    decimal(out, bay(c, 0).wait);
}

fn wait_without_device(out: Stdout) {
    let c = with_bay(reset(out, 0xC0FF), 0, |b| b.wait = 2);
    wait_of(out, c);
    let d = tick(out, c);
    wait_of(out, d);
    reads(out, d, 0x10);
    let e = tick(out, d);
    wait_of(out, e);
    reads(out, e, 0x10);
    drives(out, e);
    let f = write(out, e, 0x14, 0x81);
    reads(out, f, 0x14);
    drives(out, f);
    line(out);
}

fn closed_and_not_empty(out: Stdout) {
    let open = write(out, reset(out, 0xC0FB), 0x1C, 0x24);
    reads(out, open, 0x18);
    drives(out, open);
    line(out);
    let c = with(open, |c| c.machine.shared.bay_count = 1);
    put(out, "the same with count 1");
    reads(out, c, 0x0C);
    reads(out, c, 0x18);
    reads(out, c, 0x1C);
    drives(out, c);
    let d = write(
        out,
        write(out, tick(out, pins(out, c, 0xFF)), 0x18, 0x04),
        0x1C,
        0x81,
    );
    put(out, ", bay 1");
    given_back(out, bay(d, 1) == bay(c, 1));
    line(out);
}

fn read_open_before_reset(out: Stdout) {
    let c = with(
        Controller::fresh(),
        |c| c.progress = Progress::Reading(0x55),
    );
    put(out, "fresh, a read of 55h open,");
    let d = take(out, c);
    given_back(out, d == c);
    let e = event(out, d, "RESET C0FF", 0xC0FF);
    take(out, e);
    line(out);
}

// A field at its last fit value, and one past it.
fn limit<T: Copy + Into<u16>, F: Fn(T) -> Controller>(
    out: Stdout,
    name: &str,
    last: T,
    past: T,
    with: F,
)
    requires { F.IsAlwaysCallable with }
{
    put(out, name);
    put(out, " ");
    decimal(out, last.into());
    put(out, ",");
    event(out, with(last), "TICK", 0xA000);
    put(out, "; ");
    decimal(out, past.into());
    let unfit = with(past);
    answered(out, unfit, 0xA000);
    reads(out, unfit, 0x10);
    drives(out, unfit);
    line(out);
}

fn bay_limits(out: Stdout, c: Controller, i: u8) {
    limit(out, "state", 4, 5, |n| with_bay(c, i, |b| b.state = n));
    limit(
        out,
        "request",
        4,
        5,
        |n| with_bay(c, i, |b| b.control.request = n),
    );
    limit(out, "pulse", 200, 201, |n| with_bay(c, i, |b| b.pulse = n));
    limit(out, "wait", 255, 256, |n| with_bay(c, i, |b| b.wait = n));
    limit(
        out,
        "count of 1394",
        9,
        10,
        |n| with_bay(c, i, |b| b.counts = [n, 0, 0]),
    );
    limit(
        out,
        "count of USB",
        9,
        10,
        |n| with_bay(c, i, |b| b.counts = [0, n, 0]),
    );
    limit(out, "count of removal request", 4, 5, |n| {
        with_bay(c, i, |b| b.counts = [0, 0, n])
    });
}

// With the second kind in force a pulse and a wait may be longer.
fn second_limits(out: Stdout, c: Controller, i: u8) {
    limit(
        out,
        "pulse",
        1200,
        1201,
        |n| with_bay(c, i, |b| b.pulse = n),
    );
    limit(out, "wait", 560, 561, |n| with_bay(c, i, |b| b.wait = n));
}

// 42h holds any byte.
fn any_wait(out: Stdout, c: Controller) {
    put(out, "wait 255 of either bay and of 42h,");
    let d = with(c, |c| {
        c.machine.bays[0].wait = 255;
        c.machine.bays[1].wait = 255;
        c.machine.shared.wait_time = 255;
    });
    let e = tick(out, d);
    wait_of(out, e);
    reads(out, e, 0x42);
    line(out);
}

fn limits(out: Stdout, c: Controller) {
    limit(out, "phase", 199, 200, |n| with(c, |c| c.machine.phase = n));
    limit(out, "straps", 15, 16, |n| with(c, |c| c.machine.straps = n));
    limit(
        out,
        "lock time",
        3,
        4,
        |n| with(c, |c| c.machine.shared.lock_time = n),
    );
    limit(
        out,
        "bay count",
        3,
        4,
        |n| with(c, |c| c.machine.shared.bay_count = n),
    );
    limit(out, "form factor of bay 0", 7, 8, |n| {
        with(c, |c| c.machine.second.form_factors = [n, 0])
    });
    limit(out, "form factor of bay 1", 7, 8, |n| {
        with(c, |c| c.machine.second.form_factors = [0, n])
    });
    put(out, "bay 0:\n");
    bay_limits(out, c, 0);
    put(out, "bay 1:\n");
    bay_limits(out, c, 1);
    any_wait(out, c);
}

fn main(rt: HostRuntime) {
    let out = rt.stdout();
    put(
        out,
        "Bench examples (in brackets: the reply, and a TAKE's byte)\n",
    );
    two_data_bytes(out);
    no_such_register(out);
    own_address(out);
    put(out, "Readings shut out\n");
    write_at_the_stop(out);
    read_at_the_read_byte(out);
    dbccr_once(out);
    command_ended(out);
    put(
        out,
        "Single call: state, word: refusal reply byte outputs\n",
    );
    fresh_takes_only_a_reset(out);
    put(out, "started is ");
    let c = write(out, reset(out, 0xC0BF), 0x14, 0x04);
    put(out, "; unfit is that with phase 200\n");
    refusals(out, c);
    put(out, "Questions\n");
    questions(out, "fresh", Controller::fresh());
    questions(out, "started", c);
    questions(out, "unfit", with(c, |c| c.machine.phase = 200));
    put(out, "Fit states that no event reaches\n");
    enabled_without_device(out);
    count_running_at_rest(out);
    wait_without_device(out);
    closed_and_not_empty(out);
    read_open_before_reset(out);
    put(
        out,
        "Each field of started at its last fit value, and one past it\n",
    );
    limits(out, c);
    put(out, "The same of ");
    let d = second_reset(out, 0xC0BF);
    put(out, "\nbay 0:\n");
    second_limits(out, d, 0);
    put(out, "bay 1:\n");
    second_limits(out, d, 1);
}
