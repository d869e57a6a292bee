// A state as bytes, in the layout's order.
ghost use Rattle.std.specs.Prelude.{◌≡◌};
ghost use Rattle.dock.specs.Record.{fresh_controller};
ghost use Rattle.image.specs.Save.{progress_bytes, saved};

use bay::Bay;
use bus::Progress;
use dock::Controller;
use pairs::two_bytes;

// Which command in progress, and the bytes that it holds.
#[tactic(auto, unfolding(crate::specs::Save::progress_bytes))]
fn progress_bytes(progress: Progress) -> [u8; 3]
    ensures { result ≡ progress_bytes progress }
{
    match progress {
        Progress::Idle => [crate::IDLE, 0, 0],
        Progress::Opened => [crate::OPENED, 0, 0],
        Progress::Addressed => [crate::ADDRESSED, 0, 0],
        Progress::Register(register) => [crate::REGISTER, register, 0],
        Progress::Data { register, value } => [crate::DATA, register, value],
        Progress::Again(register) => [crate::AGAIN, register, 0],
        Progress::Reading(value) => [crate::READING, value, 0],
        Progress::Writing(register) => [crate::WRITING, register, 0],
        Progress::Sending { register, value } => [crate::SENDING, register, value],
    }
}

// The image of a fresh controller: the levels are 1 and the rest 0.
#[tactic(auto, unfolding(crate::specs::Save::saved, crate::specs::Save::progress_bytes, dock::specs::Record::fresh_controller, machine::specs::Record::fresh_machine, second::specs::Record::fresh, bay::specs::Record::empty_bay))]
pub fn fresh() -> [u8; crate::BYTES]
    ensures { result ≡ saved fresh_controller }
{
    let mut image = [0; crate::BYTES];
    image[crate::VERSION] = crate::LAYOUT;
    image[crate::FLAGS_0 + crate::LEVELS] = 1;
    image[crate::FLAGS_0 + crate::LEVELS + 1] = 1;
    image[crate::FLAGS_0 + crate::LEVELS + 2] = 1;
    image[crate::FLAGS_0 + crate::ACCEPTED] = 1;
    image[crate::FLAGS_0 + crate::ACCEPTED + 1] = 1;
    image[crate::FLAGS_0 + crate::ACCEPTED + 2] = 1;
    image[crate::FLAGS_0 + crate::N_SL] = 1;
    image[crate::FLAGS_1 + crate::LEVELS] = 1;
    image[crate::FLAGS_1 + crate::LEVELS + 1] = 1;
    image[crate::FLAGS_1 + crate::LEVELS + 2] = 1;
    image[crate::FLAGS_1 + crate::ACCEPTED] = 1;
    image[crate::FLAGS_1 + crate::ACCEPTED + 1] = 1;
    image[crate::FLAGS_1 + crate::ACCEPTED + 2] = 1;
    image[crate::FLAGS_1 + crate::N_SL] = 1;
    image
}

// The image of a state, fit or not.
#[tactic(auto, using(crate::proofs::Bytes::put_together))]
pub fn save(controller: Controller) -> [u8; crate::BYTES]
    ensures { result ≡ saved controller }
{
    let machine = controller.machine;
    let kind = machine.kind;
    let named = machine.named;
    let shared = machine.shared;
    let second = machine.second;
    let bays = machine.bays;
    let bay_0 = bays[0];
    let bay_1 = bays[1];
    let command = controller.progress;
    let second_in_force = kind.is_second();
    let second_named = named.is_second();
    let pulse_0 = two_bytes(bay_0.pulse);
    let wait_0 = two_bytes(bay_0.wait);
    let pulse_1 = two_bytes(bay_1.pulse);
    let wait_1 = two_bytes(bay_1.wait);
    let progress = progress_bytes(command);
    [
        crate::LAYOUT,
        machine.started as u8,
        second_in_force as u8,
        second_named as u8,
        shared.dbccr_written as u8,
        shared.seclock as u8,
        second.subsystem_written[0] as u8,
        second.subsystem_written[1] as u8,
        second.subsystem_written[2] as u8,
        second.subsystem_written[3] as u8,
        second.form_factors_written[0] as u8,
        second.form_factors_written[1] as u8,
        second.sfr_written as u8,
        bay_0.levels[Bay::N1394] as u8,
        bay_0.levels[Bay::NUSB] as u8,
        bay_0.levels[Bay::NREMREQ] as u8,
        bay_0.accepted[Bay::N1394] as u8,
        bay_0.accepted[Bay::NUSB] as u8,
        bay_0.accepted[Bay::NREMREQ] as u8,
        bay_0.n_sl as u8,
        bay_0.remreq_sts as u8,
        bay_0.devstschg as u8,
        bay_0.control.lock_ctl as u8,
        bay_0.control.remreq_en as u8,
        bay_0.control.devstschg_en as u8,
        bay_0.control.remevtwak_en as u8,
        bay_0.control.pwr_ctl as u8,
        bay_1.levels[Bay::N1394] as u8,
        bay_1.levels[Bay::NUSB] as u8,
        bay_1.levels[Bay::NREMREQ] as u8,
        bay_1.accepted[Bay::N1394] as u8,
        bay_1.accepted[Bay::NUSB] as u8,
        bay_1.accepted[Bay::NREMREQ] as u8,
        bay_1.n_sl as u8,
        bay_1.remreq_sts as u8,
        bay_1.devstschg as u8,
        bay_1.control.lock_ctl as u8,
        bay_1.control.remreq_en as u8,
        bay_1.control.devstschg_en as u8,
        bay_1.control.remevtwak_en as u8,
        bay_1.control.pwr_ctl as u8,
        machine.straps,
        shared.bay_count,
        shared.lock_time,
        shared.wait_time,
        machine.phase,
        second.subsystem[0],
        second.subsystem[1],
        second.subsystem[2],
        second.subsystem[3],
        second.form_factors[0],
        second.form_factors[1],
        second.sfr,
        bay_0.counts[Bay::N1394],
        bay_0.counts[Bay::NUSB],
        bay_0.counts[Bay::NREMREQ],
        bay_0.state,
        bay_0.control.request,
        pulse_0[0],
        pulse_0[1],
        wait_0[0],
        wait_0[1],
        bay_1.counts[Bay::N1394],
        bay_1.counts[Bay::NUSB],
        bay_1.counts[Bay::NREMREQ],
        bay_1.state,
        bay_1.control.request,
        pulse_1[0],
        pulse_1[1],
        wait_1[0],
        wait_1[1],
        progress[0],
        progress[1],
        progress[2],
    ]
}
