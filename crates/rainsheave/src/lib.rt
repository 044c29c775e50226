#![tactic(auto)]
// Rainsheave, the public library: every call, for every frame, image, event and state that can be handed in. No call has a `requires`:
// what is not allowed is refused, by document 01's number, the device comes back as it came, and a refusal writes nothing.
ghost use Rattle.std.specs.Prelude.{◌≡◌, false, Ok, Err, OnOk, OnErr, IfErr};
ghost use Rattle.device.specs.Sound.{sound_device, Sound};
ghost use Rattle.sdo.specs.Serve.{answer};
ghost use Rattle.rainsheave.specs.Calls.{change, number_of_report, value_told, bytes_sent};
ghost use Rattle.sdo.specs.Frames.{number_handed_back};
ghost use Rattle.rainsheave.specs.Fixed.{
  FreshIs,
  SettleIs,
  SdoIs,
  ControlIs,
  FaultIs,
  TickIs,
  JumpIs,
  StateIs,
  StatusIs,
  ErrorIs,
  PositionIs,
  TargetIs,
  CommandIs,
  TicksToGoIs,
  ReceiveIs,
  SendIs,
  StoreIs,
  LoadIs,
  FindIs,
  FindCodeIs,
};

pub mod abort;
pub mod number;
pub mod word;

use crate::number::DONE;
pub use device::Refusal;
use device::{DISABLED, Device};
pub use dictionary::Abort;
use dictionary::Decision;
pub use mapping::{RECEIVABLE, SENDABLE};
pub use objects::{POSITION, PRESSURE, index};
use sdo::{Answer, Outcome};
pub use sdo::{number_of as number_of_outcome, read_request, write_request};

// What becomes of an SDO request: it is refused, or decided, on a read, a write or an abort.
pub type Settled = Result<Result<Decision, Abort>, Refusal>;

// What becomes of a call that has nothing else to tell.
pub type Report = Result<(), Refusal>;

// A report beside the device as it is then.
#[derive(Clone, Copy)]
pub struct Change {
    pub device: Device,
    pub report: Report,
}

fn refused_request(device: Device, refusal: Refusal) -> Answer
    ensures { result ≡ answer (Outcome.Refused refusal) device }
{
    let outcome = Outcome::Refused(refusal);
    Answer { device, outcome }
}

fn refused(device: Device, refusal: Refusal) -> Change
    ensures { result ≡ change (Err refusal) device }
{
    Change {
        device,
        report: Err(refusal),
    }
}

fn done(device: Device) -> Change
    ensures { result ≡ change (Ok tt) device }
{
    Change {
        device,
        report: Ok(()),
    }
}

// A device that is not sound is refused.
fn require_sound(device: Device) -> Report
    ensures passed { OnOk result (Sound device) }
    ensures refused { IfErr result (λ refusal. refusal ≡ Refusal.Unsound) }
    ensures unsound { OnErr result (sound_device device ≡ false) }
{
    if device::is_sound(device) {
        Ok(())
    } else {
        Err(Refusal::Unsound)
    }
}

// The number handed back beside a report, or in place of what a call tells.
pub fn number_of_report<T: Copy>(report: Result<T, Refusal>) -> u8
    ensures { result ≡ number_of_report report }
{
    match report {
        Ok(_) => DONE,
        Err(refusal) => refusal.number(),
    }
}

// The value handed back beside a query's number: 0 where it is refused.
pub fn value_told(told: Result<i64, Refusal>) -> i64
    ensures { result ≡ value_told told }
{
    told.unwrap_or(0)
}

// How many bytes were written where a PDO was to be sent: none where that is refused.
pub fn bytes_sent(sent: Result<usize, Refusal>) -> usize
    ensures { result ≡ bytes_sent sent }
{
    sent.unwrap_or(0)
}

// A device as it is when it is switched on: DISABLED, with every object fresh.
pub fn fresh() -> Device
    ensures { FreshIs result }
{
    device::fresh()
}

// What becomes of an SDO request, whose reply goes to the first eight bytes of the room. `sdo` carries it out.
#[tactic(auto, unfolding(crate::specs::Calls::sdo_settled, crate::specs::Calls::sdo_room, sdo::specs::Frames::replied_in, crate::specs::Calls::sdo_answer, sdo::specs::Serve::served))]
pub fn settle(device: Device, request: &[u8], reply: &mut [u8]) -> Settled
    ensures { SettleIs device request.now reply.old reply.new result }
{
    require_sound(device)?;
    if request.len() != 8 {
        return Err(Refusal::WrongLength);
    }
    if reply.len() < 8 {
        return Err(Refusal::NoRoom);
    }
    let asked = sdo::request_of(request);
    if asked.command / 32 == 4 {
        return Err(Refusal::NoReplyDue);
    }
    let decision = sdo::decision_on(device, asked);
    let outcome = sdo::outcome_of(decision);
    sdo::reply(outcome, asked, reply);
    Ok(decision)
}

// An SDO request. The reply goes to the first eight bytes of the room.
pub fn sdo(device: Device, request: &[u8], reply: &mut [u8]) -> Answer
    ensures { SdoIs device request.now reply.old reply.new result }
{
    match settle(device, request, reply) {
        Ok(decided) => sdo::answer_to(device, decided),
        Err(refusal) => refused_request(device, refusal),
    }
}

// A control word, as an accepted SDO write of 6040h.
#[tactic(auto, unfolding(crate::specs::Calls::control_answer))]
pub fn control(device: Device, word: u16) -> Change
    ensures { ControlIs device word result }
{
    if device::is_sound(device) {
        done(device::control(device, word))
    } else {
        refused(device, Refusal::Unsound)
    }
}

// A fault report.
#[tactic(auto, unfolding(crate::specs::Calls::fault_answer))]
pub fn fault(device: Device, code: u16) -> Change
    ensures { FaultIs device code result }
{
    if !device::is_sound(device) {
        return refused(device, Refusal::Unsound);
    }
    if code == 0 {
        return refused(device, Refusal::NoFault);
    }
    done(device::fault(device, code))
}

// One tick of 1 ms.
#[tactic(auto, unfolding(crate::specs::Calls::tick_answer))]
pub fn tick(device: Device) -> Change
    ensures { TickIs device result }
{
    if device::is_sound(device) {
        done(device::tick(device))
    } else {
        refused(device, Refusal::Unsound)
    }
}

// n ticks at once.
#[tactic(auto, unfolding(crate::specs::Calls::jump_answer))]
pub fn jump(device: Device, n: u32) -> Change
    ensures { JumpIs device n result }
{
    if device::is_sound(device) {
        done(device::jump(device, n))
    } else {
        refused(device, Refusal::Unsound)
    }
}

// The state: 0 DISABLED, 1 HOLD, 2 ACTIVE, 3 FAULT.
#[tactic(auto, unfolding(crate::specs::Calls::query_answer))]
pub fn state(device: Device) -> Result<i64, Refusal>
    ensures { StateIs device result }
{
    require_sound(device)?;
    Ok(device.state as i64)
}

// The status word.
#[tactic(auto, unfolding(crate::specs::Calls::query_answer))]
pub fn status(device: Device) -> Result<i64, Refusal>
    ensures { StatusIs device result }
{
    require_sound(device)?;
    Ok(device::status(device) as i64)
}

// The error code: 0 but in FAULT.
#[tactic(auto, unfolding(crate::specs::Calls::query_answer))]
pub fn error(device: Device) -> Result<i64, Refusal>
    ensures { ErrorIs device result }
{
    require_sound(device)?;
    Ok(device.error as i64)
}

// The position of the selected block, in 1/65,536 ir.
#[tactic(auto, unfolding(crate::specs::Calls::query_answer))]
pub fn position(device: Device) -> Result<i64, Refusal>
    ensures { PositionIs device result }
{
    require_sound(device)?;
    Ok(device.block.position)
}

// The target, in ir.
#[tactic(auto, unfolding(crate::specs::Calls::query_answer))]
pub fn target(device: Device) -> Result<i64, Refusal>
    ensures { TargetIs device result }
{
    require_sound(device)?;
    Ok(device::target(device))
}

// The command, in ir.
#[tactic(auto, unfolding(crate::specs::Calls::query_answer))]
pub fn command(device: Device) -> Result<i64, Refusal>
    ensures { CommandIs device result }
{
    require_sound(device)?;
    Ok(device::command(device))
}

// The ticks until the target is met.
#[tactic(auto, unfolding(crate::specs::Calls::query_answer))]
pub fn ticks_to_go(device: Device) -> Result<i64, Refusal>
    ensures { TicksToGoIs device result }
{
    require_sound(device)?;
    Ok(device::ticks_to_go(device) as i64)
}

// A PDO is received: the first bytes act as its map says.
#[tactic(auto, using(crate::proofs::Sound::receive_few), unfolding(crate::specs::Calls::receive_answer))]
pub fn receive(device: Device, pdo: &[u8]) -> Change
    ensures { ReceiveIs device pdo.now result }
{
    if !device::is_sound(device) {
        return refused(device, Refusal::Unsound);
    }
    if pdo.len() < mapping::length(device.maps.receive) {
        return refused(device, Refusal::ShortPdo);
    }
    done(pdo::receive(device, pdo))
}

// A PDO is sent: the mapped values go to the first bytes of the room. Told is how many bytes were written.
#[tactic(auto, using(crate::proofs::Sound::transmit_few), unfolding(crate::specs::Calls::send_room, crate::specs::Calls::send_answer))]
pub fn send(device: Device, room: &mut [u8]) -> Result<usize, Refusal>
    ensures { SendIs device room.old room.new result }
{
    require_sound(device)?;
    let length = mapping::length(device.maps.transmit);
    if room.len() < length {
        return Err(Refusal::NoRoom);
    }
    pdo::send(device, room);
    Ok(length)
}

// The image of the position block's settings, whichever block is selected, goes to the first 97 bytes of the room.
#[tactic(auto, using(crate::proofs::Images::settings_are_sound), unfolding(crate::specs::Calls::store_room, crate::specs::Calls::store_answer))]
pub fn store(device: Device, room: &mut [u8]) -> Report
    ensures { StoreIs device room.old room.new result }
{
    require_sound(device)?;
    if room.len() < image::IMAGE_LENGTH {
        return Err(Refusal::NoImageRoom);
    }
    let stored = device::block_of(device, POSITION);
    image::store(stored.settings, room);
    Ok(())
}

// All the settings of a full image, or none, go to the position block.
#[tactic(auto, unfolding(crate::specs::Calls::load_answer))]
pub fn load(device: Device, image: &[u8]) -> Change
    ensures { LoadIs device image.now result }
{
    if !device::is_sound(device) {
        return refused(device, Refusal::Unsound);
    }
    if device.state != DISABLED {
        return refused(device, Refusal::NotDisabled);
    }
    if !image::is_full(image) {
        return refused(device, Refusal::NotFull);
    }
    let settings = image::settings_in(image);
    if !block::sound_settings(settings) {
        return refused(device, Refusal::BadValue);
    }
    let block = device::block_of(device, POSITION);
    let block = block::with_settings(block, settings);
    done(device::with_block_of(device, POSITION, block))
}

// The value bytes of the first field with a tag, as that part of the caller's own slice; empty where `find_code` is not 0.
pub fn find(image: &[u8], tag: u8) -> &[u8]
    ensures { FindIs image.now tag image.entry.ref_ptr.0 image.entry.ref_ptr.1 result.now result.ref_ptr.0 result.ref_ptr.1 }
{
    image::find(image, tag)
}

// The number of that search: 0 found, 7 a field cut short, 10 not found.
pub fn find_code(image: &[u8], tag: u8) -> u8
    ensures { FindCodeIs image.now tag result }
{
    image::find_code(image, tag)
}
