#![tactic(auto)]
// The SDO service: requests and replies as bytes. What becomes of a request is the dictionary's decision.
ghost use Rattle.std.specs.Prelude.{◌≡◌};
ghost use Rattle.device.specs.Sound.{Sound};
ghost use Rattle.sdo.specs.Frames.{request_of, asks_of, frame_of, read_request, write_command, write_request, read_reply, is_due, reply_of, replied_in, number_handed_back};
ghost use Rattle.dictionary.specs.Asked.{Decided};
ghost use Rattle.sdo.specs.Serve.{decision_on, outcome_of, answer_to};
ghost use Rattle.sdo.specs.Asked.{EightBytes, Due, ReplyRoom};

use device::{Device, Refusal};
use dictionary::{Abort, Decision};

// What a request says; the number is that of its four data bytes.
#[derive(Clone, Copy)]
pub struct Request {
    pub command: u8,
    pub sub: u8,
    pub index: u16,
    pub number: u32,
}

// What a command byte asks: a read, or a write of so many bytes.
#[derive(Clone, Copy)]
pub enum Asks {
    Reads,
    Writes(u8),
}

// What a request leads to: so many bytes of a number read, a write done, an abort, or a refusal.
#[derive(Clone, Copy)]
pub enum Outcome {
    Read { size: u8, number: u32 },
    Written,
    Abort(Abort),
    Refused(Refusal),
}

// An outcome beside the device as it is then.
#[derive(Clone, Copy)]
pub struct Answer {
    pub device: Device,
    pub outcome: Outcome,
}

// ---- frames

// The request in eight bytes.
pub fn request_of(bytes: &[u8]) -> Request
    requires { EightBytes bytes.now }
    ensures { result ≡ request_of bytes.now }
{
    Request {
        command: bytes[0],
        sub: bytes[3],
        index: coding::two_of(bytes[1], bytes[2]),
        number: coding::four_of(bytes[4], bytes[5], bytes[6], bytes[7]),
    }
}

// Command, index low first, sub-index, four bytes of a number low first.
#[tactic(auto, unfolding(crate::specs::Frames::frame_of, coding::specs::Bytes::four_bytes))]
fn frame_of(command: u8, index: u16, sub: u8, number: u32) -> [u8; 8]
    ensures { result ≡ frame_of command index sub number }
{
    let [low, high] = index.to_le_bytes();
    let [a, b, c, d] = coding::four_bytes(number);
    [command, low, high, sub, a, b, c, d]
}

// The eight bytes that ask for an entry.
#[tactic(auto, unfolding(crate::specs::Frames::read_request))]
pub fn read_request(index: u16, sub: u8) -> [u8; 8]
    ensures { result ≡ read_request index sub }
{
    frame_of(0x40, index, sub, 0)
}

// The command byte of a write of so many bytes: 1, 2, 3, and else 4.
#[tactic(auto, unfolding(crate::specs::Frames::write_command))]
fn write_command(size: u8) -> u8
    ensures { result ≡ write_command size }
{
    match size {
        1 => 0x2F,
        2 => 0x2B,
        3 => 0x27,
        _ => 0x23,
    }
}

// The eight bytes that write so many bytes of a number to an entry.
#[tactic(auto, unfolding(crate::specs::Frames::write_request))]
pub fn write_request(index: u16, sub: u8, size: u8, number: u32) -> [u8; 8]
    ensures { result ≡ write_request index sub size number }
{
    frame_of(write_command(size), index, sub, number)
}

// ---- the service

#[tactic(auto, unfolding(crate::specs::Frames::asks_of))]
fn asks_of(command: u8) -> Result<Asks, Abort>
    ensures { result ≡ asks_of command }
{
    match command {
        0x40 => Ok(Asks::Reads),
        0x2F => Ok(Asks::Writes(1)),
        0x2B => Ok(Asks::Writes(2)),
        0x27 => Ok(Asks::Writes(3)),
        0x23 => Ok(Asks::Writes(4)),
        _ => Err(Abort::UnknownCommand),
    }
}

// What becomes of a request.
#[tactic(auto, unfolding(crate::specs::Serve::decision_on))]
pub fn decision_on(device: Device, request: Request) -> Result<Decision, Abort>
    requires { Sound device }
    ensures { result ≡ decision_on device request }
{
    let index = request.index;
    let sub = request.sub;
    match asks_of(request.command)? {
        Asks::Reads => dictionary::decide_read(device, index, sub),
        Asks::Writes(size) => dictionary::decide_write(device, index, sub, size, request.number),
    }
}

// The outcome of a decision.
pub fn outcome_of(decision: Result<Decision, Abort>) -> Outcome
    ensures { result ≡ outcome_of decision }
{
    match decision {
        Ok(Decision::Read { size, number }) => Outcome::Read { size, number },
        Ok(
            Decision::Write {
                which: _,
                place: _,
                value: _,
            },
        ) => Outcome::Written,
        Err(abort) => Outcome::Abort(abort),
    }
}

// The answer that a decision leads to: it is carried out.
pub fn answer_to(device: Device, decision: Result<Decision, Abort>) -> Answer
    requires { Decided decision }
    ensures { result ≡ answer_to decision device }
{
    let outcome = outcome_of(decision);
    let device = dictionary::carry_out(device, decision);
    Answer { device, outcome }
}

// ---- replies

#[tactic(auto, unfolding(crate::specs::Frames::read_reply))]
fn read_reply(size: u8) -> u8
    ensures { result ≡ read_reply size }
{
    match size {
        1 => 0x4F,
        2 => 0x4B,
        _ => 0x43,
    }
}

// A reply is due to all but a refusal.
pub fn is_due(outcome: Outcome) -> bool
    ensures { result ≡ is_due outcome }
{
    match outcome {
        Outcome::Read { size: _, number: _ } => true,
        Outcome::Written => true,
        Outcome::Abort(_) => true,
        Outcome::Refused(_) => false,
    }
}

// The bytes of a reply that is due.
fn reply_of(outcome: Outcome, request: Request) -> [u8; 8]
    requires { Due outcome }
    ensures { result ≡ reply_of outcome request }
{
    let index = request.index;
    let sub = request.sub;
    match outcome {
        Outcome::Read { size, number } => frame_of(read_reply(size), index, sub, number),
        Outcome::Written => frame_of(0x60, index, sub, 0),
        Outcome::Abort(abort) => frame_of(0x80, index, sub, abort.code()),
        Outcome::Refused(_) => frame_of(0, index, sub, 0),
    }
}

// The reply of an outcome to a request, where one is due.
#[tactic(auto, unfolding(crate::specs::Frames::replied_in))]
pub fn reply(outcome: Outcome, request: Request, room: &mut [u8])
    requires { ReplyRoom room.old }
    ensures { room.new ≡ replied_in outcome request room.old }
{
    if is_due(outcome) {
        let bytes = reply_of(outcome, request);
        coding::put(room, 0, &bytes);
    }
}

// The number handed back.
pub fn number_of(outcome: Outcome) -> u8
    ensures { result ≡ number_handed_back outcome }
{
    match outcome {
        Outcome::Read { size: _, number: _ } => 0,
        Outcome::Written => 0,
        Outcome::Abort(_) => 0,
        Outcome::Refused(refusal) => refusal.number(),
    }
}
