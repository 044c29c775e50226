#![tactic(auto)]
// Rainsheave for C: every public call as include/rainsheave.h declares it; `c_api_c` exports them under these names. A device is words of
// 64 bits behind a pointer. Words that hold no device are refused as an unsound device is. Refused, a call stores nothing.
ghost use Rattle.std.specs.Prelude.{◌≡◌, pos};
ghost use Rattle.device.specs.Queries.{status_of, device_target, device_command, device_ticks_to_go};
ghost use Rattle.rainsheave.specs.Calls.{control_answer, fault_answer, tick_answer, jump_answer, receive_answer, load_answer};
ghost use Rattle.rainsheave.specs.Fixed.{FindCodeIs};
ghost use Rattle.c_api.specs.Exported.{
  FreshIs,
  SdoIs,
  ReadRequestIs,
  WriteRequestIs,
  ChangeIs,
  QueryIs,
  SendIs,
  StoreIs,
  FindIs,
  reading_of,
};
ghost use Rattle.c_api.specs.Asked.{Leaves, Stores, Told, Changed, SentIs};

use device::Device;
use rainsheave::number::{DONE, UNSOUND};
use rainsheave::{Change, Refusal};
use words::place::WORDS;

pub mod length;
pub mod selection;
pub mod state;

use crate::length::FRAME;

// What a query tells: the value, which is 0 beside a refusal.
#[repr(C)]
#[derive(Clone, Copy)]
pub struct Reading {
    pub value: i64,
    pub number: u8,
}

impl From<Result<i64, Refusal>> for Reading {
    ghost from_gives = { λ told reading. reading ≡ reading_of told };

    fn from(told: Result<i64, Refusal>) -> Reading {
        Reading {
            value: rainsheave::value_told(told),
            number: rainsheave::number_of_report(told),
        }
    }
}

// What was sent: how many bytes were written, which are none beside a refusal.
#[repr(C)]
#[derive(Clone, Copy)]
pub struct Sent {
    pub length: usize,
    pub number: u8,
}

impl From<Result<usize, Refusal>> for Sent {
    ghost from_gives = { λ told sent. SentIs told sent };

    fn from(told: Result<usize, Refusal>) -> Sent {
        Sent {
            length: rainsheave::bytes_sent(told),
            number: rainsheave::number_of_report(told),
        }
    }
}

// What was found: where in the image, and how many bytes; both are 0 beside a refusal.
#[repr(C)]
#[derive(Clone, Copy)]
pub struct Part {
    pub begin: usize,
    pub length: usize,
    pub number: u8,
}

// ---- fresh, and requests

pub fn rainsheave_fresh(device: &mut [i64; WORDS])
    ensures { FreshIs device.new }
{
    words::put_fresh(device);
}

pub fn rainsheave_sdo(device: &mut [i64; WORDS], request: &[u8], reply: &mut [u8]) -> u8
    ensures { SdoIs request.now device.old device.new reply.old reply.new result }
{
    if !words::hold_device(*device) {
        return UNSOUND;
    }
    let settled = rainsheave::settle(words::device_in(&*device), request, reply);
    if let Ok(decision) = settled {
        words::carry_out(device, decision);
    }
    rainsheave::number_of_report(settled)
}

pub fn rainsheave_read_request(request: &mut [u8; FRAME], index: u16, sub_index: u8)
    ensures { ReadRequestIs index sub_index request.new }
{
    *request = rainsheave::read_request(index, sub_index);
}

pub fn rainsheave_write_request(
    request: &mut [u8; FRAME],
    index: u16,
    sub_index: u8,
    size: u8,
    number: u32,
)
    ensures { WriteRequestIs index sub_index size number request.new }
{
    *request = rainsheave::write_request(index, sub_index, size, number);
}

// ---- calls that change the device

// Done, what the call changed of the device that the words hold is stored in them; refused, nothing is.
fn changed<F: FnOnce(Device) -> Change, S: FnOnce(&mut [i64; WORDS], Device)>(
    device: &mut [i64; WORDS],
    call: F,
    store: S,
) -> u8
    requires callable { F.IsAlwaysCallable call }
    requires storable { S.IsAlwaysCallable store }
    requires left { Leaves (F.post call) }
    requires stored { Stores (F.post call) (λ words device after. S.post store words device tt after) }
    ensures { Changed (F.post call) device.old device.new result }
{
    if !words::hold_device(*device) {
        return UNSOUND;
    }
    let change = call(words::device_in(&*device));
    if change.report.is_ok() {
        store(device, change.device);
    }
    rainsheave::number_of_report(change.report)
}

pub fn rainsheave_control(device: &mut [i64; WORDS], word: u16) -> u8
    ensures { ChangeIs (λ d. control_answer d word) device.old device.new result }
{
    changed(
        device,
        |before| rainsheave::control(before, word),
        words::put_moved,
    )
}

pub fn rainsheave_fault(device: &mut [i64; WORDS], code: u16) -> u8
    ensures { ChangeIs (λ d. fault_answer d code) device.old device.new result }
{
    changed(
        device,
        |before| rainsheave::fault(before, code),
        words::put_moved,
    )
}

pub fn rainsheave_tick(device: &mut [i64; WORDS]) -> u8
    ensures { ChangeIs tick_answer device.old device.new result }
{
    changed(device, rainsheave::tick, words::put_moved)
}

pub fn rainsheave_jump(device: &mut [i64; WORDS], ticks: u32) -> u8
    ensures { ChangeIs (λ d. jump_answer d ticks) device.old device.new result }
{
    changed(
        device,
        |before| rainsheave::jump(before, ticks),
        words::put_moved,
    )
}

// ---- queries

// What is told of the device that the words hold.
fn told<F: FnOnce(Device) -> Result<i64, Refusal>>(device: &[i64; WORDS], query: F) -> Reading
    requires { F.IsAlwaysCallable query }
    ensures { Told (F.post query) device.now result }
{
    if words::hold_device(*device) {
        Reading::from(query(words::device_in(device)))
    } else {
        Reading::from(Err(Refusal::Unsound))
    }
}

pub fn rainsheave_state(device: &[i64; WORDS]) -> Reading
    ensures { QueryIs (λ d. pos d.state) device.now result }
{
    told(device, rainsheave::state)
}

pub fn rainsheave_status(device: &[i64; WORDS]) -> Reading
    ensures { QueryIs (λ d. pos (status_of d)) device.now result }
{
    told(device, rainsheave::status)
}

pub fn rainsheave_error(device: &[i64; WORDS]) -> Reading
    ensures { QueryIs (λ d. pos d.error) device.now result }
{
    told(device, rainsheave::error)
}

pub fn rainsheave_position(device: &[i64; WORDS]) -> Reading
    ensures { QueryIs (λ d. d.block.position) device.now result }
{
    told(device, rainsheave::position)
}

pub fn rainsheave_target(device: &[i64; WORDS]) -> Reading
    ensures { QueryIs (λ d. device_target d) device.now result }
{
    told(device, rainsheave::target)
}

pub fn rainsheave_command(device: &[i64; WORDS]) -> Reading
    ensures { QueryIs (λ d. device_command d) device.now result }
{
    told(device, rainsheave::command)
}

pub fn rainsheave_ticks_to_go(device: &[i64; WORDS]) -> Reading
    ensures { QueryIs (λ d. pos (device_ticks_to_go d)) device.now result }
{
    told(device, rainsheave::ticks_to_go)
}

// ---- process data

pub fn rainsheave_receive(device: &mut [i64; WORDS], pdo: &[u8]) -> u8
    ensures { ChangeIs (λ d. receive_answer d pdo.now) device.old device.new result }
{
    changed(
        device,
        |before| rainsheave::receive(before, pdo),
        |words, after| {
            words::put_set_points(words, after);
            words::put_moved(words, after);
        },
    )
}

pub fn rainsheave_send(device: &[i64; WORDS], room: &mut [u8]) -> Sent
    ensures { SendIs device.now room.old room.new result }
{
    if words::hold_device(*device) {
        Sent::from(rainsheave::send(words::device_in(device), room))
    } else {
        Sent::from(Err(Refusal::Unsound))
    }
}

// ---- the stored image

pub fn rainsheave_store(device: &[i64; WORDS], room: &mut [u8]) -> u8
    ensures { StoreIs device.now room.old room.new result }
{
    if !words::hold_device(*device) {
        return UNSOUND;
    }
    rainsheave::number_of_report(rainsheave::store(words::device_in(device), room))
}

pub fn rainsheave_load(device: &mut [i64; WORDS], image: &[u8]) -> u8
    ensures { ChangeIs (λ d. load_answer d image.now) device.old device.new result }
{
    changed(
        device,
        |before| rainsheave::load(before, image),
        words::put_position_block,
    )
}

pub fn rainsheave_find(image: &[u8], tag: u8) -> Part
    ensures { FindIs image.now tag result }
{
    match image::locate(image, tag) {
        Ok(part) => Part {
            begin: part.start,
            length: part.end - part.start,
            number: DONE,
        },
        Err(miss) => Part {
            begin: 0,
            length: 0,
            number: miss.number(),
        },
    }
}

pub fn rainsheave_find_code(image: &[u8], tag: u8) -> u8
    ensures { FindCodeIs image.now tag result }
{
    rainsheave::find_code(image, tag)
}
