#![tactic(auto)]
// The static library for C: each export is the call of the same name in `c_api`, with its clauses. include/rainsheave.h declares them.
ghost use Rattle.std.specs.Prelude.{pos};
ghost use Rattle.device.specs.Queries.{status_of, device_target, device_command, device_ticks_to_go};
ghost use Rattle.rainsheave.specs.Calls.{control_answer, fault_answer, tick_answer, jump_answer, receive_answer, load_answer};
ghost use Rattle.rainsheave.specs.Fixed.{FindCodeIs};
ghost use Rattle.c_api.specs.Exported.{
  FreshIs,
  SdoIs,
  ReadRequestIs,
  WriteRequestIs,
  ChangeIs,
  QueryIs,
  SendIs,
  StoreIs,
  FindIs,
};

use c_api::length::FRAME;
use c_api::{Part, Reading, Sent};
use words::place::WORDS;

#[unsafe(no_mangle)]
pub extern "C" fn rainsheave_fresh(device: &mut [i64; WORDS])
    ensures { FreshIs device.new }
{
    c_api::rainsheave_fresh(device);
}

#[unsafe(no_mangle)]
pub extern "C" fn rainsheave_sdo(device: &mut [i64; WORDS], request: &[u8], reply: &mut [u8]) -> u8
    ensures { SdoIs request.now device.old device.new reply.old reply.new result }
{
    c_api::rainsheave_sdo(device, request, reply)
}

#[unsafe(no_mangle)]
pub extern "C" fn rainsheave_read_request(request: &mut [u8; FRAME], index: u16, sub_index: u8)
    ensures { ReadRequestIs index sub_index request.new }
{
    c_api::rainsheave_read_request(request, index, sub_index);
}

#[unsafe(no_mangle)]
pub extern "C" fn rainsheave_write_request(
    request: &mut [u8; FRAME],
    index: u16,
    sub_index: u8,
    size: u8,
    number: u32,
)
    ensures { WriteRequestIs index sub_index size number request.new }
{
    c_api::rainsheave_write_request(request, index, sub_index, size, number);
}

#[unsafe(no_mangle)]
pub extern "C" fn rainsheave_control(device: &mut [i64; WORDS], word: u16) -> u8
    ensures { ChangeIs (λ d. control_answer d word) device.old device.new result }
{
    c_api::rainsheave_control(device, word)
}

#[unsafe(no_mangle)]
pub extern "C" fn rainsheave_fault(device: &mut [i64; WORDS], code: u16) -> u8
    ensures { ChangeIs (λ d. fault_answer d code) device.old device.new result }
{
    c_api::rainsheave_fault(device, code)
}

#[unsafe(no_mangle)]
pub extern "C" fn rainsheave_tick(device: &mut [i64; WORDS]) -> u8
    ensures { ChangeIs tick_answer device.old device.new result }
{
    c_api::rainsheave_tick(device)
}

#[unsafe(no_mangle)]
pub extern "C" fn rainsheave_jump(device: &mut [i64; WORDS], ticks: u32) -> u8
    ensures { ChangeIs (λ d. jump_answer d ticks) device.old device.new result }
{
    c_api::rainsheave_jump(device, ticks)
}

#[unsafe(no_mangle)]
pub extern "C" fn rainsheave_state(device: &[i64; WORDS]) -> Reading
    ensures { QueryIs (λ d. pos d.state) device.now result }
{
    c_api::rainsheave_state(device)
}

#[unsafe(no_mangle)]
pub extern "C" fn rainsheave_status(device: &[i64; WORDS]) -> Reading
    ensures { QueryIs (λ d. pos (status_of d)) device.now result }
{
    c_api::rainsheave_status(device)
}

#[unsafe(no_mangle)]
pub extern "C" fn rainsheave_error(device: &[i64; WORDS]) -> Reading
    ensures { QueryIs (λ d. pos d.error) device.now result }
{
    c_api::rainsheave_error(device)
}

#[unsafe(no_mangle)]
pub extern "C" fn rainsheave_position(device: &[i64; WORDS]) -> Reading
    ensures { QueryIs (λ d. d.block.position) device.now result }
{
    c_api::rainsheave_position(device)
}

#[unsafe(no_mangle)]
pub extern "C" fn rainsheave_target(device: &[i64; WORDS]) -> Reading
    ensures { QueryIs (λ d. device_target d) device.now result }
{
    c_api::rainsheave_target(device)
}

#[unsafe(no_mangle)]
pub extern "C" fn rainsheave_command(device: &[i64; WORDS]) -> Reading
    ensures { QueryIs (λ d. device_command d) device.now result }
{
    c_api::rainsheave_command(device)
}

#[unsafe(no_mangle)]
pub extern "C" fn rainsheave_ticks_to_go(device: &[i64; WORDS]) -> Reading
    ensures { QueryIs (λ d. pos (device_ticks_to_go d)) device.now result }
{
    c_api::rainsheave_ticks_to_go(device)
}

#[unsafe(no_mangle)]
pub extern "C" fn rainsheave_receive(device: &mut [i64; WORDS], pdo: &[u8]) -> u8
    ensures { ChangeIs (λ d. receive_answer d pdo.now) device.old device.new result }
{
    c_api::rainsheave_receive(device, pdo)
}

#[unsafe(no_mangle)]
pub extern "C" fn rainsheave_send(device: &[i64; WORDS], room: &mut [u8]) -> Sent
    ensures { SendIs device.now room.old room.new result }
{
    c_api::rainsheave_send(device, room)
}

#[unsafe(no_mangle)]
pub extern "C" fn rainsheave_store(device: &[i64; WORDS], room: &mut [u8]) -> u8
    ensures { StoreIs device.now room.old room.new result }
{
    c_api::rainsheave_store(device, room)
}

#[unsafe(no_mangle)]
pub extern "C" fn rainsheave_load(device: &mut [i64; WORDS], image: &[u8]) -> u8
    ensures { ChangeIs (λ d. load_answer d image.now) device.old device.new result }
{
    c_api::rainsheave_load(device, image)
}

#[unsafe(no_mangle)]
pub extern "C" fn rainsheave_find(image: &[u8], tag: u8) -> Part
    ensures { FindIs image.now tag result }
{
    c_api::rainsheave_find(image, tag)
}

#[unsafe(no_mangle)]
pub extern "C" fn rainsheave_find_code(image: &[u8], tag: u8) -> u8
    ensures { FindCodeIs image.now tag result }
{
    c_api::rainsheave_find_code(image, tag)
}
