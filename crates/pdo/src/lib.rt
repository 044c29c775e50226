#![tactic(auto)]
// Process data: a received PDO acts as the SDO writes that its map names do, and the PDO that is sent has the values that SDO reads give.
ghost use Rattle.std.specs.Prelude.{◌≡◌, drop};
ghost use Rattle.std.proofs.Math.Seq.{paste};
ghost use Rattle.coding.specs.Bytes.{four_bytes};
ghost use Rattle.mapping.specs.Maps.{index_of, sub_of, bytes_of, counted};
ghost use Rattle.dictionary.specs.Decide.{read_decision};
ghost use Rattle.device.specs.Sound.{Sound};
ghost use Rattle.pdo.specs.Receive.{acted, received};
ghost use Rattle.pdo.specs.Send.{number_read, sent_by, sent_in};
ghost use Rattle.pdo.specs.Asked.{Acting, Telling, Putting, Sending};

use device::Device;
use objects::{HOLD_SET_POINT, POSITION};

// ---- receiving

// The entries by name, but for the last of each table.
const CONTROL_WORD: u32 = 0x60400010;

const SET_POINT: u32 = 0x63000110;

const STATUS_WORD: u32 = 0x60410010;

const ERROR_CODE: u32 = 0x604E0010;

// How many bytes each object that may be mapped has.
const TWO_BYTES: u8 = 2;

// An entry acts on the bytes from a place on, as the SDO write of them to its object does. What may be received takes every value of two
// bytes in every state, so that there is nothing to test.
fn act(device: Device, entry: u32, pdo: &[u8], at: usize) -> Device
    requires { Acting device entry at }
    ensures { result ≡ acted entry (drop at pdo.now) device }
{
    let number = coding::two_of(coding::byte_at(pdo, at), coding::byte_at(pdo, at + 1));
    let value = coding::value_of(TWO_BYTES, true, number as u32);
    match entry {
        CONTROL_WORD => device::control(device, number),
        SET_POINT => {
            let block = device::block_of(device, POSITION);
            device::with_block_of(device, POSITION, block::with_setpoint(block, value))
        }
        _ => {
            let block = device::block_of(device, POSITION);
            let block = block::with_setting(block, HOLD_SET_POINT, value);
            device::with_block_of(device, POSITION, block)
        }
    }
}

// The entries of the receive map act in map order.
#[tactic(auto, unfolding(crate::specs::Receive::received))]
pub fn receive(device: Device, pdo: &[u8]) -> Device
    requires { Sound device }
    ensures { result ≡ received (counted device.maps.receive) pdo.now device }
{
    let map = device.maps.receive;
    let entries = map.entries;
    let mut after = device;
    let mut at = 0;
    for entry in &entries[..map.count as usize] {
        after = act(after, *entry, pdo, at);
        at += mapping::bytes_of(*entry) as usize;
    }
    after
}

// ---- sending

// The number that an SDO read of an entry's object gives.
fn number_of(device: Device, entry: u32) -> u32
    requires { Telling device entry }
    ensures { result ≡ number_read (read_decision device (index_of entry) (sub_of entry)) }
{
    match entry {
        STATUS_WORD => device::status(device) as u32,
        ERROR_CODE => device.error as u32,
        _ => coding::number_of(TWO_BYTES, device::command_of(device, POSITION)),
    }
}

// The bytes of an entry, as many as its length, go to the room from a place on.
#[tactic(auto, unfolding(crate::specs::Send::sent_by))]
fn put_value(device: Device, entry: u32, room: &mut [u8], at: usize)
    requires { Putting device entry room.old at }
    ensures { room.new ≡ paste room.old at (sent_by device entry) (bytes_of entry) }
{
    let bytes = coding::four_bytes(number_of(device, entry));
    let n = mapping::bytes_of(entry) as usize;
    coding::put(room, at, &bytes[..n]);
}

// The values of the transmit map go to the first bytes of the room; later bytes stay.
#[tactic(auto, unfolding(crate::specs::Send::sent, crate::specs::Send::sent_in))]
pub fn send(device: Device, room: &mut [u8])
    requires { Sending device room.old }
    ensures { room.new ≡ sent_in device (counted device.maps.transmit) room.old }
{
    let map = device.maps.transmit;
    let entries = map.entries;
    let mut at = 0;
    for entry in &entries[..map.count as usize] {
        put_value(device, *entry, room, at);
        at += mapping::bytes_of(*entry) as usize;
    }
}
