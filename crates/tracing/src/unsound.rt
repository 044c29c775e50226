// Devices that are not sound. The ways are numbered as the events have them.
use block::Block;
use device::{ACTIVE, DISABLED, Device, FAULT, HOLD};
use dither::Dither;
use mapping::{ENTRIES, Map, Maps};
use objects::{FULL_POSITION, LOWER_LIMIT, SETTINGS, UPPER_LIMIT};

// One more than there are, and the highest number that a state could have.
const NO_STATE: u8 = 4;

const LAST_STATE: u8 = 255;

// One part beyond full stroke.
const BEYOND: i64 = FULL_POSITION + 1;

// No setting's range has it.
const OUT_OF_RANGE: i64 = -40000;

// One beyond the ends of the set point's range.
const SET_POINT_ABOVE: i64 = 32768;

const SET_POINT_BELOW: i64 = -32769;

// All the entries that a map has, one more, and the highest number that could be counted.
const EVERY_ENTRY: u8 = 4;

const TOO_MANY: u8 = 5;

const MOST: u8 = 255;

// What may be sent but not received, and what may be received but not sent.
const ONLY_SENT: u32 = 0x60410010;

const ONLY_RECEIVED: u32 = 0x60400010;

// One more than the pressure block's number, and the highest that a block could have.
const NO_BLOCK: u8 = 2;

const LAST_BLOCK: u8 = 255;

// The last phase of a period.
const LAST_PHASE: u32 = u32::MAX;

// A word picks the setting: it stands at the place word % 17.
fn set(block: &mut Block, word: u16, value: i64) {
    block.settings[usize::from(word) % SETTINGS] = value;
}

// One more than the highest value of that setting's range.
#[tactic(auto, using(crate::proofs::Ends::above_fits))]
fn above(word: u16) -> i64 {
    objects::row_at(usize::from(word) % SETTINGS).high + 1
}

// One less than the lowest.
#[tactic(auto, using(crate::proofs::Ends::below_fits))]
fn below(word: u16) -> i64 {
    objects::row_at(usize::from(word) % SETTINGS).low - 1
}

fn cross_limits(block: &mut Block) {
    block.settings[UPPER_LIMIT] = -1;
    block.settings[LOWER_LIMIT] = 0;
}

// The smallest step out of where the position has to be, up or down: off rest, or beyond full stroke.
fn misplace(device: &mut Device, off_rest: i64, beyond: i64) {
    device.block.position = match device.state {
        HOLD | ACTIVE => beyond,
        _ => off_rest,
    };
}

// ---- maps

// A word picks the map: the receive map where it is even.
fn is_of_receive(word: u16) -> bool {
    word % 2 == 0
}

fn map_of(maps: &mut Maps, word: u16) -> &mut Map {
    if is_of_receive(word) {
        &mut maps.receive
    } else {
        &mut maps.transmit
    }
}

// Half the word picks the entry.
fn entry_of(map: &mut Map, word: u16) -> &mut u32 {
    &mut map.entries[usize::from(word) / 2 % ENTRIES]
}

// An entry that only the other map may have.
fn wrong_entry(word: u16) -> u32 {
    if is_of_receive(word) {
        ONLY_SENT
    } else {
        ONLY_RECEIVED
    }
}

fn set_count(maps: &mut Maps, word: u16, count: u8) {
    map_of(maps, word).count = count;
}

fn set_entry(maps: &mut Maps, word: u16, entry: u32) {
    *entry_of(map_of(maps, word), word) = entry;
}

// An entry that is counted, and zero.
fn count_zero(maps: &mut Maps, word: u16) {
    set_count(maps, word, EVERY_ENTRY);
    set_entry(maps, word, 0);
}

// ---- the dither

// A word picks the value: type, amplitude or frequency.
fn set_dither(dither: &mut Dither, word: u16, value: i64) {
    match word % 3 {
        0 => dither.kind = value,
        1 => dither.amplitude = value,
        _ => dither.frequency = value,
    }
}

// One more than the highest type, amplitude or frequency.
fn dither_above(word: u16) -> i64 {
    match word % 3 {
        0 => 3,
        1 => 1025,
        _ => 251,
    }
}

// At rest in a state with its error code, but for the phase.
fn rest_at_phase(device: &mut Device, state: u8, error: u16, phase: u32) {
    device.state = state;
    device.error = error;
    device.block.position = 0;
    device.dither.phase = phase;
}

// ---- the two blocks

// The block that is not selected, made unsound in one of seven ways.
fn break_other(block: &mut Block, way: u8, word: u16) {
    match way {
        20 => block.position = 1,
        21 => block.position = -1,
        22 => set(block, word, above(word)),
        23 => set(block, word, below(word)),
        24 => cross_limits(block),
        25 => block.setpoint = SET_POINT_ABOVE,
        _ => block.setpoint = SET_POINT_BELOW,
    }
}

// ---- the ways

// The device is made unsound in one of six ways. The first is an error code where there is none, and none in FAULT.
pub fn alter(device: &mut Device, way: u8, word: u16) {
    match way {
        1 => device.error = if device.state == FAULT { 0 } else { 1 },
        2 => device.block.position = BEYOND,
        3 => set(&mut device.block, word, OUT_OF_RANGE),
        4 => cross_limits(&mut device.block),
        5 => misplace(device, 1, BEYOND),
        _ => device.state = NO_STATE,
    }
}

// The device is made unsound in one of 28 further ways: one step beyond a range, at the ends of an i64, downward where `alter` goes
// upward, in a map, in the dither, in the selection, and in the block that is not selected.
pub fn break_device(device: &mut Device, way: u8, word: u16) {
    match way {
        0 => set(&mut device.block, word, above(word)),
        1 => set(&mut device.block, word, below(word)),
        2 => set(&mut device.block, word, i64::MAX),
        3 => set(&mut device.block, word, i64::MIN),
        4 => device.block.position = -BEYOND,
        5 => misplace(device, -1, -BEYOND),
        6 => device.block.setpoint = SET_POINT_ABOVE,
        7 => device.block.setpoint = SET_POINT_BELOW,
        8 => set_count(&mut device.maps, word, TOO_MANY),
        9 => set_count(&mut device.maps, word, MOST),
        10 => set_entry(&mut device.maps, word, wrong_entry(word)),
        11 => count_zero(&mut device.maps, word),
        12 => set_dither(&mut device.dither, word, dither_above(word)),
        13 => set_dither(&mut device.dither, word, -1),
        14 => set_dither(&mut device.dither, word, i64::MAX),
        15 => set_dither(&mut device.dither, word, i64::MIN),
        16 => rest_at_phase(device, DISABLED, 0, 1),
        17 => rest_at_phase(device, FAULT, 1, LAST_PHASE),
        18 => device.selected = NO_BLOCK,
        19 => device.selected = LAST_BLOCK,
        20..=26 => break_other(&mut device.other, way, word),
        _ => device.state = LAST_STATE,
    }
}
