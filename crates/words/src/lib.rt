#![tactic(auto)]
// A device as words of 64 bits: whether words hold a device, the device that they hold, and what each change of a device stores. Only
// those words are stored that the change can alter.
ghost use Rattle.std.specs.Prelude.{◌≡◌};
ghost use Rattle.std.proofs.lemmas.List.Edits.{sets};
ghost use Rattle.objects.specs.Places as Places;
ghost use Rattle.device.specs.Device.{fresh_device};
ghost use Rattle.words.specs.Words.{is_number, run, hold_map, block_in, map_in, dither_in, device_in, words_of};
ghost use Rattle.words.specs.Stored.{
  moved_in,
  block_put,
  set_points_in,
  position_block_in,
  selected_in,
  controlled_in,
  written_in,
  carried_out_in,
};
ghost use Rattle.words.specs.Asked.{Place, Settings, Blocks, Mapped, HeldMap, Held, OneWord, Started, Standing, Tested, Written, Carried};

use block::Block;
use device::Device;
use dictionary::{Abort, Decision};
use dither::Dither;
use mapping::{Map, Maps};
use objects::{
    CONTROL_WORD as CONTROL_WORD_OBJECT, DITHER_TYPE, HOLD_SET_POINT, POSITION, SELECTION,
    SET_POINT, SETTINGS,
};

pub mod place;

use crate::place::{
    CONTROL_WORD, DITHER, ERROR_CODE, OTHER_BLOCK, PHASE, RECEIVE, SELECTED, SELECTED_BLOCK, STATE,
    TRANSMIT, WORDS,
};

// The highest number of so many bytes.
const ONE_BYTE: i64 = 255;

const TWO_BYTES: i64 = 65535;

const FOUR_BYTES: i64 = 4294967295;

// ---- numbers as words

// The word at a place is a number from 0 to the most.
fn is_number(words: &[i64; WORDS], k: usize, most: i64) -> bool
    requires { Place k }
    ensures { result ≡ is_number words.now k most }
{
    objects::lies_in(0, most, words[k])
}

// ---- reading

// A count of one byte and four entries of four bytes.
#[tactic(auto, unfolding(crate::specs::Words::hold_map))]
fn hold_map(words: &[i64; WORDS], from: usize) -> bool
    requires { Mapped from }
    ensures { result ≡ hold_map words.now from }
{
    let first = is_number(words, from + 1, FOUR_BYTES) & is_number(words, from + 2, FOUR_BYTES);
    let last = is_number(words, from + 3, FOUR_BYTES) & is_number(words, from + 4, FOUR_BYTES);
    is_number(words, from, ONE_BYTE) & (first & last)
}

// Each word that stands for a number of one, two or four bytes is one. The words come by value, since an array's length is known of a
// value alone.
#[tactic(auto, unfolding(crate::specs::Words::hold_device))]
pub fn hold_device(words: [i64; WORDS]) -> bool
    ensures { Tested words result }
{
    let bytes = is_number(&words, SELECTED, ONE_BYTE) & is_number(&words, STATE, ONE_BYTE);
    let twos = is_number(&words, CONTROL_WORD, TWO_BYTES)
        & is_number(&words, ERROR_CODE, TWO_BYTES);
    let phase = is_number(&words, PHASE, FOUR_BYTES);
    let maps = hold_map(&words, RECEIVE) & hold_map(&words, TRANSMIT);
    (bytes & twos) & (phase & maps)
}

#[tactic(auto, unfolding(crate::specs::Words::run))]
fn settings_at(words: &[i64; WORDS], from: usize) -> [i64; SETTINGS]
    requires { Settings from }
    ensures { result ≡ run words.now from Places.SETTINGS }
{
    let mut settings = [0i64; SETTINGS];
    for k in 0..SETTINGS {
        settings[k] = words[from + k];
    }
    settings
}

#[tactic(auto, unfolding(crate::specs::Words::block_in))]
fn block_at(words: &[i64; WORDS], from: usize) -> Block
    requires { Blocks from }
    ensures { result ≡ block_in words.now from }
{
    Block {
        setpoint: words[from],
        position: words[from + 1],
        settings: settings_at(words, from + 2),
    }
}

#[tactic(auto, unfolding(crate::specs::Words::map_in))]
fn map_at(words: &[i64; WORDS], from: usize) -> Map
    requires { HeldMap words.now from }
    ensures { result ≡ map_in words.now from }
{
    Map {
        count: words[from] as u8,
        entries: [
            words[from + 1] as u32,
            words[from + 2] as u32,
            words[from + 3] as u32,
            words[from + 4] as u32,
        ],
    }
}

#[tactic(auto, unfolding(crate::specs::Words::dither_in))]
fn dither_at(words: &[i64; WORDS]) -> Dither
    requires { Held words.now }
    ensures { result ≡ dither_in words.now }
{
    Dither {
        kind: words[DITHER],
        amplitude: words[DITHER + 1],
        frequency: words[DITHER + 2],
        phase: words[PHASE] as u32,
    }
}

// The device that the words hold.
#[tactic(auto, unfolding(crate::specs::Words::device_in))]
pub fn device_in(words: &[i64; WORDS]) -> Device
    requires { Held words.now }
    ensures { result ≡ device_in words.now }
{
    Device {
        block: block_at(words, SELECTED_BLOCK),
        other: block_at(words, OTHER_BLOCK),
        selected: words[SELECTED] as u8,
        state: words[STATE] as u8,
        control: words[CONTROL_WORD] as u16,
        error: words[ERROR_CODE] as u16,
        maps: Maps {
            receive: map_at(words, RECEIVE),
            transmit: map_at(words, TRANSMIT),
        },
        dither: dither_at(words),
    }
}

// ---- storing

// What control words, faults, ticks and jumps can change.
#[tactic(auto, unfolding(crate::specs::Stored::moved_in))]
pub fn put_moved(words: &mut [i64; WORDS], device: Device)
    ensures { words.new ≡ moved_in device words.old }
{
    let block = device.block;
    let position = block.position;
    let dither = device.dither;
    words[SELECTED_BLOCK + 1] = position;
    words[STATE] = i64::from(device.state);
    words[CONTROL_WORD] = i64::from(device.control);
    words[ERROR_CODE] = i64::from(device.error);
    words[PHASE] = i64::from(dither.phase);
}

// Where the block of a number begins.
#[tactic(auto, unfolding(crate::specs::Stored::start_of))]
fn start_of(words: &[i64; WORDS], which: u8) -> usize
    ensures { Started which words.now result }
{
    let selected = words[SELECTED];
    if selected == i64::from(which) {
        SELECTED_BLOCK
    } else {
        OTHER_BLOCK
    }
}

fn put_settings(words: &mut [i64; WORDS], from: usize, settings: [i64; SETTINGS])
    requires { Settings from }
    ensures { words.new ≡ sets words.old from settings }
{
    for k in 0..SETTINGS {
        words[from + k] = settings[k];
    }
}

#[tactic(auto, unfolding(crate::specs::Stored::block_put))]
fn put_block(words: &mut [i64; WORDS], from: usize, block: Block)
    requires { Blocks from }
    ensures { words.new ≡ block_put from block words.old }
{
    let setpoint = block.setpoint;
    let position = block.position;
    let settings = block.settings;
    words[from] = setpoint;
    words[from + 1] = position;
    put_settings(words, from + 2, settings);
}

// What a received PDO can change beside what moves: the set points of the position block.
#[tactic(auto, unfolding(crate::specs::Stored::set_points_in))]
pub fn put_set_points(words: &mut [i64; WORDS], device: Device)
    ensures { words.new ≡ set_points_in device words.old }
{
    let block = device::block_of(device, POSITION);
    let setpoint = block.setpoint;
    let start = start_of(&*words, POSITION);
    words[start] = setpoint;
    words[start + 2] = block::setting(block, HOLD_SET_POINT);
}

// What a load can change: the position block.
#[tactic(auto, unfolding(crate::specs::Stored::position_block_in))]
pub fn put_position_block(words: &mut [i64; WORDS], device: Device)
    ensures { words.new ≡ position_block_in device words.old }
{
    let block = device::block_of(device, POSITION);
    let start = start_of(&*words, POSITION);
    put_block(words, start, block);
}

// A fresh device: two fresh blocks, of which the position block is selected, and else all zeros.
#[tactic(auto, unfolding(crate::specs::Words::words_of, crate::specs::Stored::block_put, device::specs::Device::fresh_device, block::specs::Block::fresh_block, mapping::specs::Maps::fresh_map, mapping::specs::Maps::fresh_maps, dither::specs::Dither::fresh_dither, objects::specs::Table::objects))]
pub fn put_fresh(words: &mut [i64; WORDS])
    ensures { words.new ≡ words_of fresh_device }
{
    let block = block::fresh();
    *words = [0; WORDS];
    put_block(words, SELECTED_BLOCK, block);
    put_block(words, OTHER_BLOCK, block);
}

// The block of a number is selected: where it is the other one, the two change places.
#[tactic(auto, unfolding(crate::specs::Stored::selected_in))]
fn put_selected(words: &mut [i64; WORDS], which: u8)
    ensures { words.new ≡ selected_in which words.old }
{
    let selected = words[SELECTED];
    if selected != i64::from(which) {
        let block = block_at(&*words, SELECTED_BLOCK);
        let other = block_at(&*words, OTHER_BLOCK);
        put_block(words, SELECTED_BLOCK, other);
        put_block(words, OTHER_BLOCK, block);
        words[SELECTED] = i64::from(which);
    }
}

// The word of a value that has one of its own: a setting, a value of the dither, what stands in a map, a set point.
#[tactic(auto, unfolding(crate::specs::Stored::word_of))]
fn word_of(start: usize, place: usize) -> usize
    requires { OneWord start place }
    ensures { Standing start place result }
{
    if place < SETTINGS {
        start + 2 + place
    } else if place < SET_POINT {
        DITHER + (place - DITHER_TYPE)
    } else {
        start
    }
}

// A control word finds the device that the words hold.
#[tactic(auto, unfolding(crate::specs::Stored::controlled_in))]
fn put_controlled(words: &mut [i64; WORDS], word: u16)
    requires { Held words.old }
    ensures { words.new ≡ controlled_in word words.old }
{
    let device = device_in(&*words);
    put_moved(words, device::control(device, word));
}

// An accepted write of a value to a place of a block.
#[tactic(auto, unfolding(crate::specs::Stored::written_in))]
fn put_written(words: &mut [i64; WORDS], which: u8, place: usize, value: i64)
    requires { Written words.old place value }
    ensures { words.new ≡ written_in which place value words.old }
{
    match place {
        SELECTION => put_selected(words, value as u8),
        CONTROL_WORD_OBJECT => put_controlled(words, value as u16),
        _ => {
            let at = word_of(start_of(&*words, which), place);
            words[at] = value;
        }
    }
}

// What was decided is done: only a write changes a word.
pub fn carry_out(words: &mut [i64; WORDS], decision: Result<Decision, Abort>)
    requires { Carried words.old decision }
    ensures { words.new ≡ carried_out_in decision words.old }
{
    if let Ok(
        Decision::Write {
            which,
            place,
            value,
        },
    ) = decision
    {
        put_written(words, which, place, value);
    }
}
