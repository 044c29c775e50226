#![tactic(auto)]
// The device: its four states, the control word, faults, ticks and jumps, and what can be asked of it. Of its two blocks these know the
// selected one alone. It holds the maps of process data, which no event of its own changes, and the dither, whose phase goes on where the
// valve is driven.
ghost use Rattle.std.specs.Prelude.{◌≡◌, ◌&&◌};
ghost use Rattle.device.specs.States.{from_disabled, from_hold, from_active, from_fault, next_state};
ghost use Rattle.device.specs.States as States;
ghost use Rattle.device.specs.Device.{fresh_device, with_block, with_other, with_maps, with_dither, block_of, with_block_of, selecting};
ghost use Rattle.device.specs.Events.{block_in, dither_in, error_in, controlled, faulted, tick_device, jump_device};
ghost use Rattle.device.specs.Events as Events;
ghost use Rattle.device.specs.Queries.{target_met, status_of, device_target, device_command, block_command, device_ticks_to_go};
ghost use Rattle.device.specs.Sound.{is_a_state, error_fits, selection_fits, sound_device, Sound};
ghost use Rattle.device.specs.Sound as Sounds;

pub mod refusal;

use block::Block;
use dither::Dither;
use mapping::Maps;
use objects::{POSITION, PRESSURE};
pub use refusal::Refusal;

#[derive(Clone, Copy, PartialEq, Eq)]
pub struct Device {
    // the selected block, which drives the command
    pub block: Block,
    // the other one
    pub other: Block,
    // which one is selected: 0 the position block, 1 the pressure block
    pub selected: u8,
    // 0 DISABLED, 1 HOLD, 2 ACTIVE, 3 FAULT
    pub state: u8,
    // the control word stored last
    pub control: u16,
    // the first fault's code
    pub error: u16,
    // what is received and sent as process data
    pub maps: Maps,
    // what is added to the command
    pub dither: Dither,
}

pub const DISABLED: u8 = 0;

pub const HOLD: u8 = 1;

pub const ACTIVE: u8 = 2;

pub const FAULT: u8 = 3;

// The control bits.
pub const LEAVE_DISABLED: u16 = 1;

pub const LEAVE_HOLD: u16 = 2;

pub const MODE_ACTIVE: u16 = 4;

pub const RESET_FAULT: u16 = 8;

// Bits 0 to 2.
const ALL_THREE: u16 = LEAVE_DISABLED + LEAVE_HOLD + MODE_ACTIVE;

// The status word of each state, and what is added in HOLD and ACTIVE while the position equals the target.
pub const STATUS_DISABLED: u16 = 8;

pub const STATUS_HOLD: u16 = 9;

pub const STATUS_ACTIVE: u16 = 15;

pub const STATUS_FAULT: u16 = 0;

pub const TARGET_MET: u16 = 256;

// ---- the parts of a device

// DISABLED, with every object as the table has it fresh.
#[tactic(auto, unfolding(crate::specs::Device::fresh_device))]
pub fn fresh() -> Device
    ensures { result ≡ fresh_device }
{
    let block = block::fresh();
    Device {
        block,
        other: block,
        selected: POSITION,
        state: DISABLED,
        control: 0,
        error: 0,
        maps: mapping::fresh(),
        dither: dither::fresh(),
    }
}

// The device with another selected block.
pub fn with_block(device: Device, block: Block) -> Device
    ensures { result ≡ with_block block device }
{
    Device { block, ..device }
}

// The device with another one in place of the block that is not selected.
pub fn with_other(device: Device, block: Block) -> Device
    ensures { result ≡ with_other block device }
{
    Device {
        other: block,
        ..device
    }
}

// The block of a number.
#[tactic(auto, unfolding(crate::specs::Device::block_of))]
pub fn block_of(device: Device, which: u8) -> Block
    ensures { result ≡ block_of which device }
{
    if device.selected == which {
        device.block
    } else {
        device.other
    }
}

// The device with another block of a number.
#[tactic(auto, unfolding(crate::specs::Device::with_block_of))]
pub fn with_block_of(device: Device, which: u8, block: Block) -> Device
    ensures { result ≡ with_block_of which block device }
{
    if device.selected == which {
        with_block(device, block)
    } else {
        with_other(device, block)
    }
}

// The device with the block of a number selected: where it is the other one, the two change places.
#[tactic(auto, unfolding(crate::specs::Device::selecting))]
pub fn select(device: Device, which: u8) -> Device
    ensures { result ≡ selecting which device }
{
    if device.selected == which {
        return device;
    }
    Device {
        block: device.other,
        other: device.block,
        selected: which,
        ..device
    }
}

// The device with other maps.
pub fn with_maps(device: Device, maps: Maps) -> Device
    ensures { result ≡ with_maps maps device }
{
    Device { maps, ..device }
}

// The device with another dither.
pub fn with_dither(device: Device, dither: Dither) -> Device
    ensures { result ≡ with_dither dither device }
{
    Device { dither, ..device }
}

// The valve is driven in HOLD and ACTIVE.
#[tactic(auto, unfolding(crate::specs::States::driven))]
fn driven(state: u8) -> bool
    ensures { result ≡ States.driven state }
{
    match state {
        HOLD | ACTIVE => true,
        _ => false,
    }
}

// ---- soundness

// One of the four states, with an error code exactly in FAULT.
#[tactic(auto, unfolding(crate::specs::Sound::is_a_state, crate::specs::Sound::error_fits))]
fn state_fits(state: u8, error: u16) -> bool
    ensures { result ≡ (is_a_state state && error_fits state error) }
{
    match state {
        DISABLED | HOLD | ACTIVE => error == 0,
        FAULT => error != 0,
        _ => false,
    }
}

// Not driven, the valve rests at position 0, and the dither at phase 0.
#[tactic(auto, unfolding(crate::specs::Sound::rests))]
fn rests(device: Device) -> bool
    ensures { result ≡ Sounds.rests device }
{
    driven(device.state) || (device.block.position == 0 && device.dither.phase == 0)
}

// One of the two blocks is selected, and the other one is at position 0.
#[tactic(auto, unfolding(crate::specs::Sound::selection_fits))]
fn selection_fits(device: Device) -> bool
    ensures { result ≡ selection_fits device }
{
    device.selected <= PRESSURE && device.other.position == 0
}

// The cheap tests first.
#[tactic(auto, unfolding(crate::specs::Sound::sound_device))]
pub fn is_sound(device: Device) -> bool
    ensures { result ≡ sound_device device }
{
    state_fits(device.state, device.error)
        && rests(device)
        && selection_fits(device)
        && block::are_sound(device.block, device.other)
        && dither::is_sound(device.dither)
        && mapping::is_sound(device.maps)
}

// ---- control words and faults

#[tactic(auto, unfolding(crate::specs::States::from_disabled))]
fn from_disabled(word: u16) -> u8
    ensures { result ≡ from_disabled word }
{
    match word % 2 {
        LEAVE_DISABLED => HOLD,
        _ => DISABLED,
    }
}

// Bits 0 to 2. HOLD and ACTIVE have one table: where a word leads does not depend on which of the two it finds.
#[tactic(auto, unfolding(crate::specs::States::from_hold, crate::specs::States::from_active))]
fn from_driven(word: u16) -> u8
    ensures hold { result ≡ from_hold word }
    ensures active { result ≡ from_active word }
{
    match word % 8 {
        ALL_THREE => ACTIVE,
        1 | 3 | 5 => HOLD,
        _ => DISABLED,
    }
}

// Bit 3 resets a fault where it was clear before: an edge, not a level.
#[tactic(auto, unfolding(crate::specs::States::from_fault))]
fn from_fault(before: u16, word: u16) -> u8
    ensures { result ≡ from_fault before word }
{
    let was_set = before / RESET_FAULT % 2;
    let is_set = word / RESET_FAULT % 2;
    if was_set < is_set { DISABLED } else { FAULT }
}

// The state after an accepted control word.
#[tactic(auto, unfolding(crate::specs::States::next_state))]
fn next_state(state: u8, before: u16, word: u16) -> u8
    ensures { result ≡ next_state state before word }
{
    match state {
        DISABLED => from_disabled(word),
        HOLD | ACTIVE => from_driven(word),
        _ => from_fault(before, word),
    }
}

// In DISABLED and FAULT the position is 0.
#[tactic(auto, unfolding(crate::specs::Events::block_in))]
fn block_in(state: u8, block: Block) -> Block
    ensures { result ≡ block_in state block }
{
    if driven(state) {
        block
    } else {
        block::at_position(block, 0)
    }
}

// In DISABLED and FAULT the phase is 0.
#[tactic(auto, unfolding(crate::specs::Events::dither_in))]
fn dither_in(state: u8, dither: Dither) -> Dither
    ensures { result ≡ dither_in state dither }
{
    if driven(state) {
        dither
    } else {
        dither::at_phase(dither, 0)
    }
}

// Only in FAULT there is an error code.
#[tactic(auto, unfolding(crate::specs::Events::error_in))]
fn error_in(state: u8, error: u16) -> u16
    ensures { result ≡ error_in state error }
{
    if state == FAULT { error } else { 0 }
}

// The device as it enters a state, which may be the one that it is in.
#[tactic(auto, unfolding(crate::specs::Events::entering))]
fn entering(device: Device, state: u8) -> Device
    ensures { result ≡ Events.entering state device }
{
    Device {
        block: block_in(state, device.block),
        dither: dither_in(state, device.dither),
        state,
        error: error_in(state, device.error),
        ..device
    }
}

// What an accepted control word does.
#[tactic(auto, unfolding(crate::specs::Events::controlled))]
pub fn control(device: Device, word: u16) -> Device
    ensures { result ≡ controlled word device }
{
    Device {
        control: word,
        ..entering(device, next_state(device.state, device.control, word))
    }
}

// The device with the code of a report: in FAULT the first code stays.
#[tactic(auto, unfolding(crate::specs::Events::reported))]
fn reported(device: Device, code: u16) -> Device
    ensures { result ≡ Events.reported code device }
{
    if device.state == FAULT {
        return device;
    }
    Device {
        error: code,
        ..device
    }
}

// What a fault report with a code other than 0 does.
#[tactic(auto, unfolding(crate::specs::Events::faulted))]
pub fn fault(device: Device, code: u16) -> Device
    ensures { result ≡ faulted code device }
{
    entering(reported(device, code), FAULT)
}

// ---- ticks and jumps

// One tick.
#[tactic(auto, using(crate::proofs::Laws::block_of_sound, crate::proofs::Laws::dither_of_sound), unfolding(crate::specs::Events::tick_device))]
pub fn tick(device: Device) -> Device
    requires { Sound device }
    ensures { result ≡ tick_device device }
{
    if driven(device.state) {
        Device {
            block: block::tick(device.block, device.state == ACTIVE),
            dither: dither::tick(device.dither),
            ..device
        }
    } else {
        device
    }
}

// n ticks at once.
#[tactic(auto, using(crate::proofs::Laws::block_of_sound, crate::proofs::Laws::dither_of_sound), unfolding(crate::specs::Events::jump_device))]
pub fn jump(device: Device, n: u32) -> Device
    requires { Sound device }
    ensures { result ≡ jump_device n device }
{
    if driven(device.state) {
        Device {
            block: block::jump(device.block, device.state == ACTIVE, n),
            dither: dither::jump(device.dither, n),
            ..device
        }
    } else {
        device
    }
}

// ---- queries

// The ticks until the target is met: none in DISABLED and FAULT.
#[tactic(auto, using(crate::proofs::Laws::block_of_sound), unfolding(crate::specs::Queries::device_ticks_to_go))]
pub fn ticks_to_go(device: Device) -> u32
    requires { Sound device }
    ensures { result ≡ device_ticks_to_go device }
{
    if driven(device.state) {
        block::ticks_to_go(device.block, device.state == ACTIVE)
    } else {
        0
    }
}

// The target in ir.
#[tactic(auto, using(crate::proofs::Laws::block_of_sound), unfolding(crate::specs::Queries::device_target))]
pub fn target(device: Device) -> i64
    requires { Sound device }
    ensures { result ≡ device_target device }
{
    block::target(device.block, device.state == ACTIVE)
}

// The command in ir.
#[tactic(auto, unfolding(crate::specs::Queries::device_command))]
pub fn command(device: Device) -> i64
    requires { Sound device }
    ensures { result ≡ device_command device }
{
    if driven(device.state) {
        block::command(device.block, dither::value(device.dither))
    } else {
        0
    }
}

// The command of a block: that of the block not selected is 0.
#[tactic(auto, unfolding(crate::specs::Queries::block_command))]
pub fn command_of(device: Device, which: u8) -> i64
    requires { Sound device }
    ensures { result ≡ block_command which device }
{
    let drives = device.selected == which;
    if drives { command(device) } else { 0 }
}

// 256 while a driven valve is at its target.
#[tactic(auto, using(crate::proofs::Laws::block_of_sound), unfolding(crate::specs::Queries::target_met))]
fn target_met(device: Device) -> u16
    requires { Sound device }
    ensures { result ≡ target_met device }
{
    if block::at_target(device.block, device.state == ACTIVE) {
        TARGET_MET
    } else {
        0
    }
}

// The status word.
#[tactic(auto, using(crate::proofs::Laws::met_most), unfolding(crate::specs::Queries::status_of))]
pub fn status(device: Device) -> u16
    requires { Sound device }
    ensures { result ≡ status_of device }
{
    match device.state {
        DISABLED => STATUS_DISABLED,
        HOLD => STATUS_HOLD + target_met(device),
        ACTIVE => STATUS_ACTIVE + target_met(device),
        _ => STATUS_FAULT,
    }
}
