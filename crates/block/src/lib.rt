#![tactic(auto)]
// A value chain: from the set point by the settings to the target, along the ramp to the position, and on to the command.
ghost use Rattle.std.specs.Prelude.{◌≡◌, ◌&&◌};
ghost use Rattle.integers.specs.Words.{◌=?◌, ◌≤?◌};
ghost use Rattle.objects.specs.Table.{row_at, in_row};
ghost use Rattle.objects.specs.Asked.{InTable};
ghost use Rattle.objects.specs.Places as Places;
ghost use Rattle.block.specs.Block.{at, setting, at_position, with_setpoint, with_setting, with_settings, fresh_block};
ghost use Rattle.block.specs.Target.{input_of, clamp_to, clamp_to_stroke, scaled_by, target_from, target_of, target_position};
ghost use Rattle.block.specs.Command.{whole_of, banded_by, banded_of, command_of};
ghost use Rattle.block.specs.Command as Commands;
ghost use Rattle.block.specs.Sound.{sound_settings, placed, sound_block, Sound};
ghost use Rattle.block.specs.Travel.{ramp_of, tick_block, jump_block, ticks_to_go_of};
ghost use Rattle.block.specs.Asked.{ASetting, Scaling, Chain, Band, Dithered};

use objects::{
    A_SIDE, ACCELERATION, ACCELERATION_NEGATIVE, ACCELERATION_POSITIVE, B_SIDE, DEAD_BAND_TYPE,
    DECELERATION, DECELERATION_NEGATIVE, DECELERATION_POSITIVE, FULL_POSITION, FULL_STROKE,
    HOLD_SET_POINT, LOWER_LIMIT, PARTS, RAMP_TYPE, SCALING_FACTOR, SCALING_OFFSET, SET_POINT,
    SETTINGS, THRESHOLD, UPPER_LIMIT, ZERO_CORRECTION,
};
use ramp::{Ramp, Times, Way};
use std::array;

#[derive(Clone, Copy, PartialEq, Eq)]
pub struct Block {
    pub setpoint: i64,
    // in 1/65,536 ir
    pub position: i64,
    // by their places in the object table
    pub settings: [i64; SETTINGS],
}

// ---- a block's parts

pub fn setting(block: Block, place: usize) -> i64
    requires { ASetting place }
    ensures { result ≡ setting block place }
{
    block.settings[place]
}

// The block at another position.
pub fn at_position(block: Block, position: i64) -> Block
    ensures { result ≡ at_position position block }
{
    Block { position, ..block }
}

// The block with another set point.
pub fn with_setpoint(block: Block, value: i64) -> Block
    ensures { result ≡ with_setpoint value block }
{
    Block {
        setpoint: value,
        ..block
    }
}

// The block with another setting at a place.
pub fn with_setting(mut block: Block, place: usize, value: i64) -> Block
    requires { ASetting place }
    ensures { result ≡ with_setting place value block }
{
    block.settings[place] = value;
    block
}

// The block with other settings.
pub fn with_settings(block: Block, settings: [i64; SETTINGS]) -> Block
    ensures { result ≡ with_settings settings block }
{
    Block { settings, ..block }
}

// ---- the target

#[tactic(auto, unfolding(crate::specs::Target::clamp_to))]
fn clamp_to(lower: i64, upper: i64, x: i64) -> i64
    ensures { result ≡ clamp_to lower upper x }
{
    if x < lower {
        lower
    } else if upper < x {
        upper
    } else {
        x
    }
}

#[tactic(auto, unfolding(crate::specs::Target::clamp_to_stroke))]
fn clamp_to_stroke(x: i64) -> i64
    ensures { result ≡ clamp_to_stroke x }
{
    clamp_to(-FULL_STROKE, FULL_STROKE, x)
}

// The scaling factor that is one.
const ONE: u64 = PARTS as u64;

// The magnitude is scaled and the sign put back at the end, so that both signs read alike: the fraction is dropped on both.
// Nothing can overflow: x lies at most 2^15 from zero and the factor is below 2^32, so that the product is below 2^47 and the scaled magnitude below 2^31.
#[tactic(auto, unfolding(crate::specs::Target::scaled_by, objects::specs::Table::objects))]
fn scaled_by(factor: i64, x: i64) -> i64
    requires { Scaling factor x }
    ensures { result ≡ scaled_by factor x }
{
    let product = x.unsigned_abs() * factor as u64;
    let scaled = (product / ONE) as i64;
    if x < 0 { -scaled } else { scaled }
}

#[tactic(auto, unfolding(objects::specs::Table::objects, crate::specs::Target::target_from))]
fn target_from(lower: i64, upper: i64, factor: i64, offset: i64, zero: i64, input: i64) -> i64
    requires { Chain lower upper factor offset zero input }
    ensures { result ≡ target_from lower upper factor offset zero input }
{
    let scaled = scaled_by(factor, clamp_to(lower, upper, input));
    clamp_to_stroke(scaled + offset + zero)
}

#[tactic(auto, unfolding(crate::specs::Target::input_of))]
fn input(block: Block, active: bool) -> i64
    ensures { result ≡ input_of active block }
{
    if active {
        block.setpoint
    } else {
        setting(block, HOLD_SET_POINT)
    }
}

// The target in ir. `active` says whether the input is the set point or the hold set point.
#[tactic(auto, unfolding(crate::specs::Target::target_of))]
pub fn target(block: Block, active: bool) -> i64
    requires { Sound block }
    ensures { result ≡ target_of active block }
{
    target_from(
        setting(block, LOWER_LIMIT),
        setting(block, UPPER_LIMIT),
        setting(block, SCALING_FACTOR),
        setting(block, SCALING_OFFSET),
        setting(block, ZERO_CORRECTION),
        input(block, active),
    )
}

#[tactic(auto, unfolding(crate::specs::Target::target_position))]
fn target_position(block: Block, active: bool) -> i64
    requires { Sound block }
    ensures { result ≡ target_position active block }
{
    target(block, active) * PARTS
}

// ---- the command

#[tactic(auto, unfolding(crate::specs::Command::whole_of))]
fn whole_of(position: i64) -> i64
    ensures { result ≡ whole_of position }
{
    position / PARTS
}

#[tactic(auto, unfolding(objects::specs::Table::objects, crate::specs::Command::banded))]
fn banded(a_side: i64, b_side: i64, threshold: i64, r: i64) -> i64
    requires { Band a_side b_side threshold r }
    ensures { result ≡ Commands.banded a_side b_side threshold r }
{
    if threshold < r {
        r + a_side
    } else if r < -threshold {
        r - b_side
    } else {
        0
    }
}

#[tactic(auto, unfolding(crate::specs::Command::banded_by))]
fn banded_by(kind: i64, a_side: i64, b_side: i64, threshold: i64, r: i64) -> i64
    requires { Band a_side b_side threshold r }
    ensures { result ≡ banded_by kind a_side b_side threshold r }
{
    if kind == 0 {
        r
    } else {
        banded(a_side, b_side, threshold, r)
    }
}

// The position in whole ir behind the dead band.
#[tactic(auto, unfolding(crate::specs::Command::banded_of))]
fn banded_of(block: Block) -> i64
    requires { Sound block }
    ensures { result ≡ banded_of block }
{
    banded_by(
        setting(block, DEAD_BAND_TYPE),
        setting(block, A_SIDE),
        setting(block, B_SIDE),
        setting(block, THRESHOLD),
        whole_of(block.position),
    )
}

// The command in ir: inside the dead band it is the dither alone, and the last clamp takes in the dither too.
#[tactic(auto, unfolding(crate::specs::Command::command_of))]
pub fn command(block: Block, dither: i64) -> i64
    requires { Dithered block dither }
    ensures { result ≡ command_of dither block }
{
    clamp_to_stroke(banded_of(block) + dither)
}

// ---- soundness

// Two values in the range of the row at a place, which is looked up once for both.
fn are_in_range(place: usize, x: i64, y: i64) -> bool
    requires { InTable place }
    ensures { result ≡ (in_row (row_at place) x && in_row (row_at place) y) }
{
    let row = objects::row_at(place);
    objects::lies_in(row.low, row.high, x) && objects::lies_in(row.low, row.high, y)
}

// The lower limit is not above the upper one.
fn are_limits_sound(settings: [i64; SETTINGS]) -> bool
    ensures { result ≡ (at settings Places.LOWER_LIMIT ≤? at settings Places.UPPER_LIMIT) }
{
    settings[LOWER_LIMIT] <= settings[UPPER_LIMIT]
}

// The settings of two blocks: each is in its row's range, and no limits are crossed.
#[tactic(auto, unfolding(crate::specs::Sound::sound_settings))]
fn are_settings_sound(settings: [i64; SETTINGS], others: [i64; SETTINGS]) -> bool
    ensures { result ≡ (sound_settings settings && sound_settings others) }
{
    for place in 0..SETTINGS {
        if !are_in_range(place, settings[place], others[place]) {
            return false;
        }
    }
    are_limits_sound(settings) && are_limits_sound(others)
}

// Those of one.
pub fn sound_settings(settings: [i64; SETTINGS]) -> bool
    ensures { result ≡ sound_settings settings }
{
    are_settings_sound(settings, settings)
}

// The position within full stroke, and the set point in its row's range.
fn is_placed(block: Block) -> bool
    ensures { result ≡ placed block }
{
    objects::lies_in(-FULL_POSITION, FULL_POSITION, block.position)
        && objects::in_range(SET_POINT, block.setpoint)
}

// Two blocks at once, so that each row is looked up once for both. The settings first: in the other order every call costs more.
#[tactic(auto, unfolding(crate::specs::Sound::sound_block))]
pub fn are_sound(block: Block, other: Block) -> bool
    ensures { result ≡ (sound_block block && sound_block other) }
{
    are_settings_sound(block.settings, other.settings) && is_placed(block) && is_placed(other)
}

// Every setting as the table has it fresh.
#[tactic(auto, unfolding(crate::specs::Block::fresh_block))]
pub fn fresh() -> Block
    ensures { result ≡ fresh_block }
{
    Block {
        setpoint: objects::row_at(SET_POINT).fresh,
        position: 0,
        settings: array::from_fn(|place| objects::row_at(place).fresh),
    }
}

// ---- ticks

fn ramp_of(block: Block) -> Ramp
    ensures { result ≡ ramp_of block }
{
    Ramp {
        kind: setting(block, RAMP_TYPE),
        acceleration: Times {
            one: setting(block, ACCELERATION),
            positive: setting(block, ACCELERATION_POSITIVE),
            negative: setting(block, ACCELERATION_NEGATIVE),
        },
        deceleration: Times {
            one: setting(block, DECELERATION),
            positive: setting(block, DECELERATION_POSITIVE),
            negative: setting(block, DECELERATION_NEGATIVE),
        },
    }
}

// The way of the block to its target.
fn way(block: Block, active: bool) -> Way
    requires { Sound block }
    ensures ramp { result.ramp ≡ ramp_of block }
    ensures target { result.target ≡ target_position active block }
    ensures position { result.position ≡ block.position }
{
    Way {
        ramp: ramp_of(block),
        target: target_position(block, active),
        position: block.position,
    }
}

// Whether the block has met its target.
pub fn at_target(block: Block, active: bool) -> bool
    requires { Sound block }
    ensures { result ≡ (block.position =? target_position active block) }
{
    block.position == target_position(block, active)
}

// One tick.
#[tactic(auto, unfolding(crate::specs::Travel::tick_block))]
pub fn tick(block: Block, active: bool) -> Block
    requires { Sound block }
    ensures { result ≡ tick_block active block }
{
    at_position(block, way(block, active).tick())
}

// n ticks at once.
#[tactic(auto, unfolding(crate::specs::Travel::jump_block))]
pub fn jump(block: Block, active: bool, n: u32) -> Block
    requires { Sound block }
    ensures { result ≡ jump_block active n block }
{
    at_position(block, way(block, active).jump(n))
}

// The ticks until the target is met.
#[tactic(auto, unfolding(crate::specs::Travel::ticks_to_go_of))]
pub fn ticks_to_go(block: Block, active: bool) -> u32
    requires { Sound block }
    ensures { result ≡ ticks_to_go_of active block }
{
    way(block, active).ticks_to_go()
}
