#![tactic(auto)]
// The object dictionary: what an index and a sub-index name, what becomes of a read or a write of it, as a decision, and the carrying
// out of that.
ghost use Rattle.std.specs.Prelude.{◌≡◌, ◌+◌, if◌then◌else◌};
ghost use Rattle.integers.specs.Words.{◌is◌};
ghost use Rattle.dictionary.specs.Aborts.{code_of_abort, abort_of};
ghost use Rattle.dictionary.specs.Values.{value_at, written_to};
ghost use Rattle.dictionary.specs.Named as Named;
ghost use Rattle.objects.specs.Table.{row_at};
ghost use Rattle.dictionary.specs.Decide.{is_locked, size_abort, range_abort, range_rule, map_ruling, read_of, read_decision, write_of, write_decision, carried_out};
ghost use Rattle.dictionary.specs.Decide as Decide;
ghost use Rattle.dictionary.specs.Asked.{Placed, Other, Mapped, Looked, After, Ranged, Valued, Writing, MapWriting, Decided};
ghost use Rattle.device.specs.Sound.{Sound};

use block::Block;
use device::{ACTIVE, DISABLED, Device};
use mapping::{Maps, Misfit, RECEIVABLE, SENDABLE};
use objects::{
    CONTROL_WORD, DITHER_TYPE, ERROR_CODE, Entry, LOWER_LIMIT, Lock, Place, RECEIVE_MAP, Row,
    SELECTION, SET_POINT, SETTINGS, STATUS_WORD, TRANSMIT_MAP, UPPER_LIMIT,
};

// The codes of the aborts, in document 01's order, and those of a map after them.
pub const UNKNOWN_COMMAND: u32 = 0x05040001;

pub const NO_OBJECT: u32 = 0x06020000;

pub const NO_SUB_INDEX: u32 = 0x06090011;

pub const READ_ONLY_ENTRY: u32 = 0x06010002;

pub const TOO_MANY_BYTES: u32 = 0x06070012;

pub const TOO_FEW_BYTES: u32 = 0x06070013;

pub const TOO_HIGH: u32 = 0x06090031;

pub const TOO_LOW: u32 = 0x06090032;

pub const NO_SUCH_CHOICE: u32 = 0x06090030;

pub const LIMITS_CROSSED: u32 = 0x06090036;

pub const LOCKED_NOW: u32 = 0x08000022;

pub const MAP_TOO_LONG: u32 = 0x06040042;

pub const NOT_MAPPABLE: u32 = 0x06040041;

// Why a request is aborted.
#[derive(Clone, Copy)]
pub enum Abort {
    UnknownCommand,
    NoObject,
    NoSubIndex,
    ReadOnlyEntry,
    TooManyBytes,
    TooFewBytes,
    TooHigh,
    TooLow,
    NoSuchChoice,
    LimitsCrossed,
    LockedNow,
    MapTooLong,
    NotMappable,
    // a code of the caller's own, which no decision of the library has
    Other(u32),
}

impl Abort {
    // The code that the reply has.
    pub fn code(self) -> u32
        ensures { result ≡ code_of_abort self }
    {
        match self {
            Abort::UnknownCommand => UNKNOWN_COMMAND,
            Abort::NoObject => NO_OBJECT,
            Abort::NoSubIndex => NO_SUB_INDEX,
            Abort::ReadOnlyEntry => READ_ONLY_ENTRY,
            Abort::TooManyBytes => TOO_MANY_BYTES,
            Abort::TooFewBytes => TOO_FEW_BYTES,
            Abort::TooHigh => TOO_HIGH,
            Abort::TooLow => TOO_LOW,
            Abort::NoSuchChoice => NO_SUCH_CHOICE,
            Abort::LimitsCrossed => LIMITS_CROSSED,
            Abort::LockedNow => LOCKED_NOW,
            Abort::MapTooLong => MAP_TOO_LONG,
            Abort::NotMappable => NOT_MAPPABLE,
            Abort::Other(code) => code,
        }
    }
}

impl From<Misfit> for Abort {
    ghost from_gives = { λ misfit abort. abort ≡ abort_of misfit };

    fn from(misfit: Misfit) -> Abort {
        match misfit {
            Misfit::WhileCounted => Abort::LockedNow,
            Misfit::AboveFour => Abort::MapTooLong,
            Misfit::NotMappable => Abort::NotMappable,
        }
    }
}

// What becomes of a request that isn't aborted: so many bytes of a number read, or a value to be written to a place of a block.
#[derive(Clone, Copy)]
pub enum Decision {
    Read { size: u8, number: u32 },
    Write { which: u8, place: usize, value: i64 },
}

// ---- values

// What stands at a place of a map.
fn map_value(device: Device, which: u8, place: usize) -> i64
    requires { Mapped device place }
    ensures { Valued device which place result }
{
    if place < TRANSMIT_MAP {
        mapping::stands_at(device.maps.receive, place - RECEIVE_MAP) as i64
    } else {
        mapping::stands_at(device.maps.transmit, place - TRANSMIT_MAP) as i64
    }
}

// The value of an object that is neither a stored setting nor of the dither nor a map.
#[tactic(auto, unfolding(crate::specs::Values::value_at, objects::specs::Table::objects))]
fn other_value(device: Device, which: u8, place: usize) -> i64
    requires { Other device place }
    ensures { Valued device which place result }
{
    match place {
        SET_POINT => device::block_of(device, which).setpoint,
        SELECTION => device.selected as i64,
        CONTROL_WORD => device.control as i64,
        STATUS_WORD => device::status(device) as i64,
        ERROR_CODE => device.error as i64,
        _ => device::command_of(device, which),
    }
}

// The value of a block at a place.
#[tactic(auto, unfolding(crate::specs::Values::value_at))]
fn value_at(device: Device, which: u8, place: usize) -> i64
    requires { Placed device place }
    ensures { Valued device which place result }
{
    if place < SETTINGS {
        block::setting(device::block_of(device, which), place)
    } else if place < RECEIVE_MAP {
        dither::stands_at(device.dither, place - DITHER_TYPE)
    } else if place < SET_POINT {
        map_value(device, which, place)
    } else {
        other_value(device, which, place)
    }
}

// ---- the decision on a read

// The row so many after an object's first, which is at hand: it is looked up once for an object with one value.
fn row_after(place: usize, row: Row, k: u8) -> Row
    requires { After place row k }
    ensures { result ≡ row_at (place + k) }
{
    if k == 0 {
        row
    } else {
        objects::row_at(place + k as usize)
    }
}

// The bytes of an object's value.
#[tactic(auto, unfolding(crate::specs::Decide::read_of))]
fn read_value(device: Device, which: u8, place: usize, row: Row) -> Decision
    requires { Looked device place row }
    ensures { Ok result ≡ read_of device (Named.value which place) }
{
    let size = row.size;
    let number = coding::number_of(size, value_at(device, which, place));
    Decision::Read { size, number }
}

// What becomes of a read of an index and a sub-index. The row is looked up and handed on.
#[tactic(auto, using(objects::proofs::Rules::found_below, objects::proofs::Rules::value_below), unfolding(crate::specs::Named::named, crate::specs::Decide::read_decision, crate::specs::Decide::read_of))]
pub fn decide_read(device: Device, index: u16, sub: u8) -> Result<Decision, Abort>
    requires { Sound device }
    ensures { result ≡ read_decision device index sub }
{
    let Some(Place { which, place }) = objects::place_of(index) else {
        return Err(Abort::NoObject);
    };
    let row = objects::row_at(place);
    match objects::entry_at(row.entries, sub) {
        Some(Entry::Value(k)) => {
            let row = row_after(place, row, k);
            Ok(read_value(device, which, place + k as usize, row))
        }
        Some(Entry::Fixed(byte)) => Ok(Decision::Read {
            size: 1,
            number: byte as u32,
        }),
        None => Err(Abort::NoSubIndex),
    }
}

// ---- the decision on a write

// The upper limit of a block would be below its lower after this write.
#[tactic(auto, unfolding(crate::specs::Decide::crosses))]
fn crosses(block: Block, place: usize, value: i64) -> bool
    ensures { result ≡ Decide.crosses block place value }
{
    match place {
        UPPER_LIMIT => value < block::setting(block, LOWER_LIMIT),
        LOWER_LIMIT => block::setting(block, UPPER_LIMIT) < value,
        _ => false,
    }
}

// An object with this lock may not be written in this state.
#[tactic(auto, unfolding(crate::specs::Decide::is_locked))]
fn is_locked(lock: Lock, state: u8) -> bool
    ensures { result ≡ is_locked lock state }
{
    match lock {
        Lock::Free => false,
        Lock::WhileActive => state == ACTIVE,
        Lock::OutsideDisabled => state != DISABLED,
    }
}

// An abort where a rule is broken.
fn abort_if(broken: bool, abort: Abort) -> Result<(), Abort>
    ensures { result ≡ (if broken then Err abort else Ok tt) }
{
    if broken { Err(abort) } else { Ok(()) }
}

// As many bytes have to be sent as the type has: one abort for too many, one for too few.
fn check_size(has: u8, sent: u8) -> Result<(), Abort>
    ensures { result ≡ (if has is sent then Ok tt else Err (size_abort has sent)) }
{
    if has == sent {
        return Ok(());
    }
    if has < sent {
        Err(Abort::TooManyBytes)
    } else {
        Err(Abort::TooFewBytes)
    }
}

// A choice among numbered kinds has one abort for both ways out of its range.
fn range_abort(choice: bool, abort: Abort) -> Abort
    ensures { result ≡ range_abort choice abort }
{
    if choice { Abort::NoSuchChoice } else { abort }
}

// A value has to lie in its row's range.
fn check_range(row: Row, value: i64) -> Result<(), Abort>
    ensures { result ≡ range_rule row value }
{
    if row.high < value {
        return Err(range_abort(row.choice, Abort::TooHigh));
    }
    if value < row.low {
        return Err(range_abort(row.choice, Abort::TooLow));
    }
    Ok(())
}

// What the rules of a map say of a write to a place; elsewhere they allow all.
#[tactic(auto, unfolding(crate::specs::Decide::map_ruling))]
fn map_ruling(maps: Maps, place: usize, value: i64) -> Result<(), Misfit>
    requires { Ranged place value }
    ensures { result ≡ map_ruling maps place value }
{
    if place < RECEIVE_MAP {
        return Ok(());
    }
    if place < TRANSMIT_MAP {
        return mapping::ruling_on(RECEIVABLE, maps.receive, place - RECEIVE_MAP, value as u32);
    }
    if place < SET_POINT {
        return mapping::ruling_on(SENDABLE, maps.transmit, place - TRANSMIT_MAP, value as u32);
    }
    Ok(())
}

// The aborts of a write of so many bytes of a number, from the fourth on, in their order.
#[tactic(auto, unfolding(crate::specs::Decide::write_of, crate::specs::Decide::verdict_on))]
fn write_value(
    device: Device,
    which: u8,
    place: usize,
    row: Row,
    size: u8,
    number: u32,
) -> Result<Decision, Abort>
    requires { Looked device place row }
    ensures { result ≡ write_of device size number (Named.value which place) }
{
    abort_if(!row.writable, Abort::ReadOnlyEntry)?;
    check_size(row.size, size)?;
    let value = coding::value_of(row.size, row.signed, number);
    check_range(row, value)?;
    abort_if(
        crosses(device::block_of(device, which), place, value),
        Abort::LimitsCrossed,
    )?;
    abort_if(is_locked(row.lock, device.state), Abort::LockedNow)?;
    map_ruling(device.maps, place, value)?;
    Ok(Decision::Write {
        which,
        place,
        value,
    })
}

// What becomes of a write to an index and a sub-index. The row is looked up and handed on.
#[tactic(auto, using(objects::proofs::Rules::found_below, objects::proofs::Rules::value_below), unfolding(crate::specs::Named::named, crate::specs::Decide::write_decision, crate::specs::Decide::write_of))]
pub fn decide_write(
    device: Device,
    index: u16,
    sub: u8,
    size: u8,
    number: u32,
) -> Result<Decision, Abort>
    requires { Sound device }
    ensures { result ≡ write_decision device index sub size number }
{
    let Some(Place { which, place }) = objects::place_of(index) else {
        return Err(Abort::NoObject);
    };
    let row = objects::row_at(place);
    match objects::entry_at(row.entries, sub) {
        Some(Entry::Value(k)) => {
            let row = row_after(place, row, k);
            write_value(device, which, place + k as usize, row, size, number)
        }
        Some(Entry::Fixed(_)) => Err(Abort::ReadOnlyEntry),
        None => Err(Abort::NoSubIndex),
    }
}

// ---- carrying it out

// An accepted write to a map.
#[tactic(auto, unfolding(crate::specs::Values::written_to))]
fn map_written(device: Device, which: u8, place: usize, value: i64) -> Device
    requires { MapWriting place value }
    ensures { result ≡ written_to which place value device }
{
    let maps = device.maps;
    let number = value as u32;
    if place < TRANSMIT_MAP {
        let map = mapping::with_at(maps.receive, place - RECEIVE_MAP, number);
        device::with_maps(device, mapping::with_receive(maps, map))
    } else {
        let map = mapping::with_at(maps.transmit, place - TRANSMIT_MAP, number);
        device::with_maps(device, mapping::with_transmit(maps, map))
    }
}

// An accepted write.
#[tactic(auto, unfolding(crate::specs::Values::written_to))]
fn written_to(device: Device, which: u8, place: usize, value: i64) -> Device
    requires { Writing place value }
    ensures { result ≡ written_to which place value device }
{
    if place < SETTINGS {
        let block = device::block_of(device, which);
        return device::with_block_of(device, which, block::with_setting(block, place, value));
    }
    if place < RECEIVE_MAP {
        let dither = dither::with_at(device.dither, place - DITHER_TYPE, value);
        return device::with_dither(device, dither);
    }
    if place < SET_POINT {
        return map_written(device, which, place, value);
    }
    match place {
        SET_POINT => {
            let block = device::block_of(device, which);
            device::with_block_of(device, which, block::with_setpoint(block, value))
        }
        SELECTION => device::select(device, value as u8),
        CONTROL_WORD => device::control(device, value as u16),
        _ => device,
    }
}

// The device after a decision: only a write changes it.
pub fn carry_out(device: Device, decision: Result<Decision, Abort>) -> Device
    requires { Decided decision }
    ensures { result ≡ carried_out decision device }
{
    match decision {
        Ok(
            Decision::Write {
                which,
                place,
                value,
            },
        ) => written_to(device, which, place, value),
        Ok(Decision::Read { size: _, number: _ }) | Err(_) => device,
    }
}
