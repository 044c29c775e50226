#![tactic(auto)]
// The object table of document 01, with the maps, the dither and the two blocks of document 02. What is read, written, kept sound, stored and loaded goes by its rows.
ghost use Rattle.std.specs.Prelude.{◌≡◌};
ghost use Rattle.objects.specs.Table.{objects, columns_at, row_at, lies_in, in_row};
ghost use Rattle.objects.specs.Table as Table;
ghost use Rattle.objects.specs.Lookup.{block_number, place_from, place_of, record_entry, entry_at};
ghost use Rattle.objects.specs.Asked.{InTable};

use Access::{Ro, Rw};
use Kind::{I8, I16, U8, U16, U32};
use Lock::{Free, OutsideDisabled, WhileActive};

pub mod index;

// ---- the numbers that stay fixed

// Full stroke, in ir.
pub const FULL_STROKE: i64 = 16384;

// A position counts so many parts of an ir; the scaling factor that is one has so many too.
pub const PARTS: i64 = 65536;

// Full stroke as a position.
pub const FULL_POSITION: i64 = FULL_STROKE * PARTS;

// ---- the rows

// A value by the names of its columns: its range and its fresh value, its index and sub-index, what the object consists of, and how
// it may be written.
#[derive(Clone, Copy)]
pub struct Row {
    pub low: i64,
    pub high: i64,
    pub fresh: i64,
    pub index: u16,
    pub sub: u8,
    pub entries: u8,
    pub size: u8,
    pub lock: Lock,
    pub signed: bool,
    pub writable: bool,
    pub choice: bool,
}

// The places of the values: the stored settings first, in tag order (a tag is the place and one), then the others that can be
// written, then those that are read only. A map has five, its number of entries and then the four entries.
pub const HOLD_SET_POINT: usize = 0;

pub const UPPER_LIMIT: usize = 1;

pub const LOWER_LIMIT: usize = 2;

pub const SCALING_FACTOR: usize = 3;

pub const SCALING_OFFSET: usize = 4;

pub const ZERO_CORRECTION: usize = 5;

pub const RAMP_TYPE: usize = 6;

pub const ACCELERATION: usize = 7;

pub const ACCELERATION_POSITIVE: usize = 8;

pub const ACCELERATION_NEGATIVE: usize = 9;

pub const DECELERATION: usize = 10;

pub const DECELERATION_POSITIVE: usize = 11;

pub const DECELERATION_NEGATIVE: usize = 12;

pub const DEAD_BAND_TYPE: usize = 13;

pub const A_SIDE: usize = 14;

pub const B_SIDE: usize = 15;

pub const THRESHOLD: usize = 16;

pub const DITHER_TYPE: usize = 17;

pub const DITHER_AMPLITUDE: usize = 18;

pub const DITHER_FREQUENCY: usize = 19;

pub const RECEIVE_MAP: usize = 20;

pub const TRANSMIT_MAP: usize = 25;

pub const SET_POINT: usize = 30;

pub const SELECTION: usize = 31;

pub const CONTROL_WORD: usize = 32;

pub const STATUS_WORD: usize = 33;

pub const ERROR_CODE: usize = 34;

pub const COMMAND: usize = 35;

// How many are stored settings, how many can be written, and how many there are.
pub const SETTINGS: usize = 17;

pub const WRITABLE: usize = 33;

pub const ROWS: usize = 36;

// The two blocks by their numbers. The rows of the position block are those of the pressure block too.
pub const POSITION: u8 = 0;

pub const PRESSURE: u8 = 1;

// A row as the table prints it: index, sub-index, entries, type, size, access, low, high, fresh value, lock.
#[derive(Clone, Copy)]
pub struct Columns(
    pub u16,
    pub u8,
    pub u8,
    pub Kind,
    pub u8,
    pub Access,
    pub i64,
    pub i64,
    pub i64,
    pub Lock,
);

// The entries: a variable has none, a record one, a time three, a map four.
const VARIABLE: u8 = 0;

const RECORD: u8 = 1;

const TIME: u8 = 3;

const MAP: u8 = 4;

// The types, as the table names them.
#[derive(Clone, Copy)]
pub enum Kind {
    I8,
    I16,
    U16,
    U32,
    U8,
}

// The access, abbreviated as in object dictionaries: read only, or read and written.
#[derive(Clone, Copy)]
pub enum Access {
    Ro,
    Rw,
}

// The lock: an object that can be written in every state, in all but ACTIVE, or in DISABLED alone.
#[derive(Clone, Copy)]
pub enum Lock {
    Free,
    WhileActive,
    OutsideDisabled,
}

const OBJECTS: [Columns; ROWS] = [
    Columns(0x6314, 1, RECORD, I16, 2, Rw, -32768, 32767, 0, Free), // hold set point
    Columns(0x6320, 1, RECORD, I16, 2, Rw, -32768, 32767, 16384, Free), // upper limit
    Columns(0x6321, 1, RECORD, I16, 2, Rw, -32768, 32767, -16384, Free), // lower limit
    Columns(0x6322, 0, VARIABLE, U32, 4, Rw, 0, 4294967295, 65536, Free), // scaling factor
    Columns(0x6323, 1, RECORD, I16, 2, Rw, -32768, 32767, 0, Free), // scaling offset
    Columns(0x6324, 1, RECORD, I16, 2, Rw, -32768, 32767, 0, Free), // zero correction
    Columns(0x6330, 0, VARIABLE, I8, 1, Rw, 0, 3, 0, WhileActive), // ramp type
    Columns(0x6331, 1, TIME, U32, 4, Rw, 0, 3600000, 0, WhileActive), // acceleration time: one
    Columns(0x6332, 1, TIME, U32, 4, Rw, 0, 3600000, 0, WhileActive), // positive
    Columns(0x6333, 1, TIME, U32, 4, Rw, 0, 3600000, 0, WhileActive), // negative
    Columns(0x6334, 1, TIME, U32, 4, Rw, 0, 3600000, 0, WhileActive), // deceleration time: one
    Columns(0x6335, 1, TIME, U32, 4, Rw, 0, 3600000, 0, WhileActive), // positive
    Columns(0x6336, 1, TIME, U32, 4, Rw, 0, 3600000, 0, WhileActive), // negative
    Columns(0x6342, 0, VARIABLE, I8, 1, Rw, 0, 1, 0, WhileActive), // dead band type
    Columns(0x6343, 1, RECORD, I16, 2, Rw, 0, 4096, 0, WhileActive), // dead band A side
    Columns(0x6344, 1, RECORD, I16, 2, Rw, 0, 4096, 0, WhileActive), // dead band B side
    Columns(0x6345, 1, RECORD, I16, 2, Rw, 0, 16384, 0, WhileActive), // dead band threshold
    Columns(0x6360, 0, VARIABLE, I8, 1, Rw, 0, 2, 0, WhileActive), // dither type
    Columns(0x6361, 1, RECORD, U16, 2, Rw, 0, 1024, 0, WhileActive), // dither amplitude
    Columns(0x6362, 1, RECORD, U16, 2, Rw, 0, 250, 0, WhileActive), // dither frequency
    Columns(0x1600, 0, MAP, U8, 1, Rw, 0, 255, 0, Free), // receive map: number of entries
    Columns(0x1600, 1, MAP, U32, 4, Rw, 0, 4294967295, 0, Free), // entry 1
    Columns(0x1600, 2, MAP, U32, 4, Rw, 0, 4294967295, 0, Free), // entry 2
    Columns(0x1600, 3, MAP, U32, 4, Rw, 0, 4294967295, 0, Free), // entry 3
    Columns(0x1600, 4, MAP, U32, 4, Rw, 0, 4294967295, 0, Free), // entry 4
    Columns(0x1A00, 0, MAP, U8, 1, Rw, 0, 255, 0, Free), // transmit map: number of entries
    Columns(0x1A00, 1, MAP, U32, 4, Rw, 0, 4294967295, 0, Free), // entry 1
    Columns(0x1A00, 2, MAP, U32, 4, Rw, 0, 4294967295, 0, Free), // entry 2
    Columns(0x1A00, 3, MAP, U32, 4, Rw, 0, 4294967295, 0, Free), // entry 3
    Columns(0x1A00, 4, MAP, U32, 4, Rw, 0, 4294967295, 0, Free), // entry 4
    Columns(0x6300, 1, RECORD, I16, 2, Rw, -32768, 32767, 0, Free), // set point
    Columns(0x2000, 0, VARIABLE, U8, 1, Rw, 0, 1, 0, OutsideDisabled), // selection
    Columns(0x6040, 0, VARIABLE, U16, 2, Rw, 0, 65535, 0, Free), // control word
    Columns(0x6041, 0, VARIABLE, U16, 2, Ro, 0, 65535, 0, Free), // status word
    Columns(0x604E, 0, VARIABLE, U16, 2, Ro, 0, 65535, 0, Free), // error code
    Columns(0x6310, 1, RECORD, I16, 2, Ro, -32768, 32767, 0, Free), // command
];

// The columns at a place. Only this function reads the table: an arm for each row, since the index of an array, also of a `static`, costs
// every call of the library a hundred instructions more, in its test of the ranges.
#[tactic(auto, unfolding(crate::specs::Table::objects))]
fn columns_at(place: usize) -> Columns
    requires { InTable place }
    ensures { result ≡ columns_at place }
{
    let table = OBJECTS;
    match place {
        0 => table[0],
        1 => table[1],
        2 => table[2],
        3 => table[3],
        4 => table[4],
        5 => table[5],
        6 => table[6],
        7 => table[7],
        8 => table[8],
        9 => table[9],
        10 => table[10],
        11 => table[11],
        12 => table[12],
        13 => table[13],
        14 => table[14],
        15 => table[15],
        16 => table[16],
        17 => table[17],
        18 => table[18],
        19 => table[19],
        20 => table[20],
        21 => table[21],
        22 => table[22],
        23 => table[23],
        24 => table[24],
        25 => table[25],
        26 => table[26],
        27 => table[27],
        28 => table[28],
        29 => table[29],
        30 => table[30],
        31 => table[31],
        32 => table[32],
        33 => table[33],
        34 => table[34],
        _ => table[35],
    }
}

#[tactic(auto, unfolding(crate::specs::Table::is_signed))]
fn is_signed(kind: Kind) -> bool
    ensures { result ≡ Table.is_signed kind }
{
    matches!(kind, I8 | I16)
}

fn is_writable(access: Access) -> bool
    ensures { result ≡ Table.is_writable access }
{
    matches!(access, Rw)
}

// A choice among numbered kinds, of which too high and too low are the same mistake.
#[tactic(auto, unfolding(crate::specs::Table::is_choice))]
fn is_choice(place: usize) -> bool
    ensures { result ≡ Table.is_choice place }
{
    matches!(place, RAMP_TYPE | DEAD_BAND_TYPE | DITHER_TYPE)
}

// The row at a place.
pub fn row_at(place: usize) -> Row
    requires { InTable place }
    ensures { result ≡ row_at place }
{
    let columns = columns_at(place);
    Row {
        low: columns.6,
        high: columns.7,
        fresh: columns.8,
        index: columns.0,
        sub: columns.1,
        entries: columns.2,
        size: columns.4,
        lock: columns.9,
        signed: is_signed(columns.3),
        writable: is_writable(columns.5),
        choice: is_choice(place),
    }
}

// From `low` to `high`, ends included.
#[tactic(auto, unfolding(crate::specs::Table::lies_in))]
pub fn lies_in(low: i64, high: i64, x: i64) -> bool
    ensures { result ≡ lies_in low high x }
{
    (low..=high).contains(&x)
}

// In the range of the row at a place.
pub fn in_range(place: usize, x: i64) -> bool
    requires { InTable place }
    ensures { result ≡ in_row (row_at place) x }
{
    let row = row_at(place);
    lies_in(row.low, row.high, x)
}

// The index of the object at a place, by their names; a map has five places.
#[tactic(auto, unfolding(crate::specs::Table::objects, integers::specs::Words::each))]
pub fn index_of(place: usize) -> u16
    requires { InTable place }
    ensures { result ≡ (row_at place).index }
{
    match place {
        HOLD_SET_POINT => index::HOLD_SET_POINT,
        UPPER_LIMIT => index::UPPER_LIMIT,
        LOWER_LIMIT => index::LOWER_LIMIT,
        SCALING_FACTOR => index::SCALING_FACTOR,
        SCALING_OFFSET => index::SCALING_OFFSET,
        ZERO_CORRECTION => index::ZERO_CORRECTION,
        RAMP_TYPE => index::RAMP_TYPE,
        ACCELERATION => index::ACCELERATION,
        ACCELERATION_POSITIVE => index::ACCELERATION_POSITIVE,
        ACCELERATION_NEGATIVE => index::ACCELERATION_NEGATIVE,
        DECELERATION => index::DECELERATION,
        DECELERATION_POSITIVE => index::DECELERATION_POSITIVE,
        DECELERATION_NEGATIVE => index::DECELERATION_NEGATIVE,
        DEAD_BAND_TYPE => index::DEAD_BAND_TYPE,
        A_SIDE => index::A_SIDE,
        B_SIDE => index::B_SIDE,
        THRESHOLD => index::THRESHOLD,
        DITHER_TYPE => index::DITHER_TYPE,
        DITHER_AMPLITUDE => index::DITHER_AMPLITUDE,
        DITHER_FREQUENCY => index::DITHER_FREQUENCY,
        20..=24 => index::RECEIVE_MAP,
        25..=29 => index::TRANSMIT_MAP,
        SET_POINT => index::SET_POINT,
        SELECTION => index::SELECTION,
        CONTROL_WORD => index::CONTROL_WORD,
        STATUS_WORD => index::STATUS_WORD,
        ERROR_CODE => index::ERROR_CODE,
        _ => index::COMMAND,
    }
}

// ---- from an index and a sub-index to a row and an entry

// Of which block an index is, and where it stands in the table: its first row.
#[derive(Clone, Copy)]
pub struct Place {
    pub which: u8,
    pub place: usize,
}

// The place of an object, by its index or that of its counterpart. The objects stand in runs of consecutive indexes, and so do their
// rows.
#[tactic(auto, unfolding(crate::specs::Table::objects, crate::specs::Lookup::place_from, integers::specs::Words::each))]
fn place_in(index: u16) -> Option<usize>
    ensures { result ≡ place_from 0 objects index }
{
    match index {
        0x1600 => Some(RECEIVE_MAP),
        0x1A00 => Some(TRANSMIT_MAP),
        0x2000 => Some(SELECTION),
        0x6040..=0x6041 => Some(CONTROL_WORD + (index - 0x6040) as usize),
        0x604E => Some(ERROR_CODE),
        0x6300 => Some(SET_POINT),
        0x6310 => Some(COMMAND),
        0x6314 => Some(HOLD_SET_POINT),
        0x6320..=0x6324 => Some(UPPER_LIMIT + (index - 0x6320) as usize),
        0x6330..=0x6336 => Some(RAMP_TYPE + (index - 0x6330) as usize),
        0x6342..=0x6345 => Some(DEAD_BAND_TYPE + (index - 0x6342) as usize),
        0x6360..=0x6362 => Some(DITHER_TYPE + (index - 0x6360) as usize),
        _ => None,
    }
}

// The block of which an index is: 6380h to 63C5h are those of the pressure block.
#[tactic(auto, unfolding(crate::specs::Lookup::block_number))]
fn block_number(index: u16) -> u8
    ensures { result ≡ block_number index }
{
    match index {
        0x6380..=0x63C5 => PRESSURE,
        _ => POSITION,
    }
}

// A pressure object has the place of its counterpart, 80h below it.
#[tactic(auto, unfolding(crate::specs::Lookup::place_of))]
pub fn place_of(index: u16) -> Option<Place>
    ensures { result ≡ place_of index }
{
    let which = block_number(index);
    let place = place_in(index - index::ABOVE * which as u16)?;
    Some(Place { which, place })
}

// What stands at a sub-index: the value so many rows after the object's first, or a byte that never changes.
#[derive(Clone, Copy)]
pub enum Entry {
    Value(u8),
    Fixed(u8),
}

// The unit of a time, and its prefix, -3 as a byte.
const SECONDS: u8 = 0x03;

const MILLI: u8 = 0xFD;

// A record has its number of entries at 0 and its value at 1; a time has its unit at 2 and its prefix at 3.
#[tactic(auto, unfolding(crate::specs::Lookup::record_entry))]
fn record_entry(entries: u8, sub: u8) -> Entry
    ensures { result ≡ record_entry entries sub }
{
    match sub {
        0 => Entry::Fixed(entries),
        1 => Entry::Value(0),
        2 => Entry::Fixed(SECONDS),
        _ => Entry::Fixed(MILLI),
    }
}

// A sub-index beyond the entries is missing. A variable's only one is its value, and each of a map's is one.
#[tactic(auto, unfolding(crate::specs::Lookup::entry_at))]
pub fn entry_at(entries: u8, sub: u8) -> Option<Entry>
    ensures { result ≡ entry_at entries sub }
{
    if entries < sub {
        return None;
    }
    match entries {
        VARIABLE | MAP => Some(Entry::Value(sub)),
        _ => Some(record_entry(entries, sub)),
    }
}
