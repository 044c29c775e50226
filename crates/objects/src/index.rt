// The index of each object, for users of the library and for the table.
pub const RECEIVE_MAP: u16 = 0x1600;

pub const TRANSMIT_MAP: u16 = 0x1A00;

pub const SELECTION: u16 = 0x2000;

pub const CONTROL_WORD: u16 = 0x6040;

pub const STATUS_WORD: u16 = 0x6041;

pub const ERROR_CODE: u16 = 0x604E;

pub const SET_POINT: u16 = 0x6300;

pub const COMMAND: u16 = 0x6310;

pub const HOLD_SET_POINT: u16 = 0x6314;

pub const UPPER_LIMIT: u16 = 0x6320;

pub const LOWER_LIMIT: u16 = 0x6321;

pub const SCALING_FACTOR: u16 = 0x6322;

pub const SCALING_OFFSET: u16 = 0x6323;

pub const ZERO_CORRECTION: u16 = 0x6324;

pub const RAMP_TYPE: u16 = 0x6330;

pub const ACCELERATION: u16 = 0x6331;

pub const ACCELERATION_POSITIVE: u16 = 0x6332;

pub const ACCELERATION_NEGATIVE: u16 = 0x6333;

pub const DECELERATION: u16 = 0x6334;

pub const DECELERATION_POSITIVE: u16 = 0x6335;

pub const DECELERATION_NEGATIVE: u16 = 0x6336;

pub const DEAD_BAND_TYPE: u16 = 0x6342;

pub const A_SIDE: u16 = 0x6343;

pub const B_SIDE: u16 = 0x6344;

pub const THRESHOLD: u16 = 0x6345;

pub const DITHER_TYPE: u16 = 0x6360;

pub const DITHER_AMPLITUDE: u16 = 0x6361;

pub const DITHER_FREQUENCY: u16 = 0x6362;

// How far the index of a pressure object stands above its counterpart's: `UPPER_LIMIT + ABOVE` is the pressure block's upper limit.
pub const ABOVE: u16 = 0x80;
