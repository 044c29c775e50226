// Where each part of a device begins among its words, as in the struct of include/rainsheave.h. A block has its set point, its position
// and then its settings in tag order; a map its count and then its entries; the dither its type, amplitude and frequency.
pub const SELECTED_BLOCK: usize = 0;

pub const OTHER_BLOCK: usize = 19;

pub const SELECTED: usize = 38;

pub const STATE: usize = 39;

pub const CONTROL_WORD: usize = 40;

pub const ERROR_CODE: usize = 41;

pub const PHASE: usize = 42;

pub const DITHER: usize = 43;

pub const RECEIVE: usize = 46;

pub const TRANSMIT: usize = 51;

// How many words there are.
pub const WORDS: usize = 56;
