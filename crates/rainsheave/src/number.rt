// The numbers handed back: 0 is done, an abort reply included.
pub use device::refusal::{
    BAD_VALUE, NO_FAULT, NO_IMAGE_ROOM, NO_REPLY_DUE, NO_ROOM, NOT_DISABLED, NOT_FULL, SHORT_PDO,
    UNSOUND, WRONG_LENGTH,
};
pub use image::{FIELD_CUT, NOT_FOUND};

pub const DONE: u8 = 0;
