// Why a call is refused, and the number handed back for it. A call that is done hands back 0.
ghost use Rattle.std.specs.Prelude.{◌≡◌};
ghost use Rattle.device.specs.Numbers.{number_of_refusal};

pub const UNSOUND: u8 = 1;

pub const WRONG_LENGTH: u8 = 2;

pub const NO_ROOM: u8 = 3;

pub const NO_REPLY_DUE: u8 = 4;

pub const NO_FAULT: u8 = 5;

pub const NO_IMAGE_ROOM: u8 = 6;

pub const NOT_FULL: u8 = 7;

pub const BAD_VALUE: u8 = 8;

pub const NOT_DISABLED: u8 = 9;

pub const SHORT_PDO: u8 = 14;

#[derive(Clone, Copy, PartialEq, Eq)]
pub enum Refusal {
    // the device is not sound
    Unsound,
    // a request has not eight bytes
    WrongLength,
    // less room than a reply, or a PDO that is sent, takes
    NoRoom,
    // an abort by the client
    NoReplyDue,
    // a fault report with code 0
    NoFault,
    // less room than an image takes
    NoImageRoom,
    // no full image
    NotFull,
    // an image with a value out of its range, or with crossed limits
    BadValue,
    // a load outside DISABLED
    NotDisabled,
    // a received PDO shorter than its map
    ShortPdo,
    // a number of the caller's own, by which no call refuses
    Other(u8),
}

impl Refusal {
    // The number handed back.
    pub fn number(self) -> u8
        ensures { result ≡ number_of_refusal self }
    {
        match self {
            Refusal::Unsound => UNSOUND,
            Refusal::WrongLength => WRONG_LENGTH,
            Refusal::NoRoom => NO_ROOM,
            Refusal::NoReplyDue => NO_REPLY_DUE,
            Refusal::NoFault => NO_FAULT,
            Refusal::NoImageRoom => NO_IMAGE_ROOM,
            Refusal::NotFull => NOT_FULL,
            Refusal::BadValue => BAD_VALUE,
            Refusal::NotDisabled => NOT_DISABLED,
            Refusal::ShortPdo => SHORT_PDO,
            Refusal::Other(number) => number,
        }
    }
}
