// A record of an event file: which event, and what it is about.
pub const RECORD_LENGTH: usize = 16;

// A request or a PDO with the number's four bytes after the eight.
const WIDE_LENGTH: usize = 12;

// Which event.
#[derive(Clone, Copy)]
pub enum Kind {
    Fresh,
    Sdo,
    Control,
    Fault,
    Tick,
    Jump,
    Store,
    Load,
    Find,
    Query,
    Unsound,
    Ticks,
    Patch,
    Wide,
    Append,
    Broken,
    Receive,
    Send,
    Unknown(u8),
}

impl From<u8> for Kind {
    fn from(number: u8) -> Kind {
        match number {
            0 => Kind::Fresh,
            1 => Kind::Sdo,
            2 => Kind::Control,
            3 => Kind::Fault,
            4 => Kind::Tick,
            5 => Kind::Jump,
            6 => Kind::Store,
            7 => Kind::Load,
            8 => Kind::Find,
            9 => Kind::Query,
            10 => Kind::Unsound,
            11 => Kind::Ticks,
            12 => Kind::Patch,
            13 => Kind::Wide,
            14 => Kind::Append,
            15 => Kind::Broken,
            16 => Kind::Receive,
            17 => Kind::Send,
            _ => Kind::Unknown(number),
        }
    }
}

// What a record says.
#[derive(Clone, Copy)]
pub struct Event {
    pub kind: Kind,
    pub small: u8,
    pub word: u16,
    pub number: u32,
    pub bytes: [u8; 8],
}

impl From<[u8; RECORD_LENGTH]> for Event {
    fn from(record: [u8; RECORD_LENGTH]) -> Event {
        let [kind, small, w0, w1, n0, n1, n2, n3, ..] = record;
        let mut bytes = [0; 8];
        bytes.copy_from_slice(&record[8..]);
        Event {
            kind: Kind::from(kind),
            small,
            word: u16::from_le_bytes([w0, w1]),
            number: u32::from_le_bytes([n0, n1, n2, n3]),
            bytes,
        }
    }
}

impl Event {
    // The number's low byte.
    pub fn low(&self) -> u8 {
        let [low, ..] = self.number.to_le_bytes();
        low
    }

    // The eight bytes, and then the four of the number.
    pub fn wide(&self) -> [u8; WIDE_LENGTH] {
        let mut bytes = [0; WIDE_LENGTH];
        bytes[..8].copy_from_slice(&self.bytes);
        bytes[8..].copy_from_slice(&self.number.to_le_bytes());
        bytes
    }
}
