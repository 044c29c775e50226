#![tactic(auto)]
// Values as numbers of 1, 2 or 4 bytes, and numbers as bytes, low first; and back. Bytes into a room.
ghost use Rattle.std.specs.Prelude.{◌≡◌, length};
ghost use Rattle.std.proofs.Math.Seq.{paste};
ghost use Rattle.coding.specs.Coding.{in_span, value_of, number_of, Held};
ghost use Rattle.coding.specs.Coding as Codings;
ghost use Rattle.coding.specs.Bytes.{byte_at, four_bytes, two_of, four_of};
ghost use Rattle.coding.specs.Asked.{BelowSpan, Room};

// How many numbers so many bytes hold.
#[tactic(auto, unfolding(crate::specs::Coding::span))]
fn span(size: u8) -> u64
    ensures { result ≡ Codings.span size }
{
    match size {
        1 => 256,
        2 => 65536,
        _ => 4294967296,
    }
}

// The value for which a number below the span stands.
#[tactic(auto, unfolding(crate::specs::Coding::in_span))]
fn in_span(limit: u64, signed: bool, low: u64) -> i64
    requires { BelowSpan limit low }
    ensures { result ≡ in_span limit signed low }
{
    if signed && limit / 2 <= low {
        low as i64 - limit as i64
    } else {
        low as i64
    }
}

// The value for which so many low bytes of a number stand.
#[tactic(auto, unfolding(crate::specs::Coding::value_of))]
pub fn value_of(size: u8, signed: bool, number: u32) -> i64
    ensures { result ≡ value_of size signed number }
{
    let limit = span(size);
    in_span(limit, signed, number as u64 % limit)
}

// The number that stands for a value.
pub fn number_of(size: u8, value: i64) -> u32
    requires { Held size value }
    ensures { result ≡ number_of size value }
{
    if value < 0 {
        (span(size) as i64 + value) as u32
    } else {
        value as u32
    }
}

// A number's four bytes, low first.
#[tactic(auto, unfolding(crate::specs::Bytes::four_bytes))]
pub fn four_bytes(number: u32) -> [u8; 4]
    ensures { result ≡ four_bytes number }
{
    number.to_le_bytes()
}

// Two bytes as a number, low first.
pub fn two_of(a: u8, b: u8) -> u16
    ensures { result ≡ two_of a b }
{
    u16::from_le_bytes([a, b])
}

// Four bytes as a number, low first. Written out, since by `from_le_bytes` a load takes 35 instructions more.
pub fn four_of(a: u8, b: u8, c: u8, d: u8) -> u32
    ensures { result ≡ four_of a b c d }
{
    a as u32 + b as u32 * 256 + c as u32 * 65536 + d as u32 * 16777216
}

// The byte at a place of some bytes; past the end it is 0.
pub fn byte_at(bytes: &[u8], place: usize) -> u8
    ensures { result ≡ byte_at bytes.now place }
{
    bytes.get(place).copied().unwrap_or(0)
}

// The bytes go to the room from a place on; all others stay.
pub fn put(room: &mut [u8], from: usize, bytes: &[u8])
    requires { Room room.old from bytes.now }
    ensures { room.new ≡ paste room.old from bytes.now (length bytes.now) }
{
    room[from..from + bytes.len()].copy_from_slice(bytes);
}
