#![tactic(auto)]
// The stored parameter image: a store, a load, and the search for a tag in any slice.
ghost use Rattle.std.specs.Prelude.{◌≡◌, ◌+◌};
ghost use Rattle.std.proofs.Math.Seq.{paste};
ghost use Rattle.block.specs.Asked.{ASetting};
ghost use Rattle.image.specs.Fields.{field_length, long_field, field_of, stored_in};
ghost use Rattle.image.specs.Load.{head_at, is_full, four_at, value_in_image, settings_in};
ghost use Rattle.image.specs.Walk.{walk, part_of, begin_of, number_of_miss, code_of};
ghost use Rattle.image.specs.Asked.{Storing, Near, Putting, Starts, Walked};

use objects::SETTINGS;

pub const IMAGE_LENGTH: usize = 97;

// Where the value of a field lies in an image: from its start on, up to its end.
#[derive(Clone, Copy)]
pub struct Part {
    pub start: usize,
    pub end: usize,
}

// Why a walk over the fields meets none so tagged: one before it is cut short, or they have ended.
#[derive(Clone, Copy)]
pub enum Miss {
    Cut,
    Ended,
}

// The numbers of a refused search.
pub const FIELD_CUT: u8 = 7;

pub const NOT_FOUND: u8 = 10;

impl Miss {
    pub fn number(self) -> u8
        ensures { result ≡ number_of_miss self }
    {
        match self {
            Miss::Cut => FIELD_CUT,
            Miss::Ended => NOT_FOUND,
        }
    }
}

// ---- storing

// A field's tag and length.
const HEADER: usize = 3;

// A field with room for the longest value: the tag, the length of the value, and four bytes of its number.
#[tactic(auto, unfolding(coding::specs::Bytes::two_bytes, coding::specs::Bytes::four_bytes))]
fn field(place: usize, size: u8, number: u32) -> [u8; 7]
    requires { ASetting place }
    ensures { result ≡ long_field place size number }
{
    let tag = (place + 1) as u8;
    let [a, b, c, d] = coding::four_bytes(number);
    [tag, size, 0, a, b, c, d]
}

// The field of a setting goes to the room from where it starts.
fn put_field(room: &mut [u8], from: usize, place: usize, value: i64)
    requires { Putting room.old from place value }
    ensures { room.new ≡ paste room.old from (field_of place value) (field_length place) }
{
    let row = objects::row_at(place);
    let size = row.size;
    let number = coding::number_of(size, value);
    let bytes = field(place, size, number);
    let n = HEADER + size as usize;
    coding::put(room, from, &bytes[..n]);
}

// The length of the field of a setting.
fn field_length(place: usize) -> usize
    requires { ASetting place }
    ensures { result ≡ field_length place }
{
    let row = objects::row_at(place);
    HEADER + row.size as usize
}

// The image of sound settings goes to the first bytes of the room; later bytes stay.
#[tactic(auto, using(crate::proofs::Lengths::next_starts), unfolding(crate::specs::Fields::start, crate::specs::Fields::fields))]
pub fn store(settings: [i64; SETTINGS], room: &mut [u8])
    requires { Storing settings room.old }
    ensures { room.new ≡ stored_in settings room.old }
{
    let mut from = 0;
    for (place, value) in settings.iter().enumerate() {
        put_field(room, from, place, *value);
        from += field_length(place);
    }
}

// ---- loading

// The header of the field of a place, which starts there: its tag, and the length of its type.
#[tactic(auto, using(crate::proofs::Lengths::next_starts), unfolding(crate::specs::Load::head_at))]
fn head_at(image: &[u8], from: usize, place: usize) -> bool
    requires { Starts from place }
    ensures { result ≡ head_at image.now place }
{
    let row = objects::row_at(place);
    let length = coding::two_of(
        coding::byte_at(image, from + 1),
        coding::byte_at(image, from + 2),
    );
    coding::byte_at(image, from) as usize == place + 1 && length == row.size as u16
}

// Each tag once, ascending, with the length of its type, and no more.
#[tactic(auto, using(crate::proofs::Lengths::next_starts))]
pub fn is_full(image: &[u8]) -> bool
    ensures { result ≡ is_full image.now }
{
    if image.len() != IMAGE_LENGTH {
        return false;
    }
    let mut from = 0;
    for place in 0..SETTINGS {
        if !head_at(image, from, place) {
            return false;
        }
        from += field_length(place);
    }
    true
}

// Four bytes from a place on, as a number low first.
fn four_at(image: &[u8], k: usize) -> u32
    requires { Near k }
    ensures { result ≡ four_at image.now k }
{
    coding::four_of(
        coding::byte_at(image, k),
        coding::byte_at(image, k + 1),
        coding::byte_at(image, k + 2),
        coding::byte_at(image, k + 3),
    )
}

// The value in the field of a place, which starts there.
#[tactic(auto, using(crate::proofs::Lengths::next_starts), unfolding(crate::specs::Load::value_in_image))]
fn value_in(image: &[u8], from: usize, place: usize) -> i64
    requires { Starts from place }
    ensures { result ≡ value_in_image image.now place }
{
    let row = objects::row_at(place);
    coding::value_of(row.size, row.signed, four_at(image, from + HEADER))
}

// The settings in an image, sound or not.
#[tactic(auto, using(crate::proofs::Lengths::next_starts), unfolding(crate::specs::Fields::start, crate::specs::Load::values_in))]
pub fn settings_in(image: &[u8]) -> [i64; SETTINGS]
    ensures { result ≡ settings_in image.now }
{
    let mut settings = [0i64; SETTINGS];
    let mut from = 0;
    for (place, setting) in settings.iter_mut().enumerate() {
        *setting = value_in(image, from, place);
        from += field_length(place);
    }
    settings
}

// ---- searching

// The walk over the fields of any slice: where the value of the first one so tagged lies.
pub fn locate(image: &[u8], tag: u8) -> Result<Part, Miss>
    ensures { Walked image.now tag result }
{
    let mut k = 0;
    while k < image.len() {
        if image.len() - k < HEADER {
            return Err(Miss::Cut);
        }
        let from = k + HEADER;
        let length = coding::two_of(image[k + 1], image[k + 2]) as usize;
        if image.len() - from < length {
            return Err(Miss::Cut);
        }
        let end = from + length;
        if image[k] == tag {
            return Ok(Part { start: from, end });
        }
        k = end;
    }
    Err(Miss::Ended)
}

// The value bytes of the first field so tagged, as a part of the caller's own slice; empty where there is none.
pub fn find(image: &[u8], tag: u8) -> &[u8]
    ensures part { result.now ≡ part_of image.now (walk image.now tag) }
    ensures begins { (result.ref_ptr.0 ≡ image.entry.ref_ptr.0) × (result.ref_ptr.1 ≡ image.entry.ref_ptr.1 + begin_of (walk image.now tag)) }
{
    match locate(image, tag) {
        Ok(part) => &image[part.start..part.end],
        Err(_) => &image[..0],
    }
}

// The number of a search: 0 where the tag is found.
pub fn find_code(image: &[u8], tag: u8) -> u8
    ensures { result ≡ code_of (walk image.now tag) }
{
    match locate(image, tag) {
        Ok(_) => 0,
        Err(miss) => miss.number(),
    }
}
