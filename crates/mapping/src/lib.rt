#![tactic(auto)]
// The maps of process data, after wish 2 of document 02: what may be mapped, what becomes of a write, what makes a map sound.
ghost use Rattle.std.specs.Prelude.{◌≡◌};
ghost use Rattle.integers.specs.Words.{◌among◌};
ghost use Rattle.mapping.specs.Maps.{bytes_of, stands_at, with_at, map_length, fresh_maps, with_receive, with_transmit};
ghost use Rattle.mapping.specs.Rules.{each_mapped, is_right, ruling_on};
ghost use Rattle.mapping.specs.Sound.{may_stand, sound_map, sound_maps};
ghost use Rattle.mapping.specs.Asked.{Few, Counting, Fitting};

// How many entries a map has.
pub const ENTRIES: usize = 4;

// How many of them are counted, and the entries.
#[derive(Clone, Copy, PartialEq, Eq)]
pub struct Map {
    pub count: u8,
    pub entries: [u32; ENTRIES],
}

// What is received, and what is sent.
#[derive(Clone, Copy, PartialEq, Eq)]
pub struct Maps {
    pub receive: Map,
    pub transmit: Map,
}

// Why a map does not take a write: an entry while sub 0 isn't 0, a sub 0 above 4, an object that may not be mapped.
#[derive(Clone, Copy)]
pub enum Misfit {
    WhileCounted,
    AboveFour,
    NotMappable,
}

// What may be received, and what may be sent: index, sub-index and length in bits.
pub const RECEIVABLE: [u32; 3] = [0x60400010, 0x63000110, 0x63140110];

pub const SENDABLE: [u32; 3] = [0x60410010, 0x604E0010, 0x63100110];

// ---- entries

// The length of an entry, which is in bits, in bytes.
pub fn bytes_of(entry: u32) -> u8
    ensures { result ≡ bytes_of entry }
{
    (entry % 256 / 8) as u8
}

// One of the three that may be mapped.
fn is_among(mappable: [u32; 3], entry: u32) -> bool
    ensures { result ≡ (entry among mappable) }
{
    entry == mappable[0] || entry == mappable[1] || entry == mappable[2]
}

// ---- a map's parts

#[tactic(auto, unfolding(crate::specs::Maps::fresh_map, crate::specs::Maps::fresh_maps))]
pub fn fresh() -> Maps
    ensures { result ≡ fresh_maps }
{
    let map = Map {
        count: 0,
        entries: [0; ENTRIES],
    };
    Maps {
        receive: map,
        transmit: map,
    }
}

// What stands at a sub-index: the number of entries at 0, and then the entries.
#[tactic(auto, unfolding(crate::specs::Maps::stands_at))]
pub fn stands_at(map: Map, sub: usize) -> u32
    requires { Few sub }
    ensures { result ≡ stands_at map sub }
{
    if sub == 0 {
        return map.count as u32;
    }
    map.entries[sub - 1]
}

// The map with another number there.
#[tactic(auto, unfolding(crate::specs::Maps::with_at))]
pub fn with_at(map: Map, sub: usize, number: u32) -> Map
    requires { Fitting sub number }
    ensures { result ≡ with_at sub number map }
{
    if sub == 0 {
        return Map {
            count: number as u8,
            ..map
        };
    }
    let mut entries = map.entries;
    entries[sub - 1] = number;
    Map { entries, ..map }
}

// The maps with another receive map.
pub fn with_receive(maps: Maps, map: Map) -> Maps
    ensures { result ≡ with_receive map maps }
{
    Maps {
        receive: map,
        ..maps
    }
}

// The maps with another transmit map.
pub fn with_transmit(maps: Maps, map: Map) -> Maps
    ensures { result ≡ with_transmit map maps }
{
    Maps {
        transmit: map,
        ..maps
    }
}

// How many bytes the PDO of a map has.
#[tactic(auto, unfolding(crate::specs::Maps::map_length))]
pub fn length(map: Map) -> usize
    requires { Few map.count }
    ensures { result ≡ map_length map }
{
    let mut length = 0;
    for entry in &map.entries[..map.count as usize] {
        length += bytes_of(*entry) as usize;
    }
    length
}

// ---- a write

// Each of the first n entries may be mapped.
fn each_mapped(mappable: [u32; 3], map: Map, n: usize) -> bool
    requires { Few n }
    ensures { result ≡ each_mapped mappable map n }
{
    map.entries[..n]
        .iter()
        .all(|entry| is_among(mappable, *entry))
}

// What the write would leave is right: every entry that sub 0 would count may be mapped; an entry is zero or may be mapped.
#[tactic(auto, unfolding(crate::specs::Rules::is_right))]
fn is_right(mappable: [u32; 3], map: Map, sub: usize, number: u32) -> bool
    requires { Counting sub number }
    ensures { result ≡ is_right mappable map sub number }
{
    if sub == 0 {
        each_mapped(mappable, map, number as usize)
    } else {
        number == 0 || is_among(mappable, number)
    }
}

// Whether a map takes a write of a number to a sub-index, in the order of the aborts.
#[tactic(auto, unfolding(crate::specs::Rules::ruling_on))]
pub fn ruling_on(mappable: [u32; 3], map: Map, sub: usize, number: u32) -> Result<(), Misfit>
    ensures { result ≡ ruling_on mappable map sub number }
{
    if sub != 0 && map.count != 0 {
        return Err(Misfit::WhileCounted);
    }
    if sub == 0 && ENTRIES < number as usize {
        return Err(Misfit::AboveFour);
    }
    if !is_right(mappable, map, sub, number) {
        return Err(Misfit::NotMappable);
    }
    Ok(())
}

// ---- soundness

// The entry at a place, of so many that are counted, is zero and not counted, or may be mapped.
#[tactic(auto, unfolding(crate::specs::Sound::may_stand))]
fn may_stand(mappable: [u32; 3], count: usize, k: usize, entry: u32) -> bool
    ensures { result ≡ may_stand mappable count k entry }
{
    if entry == 0 {
        count <= k
    } else {
        is_among(mappable, entry)
    }
}

#[tactic(auto, unfolding(crate::specs::Sound::sound_map))]
fn is_sound_map(mappable: [u32; 3], map: Map) -> bool
    ensures { result ≡ sound_map mappable map }
{
    let count = map.count as usize;
    if ENTRIES < count {
        return false;
    }
    map.entries
        .iter()
        .enumerate()
        .all(|(k, entry)| may_stand(mappable, count, k, *entry))
}

// Both maps, each with what may be mapped in its direction.
#[tactic(auto, unfolding(crate::specs::Sound::sound_maps))]
pub fn is_sound(maps: Maps) -> bool
    ensures { result ≡ sound_maps maps }
{
    is_sound_map(RECEIVABLE, maps.receive) && is_sound_map(SENDABLE, maps.transmit)
}
