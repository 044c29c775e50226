#![tactic(auto)]
// The dither, after wish 4 of document 02: its type, amplitude and frequency, its phase, and the two waves. It belongs to the command,
// and knows nothing of the block that drives the command.
ghost use Rattle.std.specs.Prelude.{◌≡◌};
ghost use Rattle.dither.specs.Dither.{stands_at, with_at, at_phase, fresh_dither};
ghost use Rattle.dither.specs.Phase.{tick_dither, jump_dither};
ghost use Rattle.dither.specs.Phase as Phase;
ghost use Rattle.dither.specs.Wave.{dither_of};
ghost use Rattle.dither.specs.Wave as Wave;
ghost use Rattle.dither.specs.Sound.{sound_dither, Sound};
ghost use Rattle.dither.specs.Asked.{Amplitude};

use objects::{DITHER_AMPLITUDE, DITHER_FREQUENCY, DITHER_TYPE};

#[derive(Clone, Copy, PartialEq, Eq)]
pub struct Dither {
    // 0 off, 1 square, 2 triangle
    pub kind: i64,
    // in ir
    pub amplitude: i64,
    // in Hz
    pub frequency: i64,
    // counts 2^32 to a period
    pub phase: u32,
}

// The types; the third is the triangle.
const OFF: i64 = 0;

const SQUARE: i64 = 1;

// The phases of a period, and half of them.
const PHASES: u64 = 4294967296;

const HALF_OF_PHASES: u32 = 2147483648;

// A tick is a millisecond, and a frequency counts periods in a second.
const TICKS_IN_A_SECOND: u64 = 1000;

// The triangle goes in steps of so many phases. The quarters of a period, and the whole, in steps.
const PHASES_OF_A_STEP: u32 = 65536;

const QUARTER: u32 = 16384;

const HALF: i64 = 32768;

const THREE_QUARTERS: u32 = 49152;

const PERIOD: i64 = 65536;

// The steps from zero to the crest.
const CREST: i64 = 16384;

// ---- the parts

#[tactic(auto, unfolding(crate::specs::Dither::fresh_dither))]
pub fn fresh() -> Dither
    ensures { result ≡ fresh_dither }
{
    Dither {
        kind: objects::row_at(DITHER_TYPE).fresh,
        amplitude: objects::row_at(DITHER_AMPLITUDE).fresh,
        frequency: objects::row_at(DITHER_FREQUENCY).fresh,
        phase: 0,
    }
}

// The value of the first, the second or the third object.
#[tactic(auto, unfolding(crate::specs::Dither::stands_at))]
pub fn stands_at(dither: Dither, k: usize) -> i64
    ensures { result ≡ stands_at dither k }
{
    match k {
        0 => dither.kind,
        1 => dither.amplitude,
        _ => dither.frequency,
    }
}

// The dither with another value there.
#[tactic(auto, unfolding(crate::specs::Dither::with_at))]
pub fn with_at(mut dither: Dither, k: usize, value: i64) -> Dither
    ensures { result ≡ with_at k value dither }
{
    match k {
        0 => dither.kind = value,
        1 => dither.amplitude = value,
        _ => dither.frequency = value,
    }
    dither
}

// The dither at another phase.
pub fn at_phase(dither: Dither, phase: u32) -> Dither
    ensures { result ≡ at_phase phase dither }
{
    Dither { phase, ..dither }
}

// Each value in its row's range. That the phase has 32 bits its type says.
#[tactic(auto, unfolding(crate::specs::Sound::sound_dither))]
pub fn is_sound(dither: Dither) -> bool
    ensures { result ≡ sound_dither dither }
{
    objects::in_range(DITHER_TYPE, dither.kind)
        && objects::in_range(DITHER_AMPLITUDE, dither.amplitude)
        && objects::in_range(DITHER_FREQUENCY, dither.frequency)
}

// ---- the phase

// What a tick adds to the phase: at most a quarter of a period.
#[tactic(auto, unfolding(objects::specs::Table::objects, crate::specs::Phase::increment))]
fn increment(dither: Dither) -> u32
    requires { Sound dither }
    ensures { result ≡ Phase.increment dither }
{
    (dither.frequency as u64 * PHASES / TICKS_IN_A_SECOND) as u32
}

// The phase so much further. It runs over its end on purpose.
#[tactic(auto, unfolding(crate::specs::Phase::advanced))]
fn advanced(phase: u32, by: u32) -> u32
    ensures { result ≡ Phase.advanced phase by }
{
    phase.wrapping_add(by)
}

// One tick.
#[tactic(auto, unfolding(crate::specs::Phase::tick_dither))]
pub fn tick(dither: Dither) -> Dither
    requires { Sound dither }
    ensures { result ≡ tick_dither dither }
{
    at_phase(dither, advanced(dither.phase, increment(dither)))
}

// n ticks at once: the product fits 64 bits, and is cut to 32 as the sum of each tick is.
#[tactic(auto, unfolding(crate::specs::Phase::jump_dither, crate::specs::Phase::advanced))]
pub fn jump(dither: Dither, n: u32) -> Dither
    requires { Sound dither }
    ensures { result ≡ jump_dither n dither }
{
    let product = u64::from(n) * u64::from(increment(dither));
    at_phase(dither, advanced(dither.phase, (product % PHASES) as u32))
}

// ---- the waves

#[tactic(auto, unfolding(objects::specs::Table::objects, crate::specs::Wave::square))]
fn square(amplitude: i64, phase: u32) -> i64
    requires { Amplitude amplitude }
    ensures { result ≡ Wave.square amplitude phase }
{
    if phase < HALF_OF_PHASES {
        amplitude
    } else {
        -amplitude
    }
}

// How high the triangle stands at a step: up to the first quarter, down to the third, and up again.
#[tactic(auto, unfolding(crate::specs::Wave::height))]
fn height(x: u32) -> i64
    ensures { result ≡ Wave.height x }
{
    if x < QUARTER {
        i64::from(x)
    } else if x < THREE_QUARTERS {
        HALF - i64::from(x)
    } else {
        i64::from(x) - PERIOD
    }
}

// Division drops the fraction on both signs.
#[tactic(auto, unfolding(objects::specs::Table::objects, crate::specs::Wave::triangle))]
fn triangle(amplitude: i64, phase: u32) -> i64
    requires { Amplitude amplitude }
    ensures { result ≡ Wave.triangle amplitude phase }
{
    amplitude * height(phase / PHASES_OF_A_STEP) / CREST
}

// The dither in ir, at the phase as it stands.
#[tactic(auto, unfolding(objects::specs::Table::objects, crate::specs::Wave::dither_of))]
pub fn value(dither: Dither) -> i64
    requires { Sound dither }
    ensures { result ≡ dither_of dither }
{
    if dither.kind == OFF {
        0
    } else if dither.kind == SQUARE {
        square(dither.amplitude, dither.phase)
    } else {
        triangle(dither.amplitude, dither.phase)
    }
}
