#![tactic(auto)]
// The ramp: one tick, a jump of n ticks, and the ticks to go.
ghost use Rattle.std.specs.Prelude.{◌≡◌};
ghost use Rattle.ramp.specs.Ramp.{
  may_halt,
  side_of,
  away_time,
  back_time,
  step_of,
  rounded_up,
  ticks_to_zero,
  tick_of,
  ticks_to_go,
  position_after,
  Inside,
  Timed,
};
ghost use Rattle.ramp.specs.Ramp as Ramps;
ghost use Rattle.ramp.specs.Asked.{BothInside, Movable, Steppable};

// The times of 6331h to 6333h, or of 6334h to 6336h.
#[derive(Clone, Copy)]
pub struct Times {
    pub one: i64,
    pub positive: i64,
    pub negative: i64,
}

impl Times {
    // The time of the side of zero on which z is.
    #[tactic(auto, unfolding(crate::specs::Ramp::side_of))]
    fn side_of(self, z: i64) -> i64
        ensures { result ≡ side_of self z }
    {
        if z < 0 { self.negative } else { self.positive }
    }
}

// The ramp type, 6330h, and its times.
#[derive(Clone, Copy)]
pub struct Ramp {
    pub kind: i64,
    pub acceleration: Times,
    pub deceleration: Times,
}

impl Ramp {
    // Type 0 has no ramp.
    fn ramped(self) -> bool
        ensures { result ≡ Ramps.ramped self }
    {
        self.kind != 0
    }

    // Types 2 and 3; type 1 has one rate and goes straight through zero.
    fn may_halt(self) -> bool
        ensures { result ≡ may_halt self }
    {
        1 < self.kind
    }

    // The time away from zero, on the side of z.
    #[tactic(auto, unfolding(crate::specs::Ramp::away_time))]
    fn away_time(self, z: i64) -> i64
        ensures { result ≡ away_time self z }
    {
        if self.kind == 3 {
            self.acceleration.side_of(z)
        } else {
            self.acceleration.one
        }
    }

    // The time toward zero, on the side of z.
    #[tactic(auto, unfolding(crate::specs::Ramp::back_time))]
    fn back_time(self, z: i64) -> i64
        ensures { result ≡ back_time self z }
    {
        if self.kind == 3 {
            self.deceleration.side_of(z)
        } else if self.kind == 2 {
            self.deceleration.one
        } else {
            self.acceleration.one
        }
    }
}

// The way of a position to its target: a ramp in its ranges, and target and position within full stroke.
#[derive(Clone, Copy)]
pub struct Way {
    pub ramp: Ramp,
    pub target: i64,
    pub position: i64,
    pub ghost sound: { Ramps.Way ramp target position },
}

impl Way {
    // Whether the way halts at zero before it goes on to the target.
    #[tactic(auto, unfolding(crate::specs::Ramp::halts))]
    fn halts(self) -> bool
        ensures { result ≡ Ramps.halts self.ramp self.target self.position }
    {
        opposite(self.target, self.position) && self.ramp.may_halt()
    }

    // Where the ticks stop first.
    #[tactic(auto, unfolding(crate::specs::Ramp::stop))]
    fn stop(self) -> i64
        ensures value { result ≡ Ramps.stop self.ramp self.target self.position }
        ensures inside { Inside result }
    {
        if self.halts() { 0 } else { self.target }
    }

    // The step of a tick at a position p on the way. The time is picked first, so that there is one division.
    #[tactic(auto, unfolding(crate::specs::Ramp::stride))]
    fn stride(self, p: i64) -> u64
        ensures { result ≡ Ramps.stride self.ramp self.target p }
    {
        if decelerates(self.target, p) {
            return step_of(self.ramp.back_time(p));
        }
        step_of(self.ramp.away_time(self.target))
    }

    #[tactic(auto, unfolding(crate::specs::Ramp::ticks_to_zero))]
    fn ticks_to_zero(self) -> u64
        ensures { result ≡ ticks_to_zero self.ramp self.target self.position }
    {
        rounded_up(distance(self.position, 0), self.stride(self.position))
    }

    // The ticks until the target is met.
    #[tactic(auto, unfolding(crate::specs::Ramp::ticks_to_go))]
    pub fn ticks_to_go(self) -> u32
        ensures { result ≡ ticks_to_go self.ramp self.target self.position }
    {
        if self.position == self.target {
            return 0;
        }
        if !self.ramp.ramped() {
            return 1;
        }
        if self.halts() {
            let k = self.ticks_to_zero();
            return (k + rounded_up(distance(0, self.target), self.stride(0))) as u32;
        }
        rounded_up(
            distance(self.position, self.target),
            self.stride(self.position),
        ) as u32
    }

    // One tick.
    #[tactic(auto, unfolding(crate::specs::Ramp::tick_of))]
    pub fn tick(self) -> i64
        ensures { result ≡ tick_of self.ramp self.target self.position }
    {
        if !self.ramp.ramped() {
            return self.target;
        }
        moved(self.stop(), self.stride(self.position), self.position)
    }

    // n ticks at once, by the closed formula.
    pub fn jump(self, n: u32) -> i64
        ensures { result ≡ position_after self.ramp self.target self.position n }
    {
        if n == 0 {
            return self.position;
        }
        if !self.ramp.ramped() {
            return self.target;
        }
        let n = u64::from(n);
        if !self.halts() {
            return moved(self.target, n * self.stride(self.position), self.position);
        }
        let k = self.ticks_to_zero();
        if n < k {
            return moved(0, n * self.stride(self.position), self.position);
        }
        moved(self.target, (n - k) * self.stride(0), 0)
    }
}

// Full stroke as a position, as steps and distances count.
const FULL_POSITION: u64 = objects::FULL_POSITION as u64;

// Full stroke over the time; time 0 has the step of time 1.
#[tactic(auto, unfolding(crate::specs::Ramp::step_of, objects::specs::Table::objects))]
fn step_of(time: i64) -> u64
    requires { Timed time }
    ensures { result ≡ step_of time }
{
    FULL_POSITION / time.unsigned_abs().max(1)
}

#[tactic(auto, unfolding(crate::specs::Ramp::opposite))]
fn opposite(t: i64, p: i64) -> bool
    ensures { result ≡ Ramps.opposite t p }
{
    t < 0 && 0 < p || p < 0 && 0 < t
}

#[tactic(auto, unfolding(crate::specs::Ramp::decelerates))]
fn decelerates(t: i64, p: i64) -> bool
    ensures { result ≡ Ramps.decelerates t p }
{
    opposite(t, p) || t.unsigned_abs() < p.unsigned_abs()
}

#[tactic(auto, unfolding(crate::specs::Ramp::distance))]
fn distance(p: i64, g: i64) -> u64
    ensures { result ≡ Ramps.distance p g }
{
    p.abs_diff(g)
}

#[tactic(auto, unfolding(crate::specs::Ramp::toward))]
fn toward(g: i64, m: u64, p: i64) -> i64
    requires { Movable m p }
    ensures { result ≡ Ramps.toward g m p }
{
    if p < g { p + m as i64 } else { p - m as i64 }
}

#[tactic(auto, unfolding(crate::specs::Ramp::moved))]
fn moved(g: i64, m: u64, p: i64) -> i64
    requires { BothInside p g }
    ensures { result ≡ Ramps.moved g m p }
{
    if m < distance(p, g) {
        toward(g, m, p)
    } else {
        g
    }
}

#[tactic(auto, unfolding(crate::specs::Ramp::rounded_up))]
fn rounded_up(d: u64, s: u64) -> u64
    requires { Steppable d s }
    ensures { result ≡ rounded_up d s }
{
    (d + (s - 1)) / s
}
