#![tactic(auto)]
// The judging of cases, each a record of 16 bytes: a request and its expected reply. No input is refused.
ghost use Rattle.std.specs.Prelude.{◌≡◌};
ghost use Rattle.sdo.specs.Asked.{EightBytes};
ghost use Rattle.judging.specs.Judging.{one_more, failed_after, fresh_tally, judged_case, judged_all};
ghost use Rattle.judging.specs.Judging as Judging;

use device::Device;
use sdo::Outcome;

const CASE: usize = 16;

// The device after the cases so far, how many they were, and how many of them failed.
#[derive(Clone, Copy)]
pub struct Tally {
    pub device: Device,
    pub cases: u64,
    pub failed: u64,
}

// Before the first case.
pub fn fresh() -> Tally
    ensures { result ≡ fresh_tally }
{
    let device = rainsheave::fresh();
    Tally {
        device,
        cases: 0,
        failed: 0,
    }
}

// One more; a count ends at the largest number that it can hold.
#[tactic(auto, unfolding(crate::specs::Judging::one_more))]
fn one_more(count: u64) -> u64
    ensures { result ≡ one_more count }
{
    count.saturating_add(1)
}

// A case passes where a reply is due and is the expected one.
#[tactic(auto, unfolding(crate::specs::Judging::passes), using(crate::proofs::Same::eq_same))]
fn passes(outcome: Outcome, reply: [u8; 8], expected: &[u8]) -> bool
    requires { EightBytes expected.now }
    ensures { result ≡ Judging.passes outcome reply expected.now }
{
    sdo::is_due(outcome) && reply[..] == expected[..]
}

// How many failed, by whether one case more passes.
#[tactic(auto, unfolding(crate::specs::Judging::failed_after))]
fn failed_after(failed: u64, passes: bool) -> u64
    ensures { result ≡ failed_after failed passes }
{
    if passes { failed } else { one_more(failed) }
}

// One case more.
#[tactic(auto, unfolding(crate::specs::Judging::judged_case))]
fn judge(tally: Tally, case: &[u8; CASE]) -> Tally
    ensures { result ≡ judged_case case.now tally }
{
    let (request, expected) = case.split_at(8);
    let mut reply = [0; 8];
    let answer = rainsheave::sdo(tally.device, request, &mut reply);
    Tally {
        device: answer.device,
        cases: one_more(tally.cases),
        failed: failed_after(tally.failed, passes(answer.outcome, reply, expected)),
    }
}

// All whole records of a chunk; a trailing part record is ignored.
#[tactic(auto, unfolding(crate::specs::Judging::judged))]
pub fn run(tally: Tally, bytes: &[u8]) -> Tally
    ensures { result ≡ judged_all bytes.now tally }
{
    let (cases, _) = bytes.as_chunks::<CASE>();
    let mut after = tally;
    for case in cases {
        after = judge(after, case);
    }
    after
}
