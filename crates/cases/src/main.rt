#![tactic(auto)]
// Reads cases from standard input, and prints how many there were and how many of them failed. The work is `judging::run`. A read
// that fails is told on standard error, and no count is printed then: it would be taken for that of the whole input.
use judging::Tally;
use std::io;
use std::io::Read;

// Whole records, so that only the end of the input can cut one short.
const CHUNK_LENGTH: usize = 65536;

// A proved loop has to end, so this one has a number of turns that no run uses up.
fn judge_all<R: Read>(input: &mut R) -> io::Result<Tally> {
    let mut tally = judging::fresh();
    let mut bytes = [0; CHUNK_LENGTH];
    for _ in 0..u64::MAX {
        let n = input::fill(input, &mut bytes)?;
        tally = judging::run(tally, &bytes[..n]);
        if n < CHUNK_LENGTH {
            break;
        }
    }
    Ok(tally)
}

fn main(rt: HostRuntime) -> io::Result<()> {
    match judge_all(&mut rt.reader()) {
        Ok(tally) => println!(rt; "cases {} failed {}", tally.cases, tally.failed),
        Err(_) => eprintln!(rt; "cases: reading failed"),
    }
}
