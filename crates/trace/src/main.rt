#![tactic(auto)]
// Reads a file of event records from standard input, and writes a line for each event to standard output. A read that fails ends
// the run, and is told on standard error.
use std::io;
use tracing::Run;

// A block of 128 whole records; it is full until the input ends. Its text has 512 bytes for each, and no line has more than 340.
const BLOCK_LENGTH: usize = 2048;

const TEXT_LENGTH: usize = 65536;

// A proved loop has to end, and nothing says that the input does, so this one has a number of turns that no run uses up. Where a read
// fails, what was read of that block may end anywhere, and has no lines.
fn main(rt: HostRuntime) -> io::Result<()> {
    let mut input = rt.reader();
    let mut run = Run::new();
    let mut records = [0; BLOCK_LENGTH];
    let mut text = [0; TEXT_LENGTH];
    for _ in 0..u64::MAX {
        let Ok(n) = input::fill(&mut input, &mut records) else {
            return eprintln!(rt; "trace: reading failed");
        };
        let end = run.trace(&records[..n], &mut text);
        rt.write_all(&text[..end.min(TEXT_LENGTH)])?;
        if n < BLOCK_LENGTH {
            break;
        }
    }
    Ok(())
}
