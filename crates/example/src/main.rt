#![tactic(auto)]
// A valve from switching on to the reset of its faults: set up by SDO, made ACTIVE and ticked along a ramp of type 2. Each line tells what
// was done, and what became of it. examples/valve.c is the same program in C.
use device::Device;
use rainsheave::{Change, Refusal, index, word};
use sdo::Outcome;
use std::fmt::{Display, Formatter, Write};
use std::{fmt, io};

// ---- what this program names of the device

// Where a value stands (at sub-index 0 of a variable, at 1 of a record), and how many bytes it has.
#[derive(Clone, Copy)]
struct Entry(u16, u8, u8);

const STATUS_WORD: Entry = Entry(index::STATUS_WORD, 0, 2);

const SET_POINT: Entry = Entry(index::SET_POINT, 1, 2);

const UPPER_LIMIT: Entry = Entry(index::UPPER_LIMIT, 1, 2);

const LOWER_LIMIT: Entry = Entry(index::LOWER_LIMIT, 1, 2);

const RAMP_TYPE: Entry = Entry(index::RAMP_TYPE, 0, 1);

const ACCELERATION: Entry = Entry(index::ACCELERATION, 1, 4);

const DECELERATION: Entry = Entry(index::DECELERATION, 1, 4);

const GO_ACTIVE: u16 = word::LEAVE_DISABLED + word::LEAVE_HOLD + word::MODE_ACTIVE;

const HARDWARE_FAULT: u16 = 0x5000;

// The states, as the query answers them.
const DISABLED: i64 = device::DISABLED as i64;

const HOLD: i64 = device::HOLD as i64;

const ACTIVE: i64 = device::ACTIVE as i64;

// ---- showing what became of a call

fn name_of(state: i64) -> &'static str {
    match state {
        DISABLED => "DISABLED",
        HOLD => "HOLD",
        ACTIVE => "ACTIVE",
        _ => "FAULT",
    }
}

// A valve as it is shown.
#[derive(Clone, Copy)]
struct Shown {
    state: i64,
    status: i64,
    command: i64,
    ticks_to_go: i64,
}

impl Shown {
    // No query refuses here: a device that the library has handed out is sound.
    fn of(valve: Device) -> Result<Shown, Refusal> {
        Ok(Shown {
            state: rainsheave::state(valve)?,
            status: rainsheave::status(valve)?,
            command: rainsheave::command(valve)?,
            ticks_to_go: rainsheave::ticks_to_go(valve)?,
        })
    }
}

impl Display for Shown {
    fn fmt<W: Write>(&self, f: &mut Formatter<W>) -> fmt::Result {
        let state = name_of(self.state);
        write!(
            f,
            "{state}, status {}, command {}, ticks to go {}",
            self.status, self.command, self.ticks_to_go
        )
    }
}

fn show(rt: &impl Print, shown: Result<Shown, Refusal>) -> io::Result<()> {
    match shown {
        Ok(shown) => println!(rt; ": {shown}"),
        Err(refusal) => println!(rt; ": refused by {}", refusal.number()),
    }
}

// A call that is refused hands the device back as it was.
fn show_change(rt: &impl Print, change: Change) -> io::Result<Device> {
    let shown = change.report.and_then(|()| Shown::of(change.device));
    show(rt, shown)?;
    Ok(change.device)
}

fn show_outcome(rt: &impl Print, outcome: Outcome) -> io::Result<()> {
    match outcome {
        Outcome::Read { size: _, number } => println!(rt; ": value {number}"),
        Outcome::Written => println!(rt; ": done"),
        Outcome::Abort(abort) => println!(rt; ": abort {:08x}h", abort.code()),
        Outcome::Refused(refusal) => println!(rt; ": refused by {}", refusal.number()),
    }
}

// ---- the calls

// A request comes from the bus, and the reply goes back to it. The outcome says the same without the bytes.
fn ask(rt: &impl Print, valve: Device, request: [u8; 8]) -> io::Result<Device> {
    let mut reply = [0; 8];
    let answer = rainsheave::sdo(valve, &request, &mut reply);
    show_outcome(rt, answer.outcome)?;
    Ok(answer.device)
}

// A negative value goes into a request as its two's complement.
fn set(rt: &impl Print, valve: Device, entry: Entry, value: i32) -> io::Result<Device> {
    let Entry(index, sub_index, size) = entry;
    print!(rt; "set {index:04x}h to {value}")?;
    let request = rainsheave::write_request(index, sub_index, size, value.cast_unsigned());
    ask(rt, valve, request)
}

fn get(rt: &impl Print, valve: Device, entry: Entry) -> io::Result<Device> {
    let Entry(index, sub_index, _) = entry;
    print!(rt; "get {index:04x}h")?;
    let request = rainsheave::read_request(index, sub_index);
    ask(rt, valve, request)
}

fn control(rt: &impl Print, valve: Device, word: u16) -> io::Result<Device> {
    print!(rt; "control {word:04x}h")?;
    show_change(rt, rainsheave::control(valve, word))
}

fn fault(rt: &impl Print, valve: Device, code: u16) -> io::Result<Device> {
    print!(rt; "fault {code:04x}h")?;
    show_change(rt, rainsheave::fault(valve, code))
}

// Writes the set point and ticks as often as the device says. Firmware ticks from a timer, once a millisecond, and puts the command out.
fn go_to(rt: &impl Print, valve: Device, set_point: i32) -> io::Result<Device> {
    let mut valve = set(rt, valve, SET_POINT, set_point)?;
    for tick in 1..=rainsheave::value_told(rainsheave::ticks_to_go(valve)) {
        print!(rt; "tick {tick}")?;
        valve = show_change(rt, rainsheave::tick(valve))?;
    }
    Ok(valve)
}

// ---- the program

fn set_up(rt: &impl Print, valve: Device) -> io::Result<Device> {
    let valve = set(rt, valve, UPPER_LIMIT, 5000)?;
    let valve = set(rt, valve, LOWER_LIMIT, -2000)?;
    let valve = set(rt, valve, UPPER_LIMIT, -3000)?; // aborted: it would stand below the lower one
    let valve = set(rt, valve, RAMP_TYPE, 2)?;
    let valve = set(rt, valve, ACCELERATION, 32)?; // so many ms for the full stroke of 16384 ir: 512 ir a tick
    set(rt, valve, DECELERATION, 16) // 1024 ir a tick
}

fn fail_and_reset(rt: &impl Print, valve: Device) -> io::Result<Device> {
    let valve = fault(rt, valve, 0)?; // refused: this is the code of no fault
    let valve = fault(rt, valve, HARDWARE_FAULT)?;
    let valve = control(rt, valve, word::RESET_FAULT)?;
    let valve = fault(rt, valve, HARDWARE_FAULT)?;
    let valve = control(rt, valve, word::RESET_FAULT)?; // no reset: the bit has to rise, and was set already
    let valve = control(rt, valve, 0)?;
    control(rt, valve, word::RESET_FAULT)
}

fn main(rt: HostRuntime) -> io::Result<()> {
    let valve = rainsheave::fresh();
    print!(rt; "fresh")?;
    show(&rt, Shown::of(valve))?;
    let valve = set_up(&rt, valve)?;
    let valve = control(&rt, valve, GO_ACTIVE)?; // a word makes one move at most: this one to HOLD
    let valve = control(&rt, valve, GO_ACTIVE)?;
    let valve = go_to(&rt, valve, 8000)?; // the upper limit makes 5000 of it
    let valve = get(&rt, valve, STATUS_WORD)?;
    let valve = go_to(&rt, valve, -1000)?; // toward zero by the deceleration, a halt there, away by the acceleration
    fail_and_reset(&rt, valve)?;
    Ok(())
}
