#![tactic(auto)]
// A run of events over a device, with a line of text for each event.
mod calls;
mod event;
mod room;
mod unsound;

use crate::event::{Event, Kind, RECORD_LENGTH};
use crate::room::Room;
use device::Device;
use image::IMAGE_LENGTH;
use rainsheave::{Change, Refusal};
use std::fmt;
use std::fmt::{Display, Formatter, Write};

// A run: its device, and the image that was stored last.
#[derive(Clone, Copy)]
pub struct Run {
    pub device: Device,
    pub image: [u8; IMAGE_LENGTH],
}

// The most room that a call is lent, and every byte of it before the call.
const REPLY_ROOM: usize = 12;

const PDO_ROOM: usize = 12;

const IMAGE_ROOM: usize = 100;

const UNTOUCHED: u8 = 0xAA;

// The image with as many bytes more as a record can ask for.
const LONGEST_LENGTH: usize = IMAGE_LENGTH + 255;

// How a load alters the image.
const CUT: u8 = 1;

const REPLACED: u8 = 2;

const LONGER: u8 = 3;

// The first n bytes, or all where there are no more.
fn first(bytes: &[u8], n: usize) -> &[u8] {
    bytes.get(..n).unwrap_or(bytes)
}

fn first_mut(bytes: &mut [u8], n: usize) -> &mut [u8] {
    if n < bytes.len() {
        &mut bytes[..n]
    } else {
        bytes
    }
}

// ---- the parts of a line

// Every byte in two hexadecimal digits, each with a space before it.
#[derive(Clone, Copy)]
struct Bytes<'a>(&'a [u8]);

impl Display for Bytes<'_> {
    fn fmt<W: Write>(&self, f: &mut Formatter<W>) -> fmt::Result {
        for byte in self.0 {
            write!(f, " {byte:02x}")?;
        }
        Ok(())
    }
}

// A query's number and its value, which is 0 beside a refusal.
#[derive(Clone, Copy)]
struct Answer(Result<i64, Refusal>);

impl Display for Answer {
    fn fmt<W: Write>(&self, f: &mut Formatter<W>) -> fmt::Result {
        let number = rainsheave::number_of_report(self.0);
        let value = rainsheave::value_told(self.0);
        write!(f, "{number}/{value}")
    }
}

// ---- where a part lies

// Where the first field with a tag ends: the fewest bytes of the image in which it is found.
fn field_end(image: &[u8], tag: u8) -> usize {
    (0..image.len())
        .find(|end| rainsheave::find_code(first(image, *end), tag) == 0)
        .unwrap_or(image.len())
}

// Where a part begins in the image. The program cannot ask where a slice lies, but the part ends where its field ends.
fn part_begin(image: &[u8], tag: u8, part: &[u8]) -> usize {
    if part.is_empty() {
        0
    } else {
        field_end(image, tag).saturating_sub(part.len())
    }
}

// ---- the events

impl Run {
    // A run at its start.
    pub fn new() -> Run {
        Run {
            device: rainsheave::fresh(),
            image: [0; IMAGE_LENGTH],
        }
    }

    fn trace_fresh(&mut self, line: &mut impl Write) -> fmt::Result {
        self.device = rainsheave::fresh();
        write!(line, "fresh")
    }

    // A call that hands back a number and a device, and nothing more.
    fn trace_change(&mut self, name: &str, change: Change, line: &mut impl Write) -> fmt::Result {
        self.device = change.device;
        let number = rainsheave::number_of_report(change.report);
        write!(line, "{name} {number}")
    }

    // A request, with so many bytes of room.
    fn trace_request(
        &mut self,
        name: &str,
        request: &[u8],
        length: u16,
        line: &mut impl Write,
    ) -> fmt::Result {
        let mut room = [UNTOUCHED; REPLY_ROOM];
        let room = first_mut(&mut room, usize::from(length));
        let answer = rainsheave::sdo(self.device, request, room);
        self.device = answer.device;
        let number = rainsheave::number_of_outcome(answer.outcome);
        write!(line, "{name} {number}{}", Bytes(room))
    }

    fn trace_sdo(&mut self, event: &Event, line: &mut impl Write) -> fmt::Result {
        let request = first(&event.bytes, usize::from(event.small));
        self.trace_request("sdo", request, event.word, line)
    }

    // A request that can be longer than the eight bytes that it should have.
    fn trace_wide(&mut self, event: &Event, line: &mut impl Write) -> fmt::Result {
        let bytes = event.wide();
        let request = first(&bytes, usize::from(event.small));
        self.trace_request("wide", request, event.word, line)
    }

    // A PDO that can be shorter or longer than what its map asks for.
    fn receive(&self, event: &Event) -> Change {
        let bytes = event.wide();
        rainsheave::receive(self.device, first(&bytes, usize::from(event.small)))
    }

    // A PDO is sent, with so many bytes of room.
    fn trace_send(&self, length: u16, line: &mut impl Write) -> fmt::Result {
        let mut room = [UNTOUCHED; PDO_ROOM];
        let room = first_mut(&mut room, usize::from(length));
        let sent = rainsheave::send(self.device, room);
        let number = rainsheave::number_of_report(sent);
        let length = rainsheave::bytes_sent(sent);
        write!(line, "send {number} {length}{}", Bytes(room))
    }

    // So many single ticks. The report is that of the last; where there is none, nothing is refused.
    fn ticks(&self, n: u16) -> Change {
        let mut change = Change {
            device: self.device,
            report: Ok(()),
        };
        for _ in 0..n {
            change = rainsheave::tick(change.device);
        }
        change
    }

    // A store, with so many bytes of room. One that is done replaces the run's image.
    fn trace_store(&mut self, length: u16, line: &mut impl Write) -> fmt::Result {
        let mut room = [UNTOUCHED; IMAGE_ROOM];
        let room = first_mut(&mut room, usize::from(length));
        let report = rainsheave::store(self.device, room);
        let number = rainsheave::number_of_report(report);
        if report.is_ok()
            && let Some(image) = room.get(..IMAGE_LENGTH)
        {
            self.image.copy_from_slice(image);
        }
        write!(line, "store {number}{}", Bytes(room))
    }

    // A load of the image with so many bytes more at its end.
    fn load_longer(&self, more: u8, last: u8) -> Change {
        let mut bytes = [last; LONGEST_LENGTH];
        bytes[..IMAGE_LENGTH].copy_from_slice(&self.image);
        rainsheave::load(self.device, first(&bytes, IMAGE_LENGTH + usize::from(more)))
    }

    fn append(&self, event: &Event) -> Change {
        self.load_longer(event.small, event.low())
    }

    fn load_replaced(&self, place: usize, byte: u8) -> Change {
        let mut image = self.image;
        image[place % IMAGE_LENGTH] = byte;
        rainsheave::load(self.device, &image)
    }

    // A load of the image, altered for this call alone.
    fn load(&self, event: &Event) -> Change {
        let word = usize::from(event.word);
        match event.small {
            CUT => rainsheave::load(self.device, first(&self.image, word)),
            REPLACED => self.load_replaced(word, event.low()),
            LONGER => self.load_longer(1, event.low()),
            _ => rainsheave::load(self.device, &self.image),
        }
    }

    // The bytes replace the image's from a place on. Those that would come after its end are left out.
    fn trace_patch(&mut self, event: &Event, line: &mut impl Write) -> fmt::Result {
        let place = usize::from(event.word) % IMAGE_LENGTH;
        for (byte, new) in self.image[place..].iter_mut().zip(event.bytes) {
            *byte = new;
        }
        write!(line, "patch {place}")
    }

    fn trace_find(&self, event: &Event, line: &mut impl Write) -> fmt::Result {
        let tag = event.small;
        let image = first(&self.image, usize::from(event.word));
        let code = rainsheave::find_code(image, tag);
        let part = rainsheave::find(image, tag);
        let begin = part_begin(image, tag, part);
        write!(line, "find {code} {begin}{}", Bytes(part))
    }

    // Every query.
    fn trace_query(&self, line: &mut impl Write) -> fmt::Result {
        let device = self.device;
        let state = Answer(rainsheave::state(device));
        let status = Answer(rainsheave::status(device));
        let error = Answer(rainsheave::error(device));
        let position = Answer(rainsheave::position(device));
        let target = Answer(rainsheave::target(device));
        let command = Answer(rainsheave::command(device));
        let ticks_to_go = Answer(rainsheave::ticks_to_go(device));
        write!(
            line,
            "query {state} {status} {error} {position} {target} {command} {ticks_to_go}"
        )
    }

    // An unsound device is handed to a call; the run's device stays.
    fn trace_unsound(&self, event: &Event, line: &mut impl Write) -> fmt::Result {
        let mut device = self.device;
        unsound::alter(&mut device, event.small, event.word);
        let called = calls::call(device, event, &self.image);
        write!(line, "unsound {}", called.number)
    }

    // The same in other ways, and what the call did with the device and the room that it was handed.
    fn trace_broken(&self, event: &Event, line: &mut impl Write) -> fmt::Result {
        let mut device = self.device;
        unsound::break_device(&mut device, event.small, event.word);
        let called = calls::call(device, event, &self.image);
        let after = if called.device == device {
            "same"
        } else {
            "other"
        };
        let room = if called.kept { "kept" } else { "written" };
        write!(line, "broken {} {after} {room}", called.number)
    }

    // What becomes of an event, and its line up to the device.
    fn trace_event(&mut self, event: &Event, line: &mut impl Write) -> fmt::Result {
        let device = self.device;
        let word = event.word;
        match event.kind {
            Kind::Fresh => self.trace_fresh(line),
            Kind::Sdo => self.trace_sdo(event, line),
            Kind::Control => self.trace_change("control", rainsheave::control(device, word), line),
            Kind::Fault => self.trace_change("fault", rainsheave::fault(device, word), line),
            Kind::Tick => self.trace_change("tick", rainsheave::tick(device), line),
            Kind::Jump => self.trace_change("jump", rainsheave::jump(device, event.number), line),
            Kind::Store => self.trace_store(word, line),
            Kind::Load => self.trace_change("load", self.load(event), line),
            Kind::Find => self.trace_find(event, line),
            Kind::Query => self.trace_query(line),
            Kind::Unsound => self.trace_unsound(event, line),
            Kind::Ticks => self.trace_change("ticks", self.ticks(word), line),
            Kind::Patch => self.trace_patch(event, line),
            Kind::Wide => self.trace_wide(event, line),
            Kind::Append => self.trace_change("append", self.append(event), line),
            Kind::Broken => self.trace_broken(event, line),
            Kind::Receive => self.trace_change("receive", self.receive(event), line),
            Kind::Send => self.trace_send(word, line),
            Kind::Unknown(kind) => write!(line, "unknown {kind}"),
        }
    }

    // The end of a line: the device after the event, and its phase, of which there is no query. A run that begins fresh has a sound
    // device, unless the caller puts in another, so that each query has a value.
    fn trace_device(&self, line: &mut impl Write) -> fmt::Result {
        let device = self.device;
        let state = rainsheave::value_told(rainsheave::state(device));
        let status = rainsheave::value_told(rainsheave::status(device));
        let position = rainsheave::value_told(rainsheave::position(device));
        let phase = device.dither.phase;
        writeln!(line, " | {state} {status} {position} {phase}")
    }

    // Every record, with a line for each, and one for a part record at the end.
    fn trace_all(&mut self, records: &[u8], text: &mut impl Write) -> fmt::Result {
        let (records, part) = records.as_chunks::<RECORD_LENGTH>();
        for record in records {
            self.trace_event(&Event::from(*record), text)?;
            self.trace_device(text)?;
        }
        if !part.is_empty() {
            writeln!(text, "part {}", part.len())?;
        }
        Ok(())
    }

    // The lines of all records go to the start of the text; where they end is handed back. A room refuses no part of a line, so that
    // there is no failure to tell.
    pub fn trace(&mut self, records: &[u8], text: &mut [u8]) -> usize {
        let mut room = Room { text, end: 0 };
        let _ = self.trace_all(records, &mut room);
        room.end
    }
}
