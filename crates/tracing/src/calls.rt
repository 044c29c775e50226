// The calls that a device which is not sound is handed to, and what they do with what they are handed.
use crate::UNTOUCHED;
use crate::event::Event;
use device::Device;
use image::IMAGE_LENGTH;
use rainsheave::Change;

// What a call hands back, and whether it keeps every byte of the room that it is lent. A call that hands back no device counts as
// one that hands back its own, and one that is lent no room as one that keeps it.
#[derive(Clone, Copy)]
pub struct Called {
    pub device: Device,
    pub number: u8,
    pub kept: bool,
}

fn is_untouched(room: &[u8]) -> bool {
    room.iter().all(|byte| *byte == UNTOUCHED)
}

impl From<Change> for Called {
    fn from(change: Change) -> Called {
        Called {
            device: change.device,
            number: rainsheave::number_of_report(change.report),
            kept: true,
        }
    }
}

fn call_sdo(device: Device, bytes: &[u8]) -> Called {
    let mut room = [UNTOUCHED; 8];
    let answer = rainsheave::sdo(device, bytes, &mut room);
    Called {
        device: answer.device,
        number: rainsheave::number_of_outcome(answer.outcome),
        kept: is_untouched(&room),
    }
}

fn call_store(device: Device) -> Called {
    let mut room = [UNTOUCHED; IMAGE_LENGTH];
    let report = rainsheave::store(device, &mut room);
    Called {
        device,
        number: rainsheave::number_of_report(report),
        kept: is_untouched(&room),
    }
}

fn call_send(device: Device) -> Called {
    let mut room = [UNTOUCHED; 8];
    let sent = rainsheave::send(device, &mut room);
    Called {
        device,
        number: rainsheave::number_of_report(sent),
        kept: is_untouched(&room),
    }
}

fn call_status(device: Device) -> Called {
    Called {
        device,
        number: rainsheave::number_of_report(rainsheave::status(device)),
        kept: true,
    }
}

// One of ten calls.
pub fn call(device: Device, event: &Event, image: &[u8]) -> Called {
    match event.number % 10 {
        0 => call_sdo(device, &event.bytes),
        1 => Called::from(rainsheave::control(device, event.word)),
        2 => Called::from(rainsheave::fault(device, event.word)),
        3 => Called::from(rainsheave::tick(device)),
        4 => Called::from(rainsheave::jump(device, 1)),
        5 => call_store(device),
        6 => Called::from(rainsheave::load(device, image)),
        7 => call_status(device),
        8 => Called::from(rainsheave::receive(device, &event.bytes)),
        _ => call_send(device),
    }
}
