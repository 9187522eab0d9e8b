//! Rows of hosts of many sessions.

use crate::look::{field, granted};
use crate::machines::cpu_of;
use crate::shown::{TakenBytes, room};
use cpm_geom::{Format, Image};
use cpm_machine::{Look, Opening};
use cpm_slots::{Event, Host, HostRestoreError, LEAST_FRAMES, MOST_FRAMES, Reply, Request, SlotId};
use std::alloc::{AllocError, Global};
use test_images::Images;
use test_language::{
    RowAnswer, RowFault, RowLine, Scene, Word, address, byte, bytes_of, count, number, write_bytes,
};

/// The byte of the reply that is no event's.
const REST: u8 = 7;

/// The host of a row.
#[derive(Drop)]
pub struct Hosts {
    images: Images,
    host: Option<Host>,
    /// The bytes of the slot that was saved last.
    saved: Vec<u8>,
    events: Vec<Event>,
    shown: TakenBytes,
}

impl Scene for Hosts {
    fn new(alloc: Global) -> Result<Hosts, AllocError> {
        Ok(Hosts {
            images: Images::new(alloc),
            host: None,
            saved: Vec::new(alloc),
            events: Vec::new(alloc),
            shown: TakenBytes::new(alloc),
        })
    }

    fn is_alone(verb: &str) -> bool {
        matches!(verb, "used" | "run" | "restore")
    }

    fn takes_text(_verb: &str) -> bool {
        false
    }

    fn act(&mut self, alloc: Global, line: &RowLine<'_>) -> Result<RowAnswer, RowFault> {
        let arguments = line.arguments();
        match line.verb() {
            "image" | "entry" | "record" | "sector" => self.images.act(alloc, line),
            "host" => self.begin(alloc, arguments),
            "event" => self.event(arguments),
            "ending" | "has" => self.shown.act(alloc, line.verb(), arguments),
            _ => self.act_host(alloc, line.verb(), arguments),
        }
    }
}

impl Hosts {
    /// `host FRAMES`, or `host FRAMES IMAGE` with that system drive.
    fn begin(&mut self, alloc: Global, arguments: &[Word<'_>]) -> Result<RowAnswer, RowFault> {
        let [frames, names @ ..] = arguments else {
            return Err(RowFault::Words);
        };
        let frames = number(*frames)?;
        if frames < u64::from(LEAST_FRAMES) || frames > u64::from(MOST_FRAMES) {
            return Err(RowFault::Unready);
        }
        let system = self.system(alloc, names)?;
        match Host::new(alloc, system, frames as u16) {
            Ok(host) => {
                self.host = Some(host);
                Ok(RowAnswer::Done)
            }
            Err((_, error)) => RowAnswer::refused(alloc, error),
        }
    }

    /// The last of these images, or a blank one where there is none.
    fn system(&self, alloc: Global, names: &[Word<'_>]) -> Result<Image, RowFault> {
        match self.images.copies(alloc, names)?.pop() {
            Some(image) => Ok(image),
            None => Ok(Image::blank(alloc, Format::Ibm3740)?),
        }
    }

    /// `event SLOT REQUEST`.
    fn event(&mut self, arguments: &[Word<'_>]) -> Result<RowAnswer, RowFault> {
        let [slot, request @ ..] = arguments else {
            return Err(RowFault::Words);
        };
        self.events.push(Event {
            slot: slot_of(*slot)?,
            request: request_of(request)?,
        })?;
        Ok(RowAnswer::Done)
    }

    /// A line to the host.
    fn act_host(
        &mut self,
        alloc: Global,
        verb: &str,
        arguments: &[Word<'_>],
    ) -> Result<RowAnswer, RowFault> {
        let Some(host) = &mut self.host else {
            return Err(RowFault::Absent);
        };
        match (verb, arguments) {
            ("open", [cpu, quota, names @ ..]) => {
                let drives = self.images.copies(alloc, names)?;
                open(alloc, host, *cpu, *quota, drives)
            }
            ("used", []) => RowAnswer::words(alloc, host.store().used()),
            ("run", []) => run(alloc, host, self.events.as_slice()),
            ("save", [slot]) => save(alloc, host, slot_of(*slot)?, &mut self.saved),
            ("restore", []) => restore(alloc, host, self.saved.as_slice()),
            ("put", [place, value]) => put(&mut self.saved, count(*place)?, byte(*value)?),
            ("alike", [one, other]) => alike(alloc, host, slot_of(*one)?, slot_of(*other)?),
            ("take", [slot, room @ ..]) => {
                take(alloc, host, &mut self.shown, slot_of(*slot)?, room)
            }
            ("list", [slot, room @ ..]) => {
                take_list(alloc, host, &mut self.shown, slot_of(*slot)?, room)
            }
            (_, [slot, rest @ ..]) => act_slot(alloc, host, verb, slot_of(*slot)?, rest),
            _ => Err(RowFault::Unknown),
        }
    }
}

/// The slot of a number.
fn slot_of(word: Word<'_>) -> Result<SlotId, RowFault> {
    Ok(SlotId(number(word)?))
}

/// What the words after a slot ask of it.
fn request_of(words: &[Word<'_>]) -> Result<Request, RowFault> {
    let [verb, rest @ ..] = words else {
        return Err(RowFault::Words);
    };
    match (verb.text, rest) {
        ("key", [key]) => Ok(Request::Key(byte(*key)?)),
        ("grant", [steps]) => Ok(Request::Grant(number(*steps)?)),
        ("until", [steps, pc]) => Ok(Request::GrantUntil {
            steps: number(*steps)?,
            pc: address(*pc)?,
        }),
        ("take", []) => Ok(Request::Take),
        ("list", []) => Ok(Request::TakeList),
        ("look", []) => Ok(Request::Look),
        ("peek", [at]) => Ok(Request::Peek(address(*at)?)),
        ("close", []) => Ok(Request::Close),
        _ => Err(RowFault::Words),
    }
}

/// `open CPU PAGES IMAGE..`: the slot's number.
fn open(
    alloc: Global,
    host: &mut Host,
    cpu: Word<'_>,
    quota: Word<'_>,
    drives: Vec<Image>,
) -> Result<RowAnswer, RowFault> {
    let Ok(quota) = u16::try_from(number(quota)?) else {
        return Err(RowFault::Number);
    };
    let opening = Opening {
        cpu: cpu_of(cpu)?,
        quota,
        drives,
    };
    match host.open(alloc, opening) {
        Ok(id) => RowAnswer::words(alloc, id.0),
        Err((_, error)) => RowAnswer::refused(alloc, error),
    }
}

/// A line to a slot.
pub(crate) fn act_slot(
    alloc: Global,
    host: &mut Host,
    verb: &str,
    id: SlotId,
    arguments: &[Word<'_>],
) -> Result<RowAnswer, RowFault> {
    match (verb, arguments) {
        ("key", keys) => press(alloc, host, id, keys),
        ("grant", [steps]) => match host.grant(id, number(*steps)?) {
            Ok(found) => granted(alloc, found),
            Err(refusal) => RowAnswer::refused(alloc, refusal),
        },
        ("until", [steps, pc]) => match host.grant_until(id, number(*steps)?, address(*pc)?) {
            Ok(found) => granted(alloc, found),
            Err(refusal) => RowAnswer::refused(alloc, refusal),
        },
        ("look", [name]) => match host.look(id) {
            Ok(look) => field(alloc, &look, *name),
            Err(refusal) => RowAnswer::refused(alloc, refusal),
        },
        ("peek", [at]) => match host.peek(id, address(*at)?) {
            Ok(byte) => RowAnswer::byte(alloc, byte),
            Err(refusal) => RowAnswer::refused(alloc, refusal),
        },
        ("place", [page]) => place(alloc, host, id, *page),
        ("fork", []) => match host.fork(alloc, id) {
            Ok(id) => RowAnswer::words(alloc, id.0),
            Err(error) => RowAnswer::refused(alloc, error),
        },
        ("close", []) => close(alloc, host, id),
        _ => Err(RowFault::Unknown),
    }
}

/// `save SLOT`: how many bytes its saving has. They are kept, past the end of the host too.
fn save(
    alloc: Global,
    host: &mut Host,
    id: SlotId,
    saved: &mut Vec<u8>,
) -> Result<RowAnswer, RowFault> {
    match host.save(alloc, id) {
        Ok(bytes) => {
            let length = bytes.len();
            *saved = bytes;
            RowAnswer::words(alloc, length)
        }
        Err(error) => RowAnswer::refused(alloc, error),
    }
}

/// `put PLACE BYTE`: what was saved last has this byte there.
fn put(saved: &mut Vec<u8>, place: usize, value: u8) -> Result<RowAnswer, RowFault> {
    match saved.get_mut(place) {
        Some(byte) => {
            *byte = value;
            Ok(RowAnswer::Done)
        }
        None => Err(RowFault::Number),
    }
}

/// `restore`: the number of the slot that goes on from what was saved last.
fn restore(alloc: Global, host: &mut Host, saved: &[u8]) -> Result<RowAnswer, RowFault> {
    match host.restore(alloc, saved) {
        Ok(id) => RowAnswer::words(alloc, id.0),
        Err(HostRestoreError::Damaged(damage)) => {
            let (field, at) = (damage.field, damage.at);
            Ok(RowAnswer::Words(format!(in alloc; "Damaged {field:?} {at}")?))
        }
        Err(error) => RowAnswer::refused(alloc, error),
    }
}

/// `key SLOT BYTES`.
fn press(
    alloc: Global,
    host: &mut Host,
    id: SlotId,
    keys: &[Word<'_>],
) -> Result<RowAnswer, RowFault> {
    for key in &bytes_of(alloc, keys)? {
        if let Err(refusal) = host.key(id, *key) {
            return RowAnswer::refused(alloc, refusal);
        }
    }
    Ok(RowAnswer::Done)
}

/// `place SLOT PAGE`: the frame that the page is made of.
fn place(alloc: Global, host: &Host, id: SlotId, page: Word<'_>) -> Result<RowAnswer, RowFault> {
    let table = match host.table(id) {
        Ok(table) => table,
        Err(refusal) => return RowAnswer::refused(alloc, refusal),
    };
    let store = host.store();
    if !store.is_taken(table) {
        return Err(RowFault::Unready);
    }
    RowAnswer::words(alloc, store.place(table, byte(page)?))
}

/// `close SLOT`: its steps, and the drives that it had.
fn close(alloc: Global, host: &mut Host, id: SlotId) -> Result<RowAnswer, RowFault> {
    let closed = match host.close(id) {
        Ok(closed) => closed,
        Err(refusal) => return RowAnswer::refused(alloc, refusal),
    };
    let mut answer = format!(in alloc; "{}", closed.look.count)?;
    for (name, drive) in [" A", " B", " C", " D"].into_iter().zip(closed.drives) {
        if drive.is_some() {
            answer.push_str(name)?;
        }
    }
    Ok(RowAnswer::Words(answer))
}

/// `take SLOT`, or `take SLOT N`.
pub(crate) fn take(
    alloc: Global,
    host: &mut Host,
    shown: &mut TakenBytes,
    id: SlotId,
    arguments: &[Word<'_>],
) -> Result<RowAnswer, RowFault> {
    let mut out = room(alloc, arguments)?;
    match host.take(id, &mut out) {
        Ok(count) => shown.keep(alloc, out, count),
        Err(refusal) => RowAnswer::refused(alloc, refusal),
    }
}

/// `list SLOT`, or `list SLOT N`.
pub(crate) fn take_list(
    alloc: Global,
    host: &mut Host,
    shown: &mut TakenBytes,
    id: SlotId,
    arguments: &[Word<'_>],
) -> Result<RowAnswer, RowFault> {
    let mut out = room(alloc, arguments)?;
    match host.take_list(id, &mut out) {
        Ok(count) => shown.keep(alloc, out, count),
        Err(refusal) => RowAnswer::refused(alloc, refusal),
    }
}

/// `alike SLOT SLOT`: whether two slots are in the same state, and have the same console bytes, which are taken.
fn alike(
    alloc: Global,
    host: &mut Host,
    one: SlotId,
    other: SlotId,
) -> Result<RowAnswer, RowFault> {
    let (Ok(look), Ok(other_look)) = (host.look(one), host.look(other)) else {
        return Err(RowFault::Absent);
    };
    let (mut bytes, mut other_bytes) = (room(alloc, &[])?, room(alloc, &[])?);
    let taken = host.take(one, &mut bytes);
    let other_taken = host.take(other, &mut other_bytes);
    RowAnswer::truth(
        alloc,
        look == other_look && taken == other_taken && bytes.as_slice() == other_bytes.as_slice(),
    )
}

/// `run`: serves the events, and gives the reply to each in a line, and one that is no event's and is 07 before.
fn run(alloc: Global, host: &mut Host, events: &[Event]) -> Result<RowAnswer, RowFault> {
    let mut replies = Vec::new(alloc);
    for _ in events {
        replies.push(Reply::Done)?;
    }
    replies.push(Reply::Peeked(REST))?;
    let places = replies.as_mut_slice();
    if places.len() < events.len() {
        return Err(RowFault::Unready);
    }
    host.run(events, places);
    let mut answer = String::new(alloc);
    for reply in &replies {
        if !answer.is_empty() {
            answer.push('\n')?;
        }
        add_reply(alloc, &mut answer, reply)?;
    }
    Ok(RowAnswer::Words(answer))
}

/// Adds a reply in words.
fn add_reply(alloc: Global, out: &mut String, reply: &Reply) -> Result<(), AllocError> {
    match reply {
        Reply::Done => out.push_str("Done"),
        Reply::Granted(granted) => {
            let (executed, why) = (granted.executed, granted.why);
            out.push_str(format!(in alloc; "Granted {executed} {why:?}")?.as_str())
        }
        Reply::Bytes(bytes) => {
            out.push_str("Bytes ")?;
            write_bytes(alloc, out, bytes.as_slice())
        }
        Reply::Looked(look) => {
            let Look { count, ended, .. } = look;
            out.push_str(format!(in alloc; "Looked {count} {ended:?}")?.as_str())
        }
        Reply::Peeked(byte) => out.push_str(format!(in alloc; "Peeked {byte:02X}")?.as_str()),
        Reply::Refused(refusal) => out.push_str(format!(in alloc; "Refused {refusal:?}")?.as_str()),
    }
}
