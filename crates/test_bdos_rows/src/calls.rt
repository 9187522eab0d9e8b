//! Rows of a session, step by step.

use crate::session::Caller;
use crate::text::{key_answer, list_echo, middle, press, taken, taken_list};
use cpm_geom::Image;
use std::alloc::{AllocError, Global};
use test_images::Images;
use test_language::{RowAnswer, RowFault, RowLine, Scene, Word, bytes_of};

/// The bytes of a record.
const RECORD: usize = 128;

/// Disk images, and the session that has copies of them.
#[derive(Drop)]
pub struct Calls {
    images: Images,
    session: Option<Caller>,
}

impl Calls {
    /// `session IMAGE..`: a session with these drives, the first as A, and a blank system drive.
    fn begin(&mut self, alloc: Global, arguments: &[Word<'_>]) -> Result<RowAnswer, RowFault> {
        self.session = Some(self.session_of(alloc, arguments)?);
        Ok(RowAnswer::Done)
    }

    /// A session with these drives and a blank system drive.
    fn session_of(&self, alloc: Global, names: &[Word<'_>]) -> Result<Caller, RowFault> {
        let images = self.images.copies(alloc, names)?;
        let system = self.images.copy(alloc, "blank")?;
        Ok(Caller::new(alloc, images, system)?)
    }

    /// `system IMAGE`: the session's system drive.
    fn system(&mut self, alloc: Global, arguments: &[Word<'_>]) -> Result<RowAnswer, RowFault> {
        let [name] = arguments else {
            return Err(RowFault::Words);
        };
        let image = self.images.copy(alloc, name.text)?;
        match &mut self.session {
            Some(session) => session.system = image,
            None => return Err(RowFault::Absent),
        }
        Ok(RowAnswer::Done)
    }

    /// `records NAME N COUNT BYTES`: so many records of an image, from record N on, begin so, and else have zeros.
    fn records(&mut self, alloc: Global, arguments: &[Word<'_>]) -> Result<RowAnswer, RowFault> {
        let [name, first, times, bytes @ ..] = arguments else {
            return Err(RowFault::Words);
        };
        let (first, times) = (middle(*first)?, middle(*times)?);
        let record = record_of(alloc, bytes)?;
        let mut image = self.images.copy(alloc, name.text)?;
        put_records(&mut image, first, times, &record)?;
        self.images.put(alloc, name.text, image)?;
        Ok(RowAnswer::Done)
    }

    /// Does a line to the session.
    fn act_on_session(&mut self, alloc: Global, line: &RowLine<'_>) -> Result<RowAnswer, RowFault> {
        match &mut self.session {
            Some(session) => session.act(alloc, line.verb(), line.arguments()),
            None => Err(RowFault::Absent),
        }
    }
}

/// A record that begins with the bytes of these words, and else has zeros.
fn record_of(alloc: Global, words: &[Word<'_>]) -> Result<[u8; RECORD], RowFault> {
    let bytes = bytes_of(alloc, words)?;
    if bytes.len() > RECORD {
        return Err(RowFault::Bytes);
    }
    let mut record = [0; RECORD];
    record[..bytes.len()].copy_from_slice(bytes.as_slice());
    Ok(record)
}

/// Puts a record so many times, from a record of the image on.
fn put_records(
    image: &mut Image,
    first: u16,
    times: u16,
    record: &[u8; RECORD],
) -> Result<(), RowFault> {
    for place in 0..times {
        if image.put_record(first.wrapping_add(place), record).is_err() {
            return Err(RowFault::Absent);
        }
    }
    Ok(())
}

impl Scene for Calls {
    fn new(alloc: Global) -> Result<Self, AllocError> {
        Ok(Calls {
            images: Images::new(alloc),
            session: None,
        })
    }

    fn is_alone(verb: &str) -> bool {
        matches!(
            verb,
            "step"
                | "commands"
                | "load"
                | "next-key"
                | "first-key"
                | "pending"
                | "column"
                | "take"
                | "list"
                | "returned"
                | "booted"
                | "waits"
                | "pages"
        )
    }

    fn takes_text(_verb: &str) -> bool {
        false
    }

    fn act(&mut self, alloc: Global, line: &RowLine<'_>) -> Result<RowAnswer, RowFault> {
        match line.verb() {
            "session" => self.begin(alloc, line.arguments()),
            "system" => self.system(alloc, line.arguments()),
            "records" => self.records(alloc, line.arguments()),
            "image" | "entry" | "record" | "sector" => self.images.act(alloc, line),
            _ => self.act_on_session(alloc, line),
        }
    }
}

impl Caller {
    /// Does a line that changes a session.
    fn act(
        &mut self,
        alloc: Global,
        verb: &str,
        arguments: &[Word<'_>],
    ) -> Result<RowAnswer, RowFault> {
        match verb {
            "bdos" => self.bdos(alloc, arguments),
            "bios" => self.bios(alloc, arguments),
            "call" => self.call(arguments),
            "come" => self.come_to(arguments),
            "step" => self.next_step(alloc),
            "commands" => self.commands(alloc),
            _ => self.act_by_hand(alloc, verb, arguments),
        }
    }

    /// Does a line that presses keys, loads, comes into a fault, or changes what the session has.
    fn act_by_hand(
        &mut self,
        alloc: Global,
        verb: &str,
        arguments: &[Word<'_>],
    ) -> Result<RowAnswer, RowFault> {
        match verb {
            "type" => self.type_keys(alloc, arguments),
            "load" => self.load(alloc),
            "fault" => self.fault(alloc, arguments),
            "store" => self.store(alloc, arguments),
            "fcb" => self.file(alloc, arguments),
            _ => self.act_on_state(alloc, verb, arguments),
        }
    }

    /// Does a line about the registers, the mode, the buffer or the tail.
    fn act_on_state(
        &mut self,
        alloc: Global,
        verb: &str,
        arguments: &[Word<'_>],
    ) -> Result<RowAnswer, RowFault> {
        match verb {
            "tail" => self.tail(alloc, arguments),
            "register" => self.register(alloc, arguments),
            "mode" => self.mode(alloc, arguments),
            "buffer" => self.buffer(alloc, arguments),
            _ => self.act_on_console(alloc, verb, arguments),
        }
    }

    /// Does a line about its keys, its console and its list device.
    fn act_on_console(
        &mut self,
        alloc: Global,
        verb: &str,
        arguments: &[Word<'_>],
    ) -> Result<RowAnswer, RowFault> {
        let console = &mut self.session.console;
        match verb {
            "key" => press(alloc, console, bytes_of(alloc, arguments)?.as_slice()),
            "next-key" => key_answer(alloc, console.next_key()),
            "first-key" => key_answer(alloc, console.first_key()),
            "pending" => RowAnswer::words(alloc, console.pending()),
            _ => self.act_on_output(alloc, verb, arguments),
        }
    }

    /// Does a line about what the console shows and the list device gets.
    fn act_on_output(
        &mut self,
        alloc: Global,
        verb: &str,
        arguments: &[Word<'_>],
    ) -> Result<RowAnswer, RowFault> {
        let console = &mut self.session.console;
        match verb {
            "column" => RowAnswer::words(alloc, console.column()),
            "list-echo" => list_echo(alloc, console, arguments),
            "take" => Ok(RowAnswer::Bytes(taken(alloc, console)?)),
            "list" => Ok(RowAnswer::Bytes(taken_list(alloc, console)?)),
            _ => self.look(alloc, verb, arguments),
        }
    }

    /// Does a line that leaves a session as it is.
    fn look(
        &self,
        alloc: Global,
        verb: &str,
        arguments: &[Word<'_>],
    ) -> Result<RowAnswer, RowFault> {
        match verb {
            "returned" => self.returned(alloc),
            "booted" => RowAnswer::truth(alloc, self.is_booted()),
            "waits" => self.waits(alloc),
            "pages" => self.pages(alloc),
            _ => self.look_at(alloc, verb, arguments),
        }
    }

    /// Does a line that asks about what its words name.
    fn look_at(
        &self,
        alloc: Global,
        verb: &str,
        arguments: &[Word<'_>],
    ) -> Result<RowAnswer, RowFault> {
        match verb {
            "peek" => self.bytes(alloc, arguments),
            "directory" => self.directory(alloc, arguments),
            "disk" => self.disk(alloc, arguments),
            "place" => self.place(alloc, arguments),
            "drives" => self.drives(alloc, arguments),
            _ => Err(RowFault::Unknown),
        }
    }
}
