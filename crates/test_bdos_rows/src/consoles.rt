//! Rows of keys that wait to be read, bytes that wait to be taken, and the column of the cursor.

use crate::text::{key_answer, list_echo, press, small, taken};
use cpm_console::{Console, Device, RING};
use std::alloc::{AllocError, Global};
use test_language::{RowAnswer, RowFault, RowLine, Scene, Word, bytes_of, count};

/// What the bytes are that nothing was moved to.
const UNTOUCHED: u8 = b'.';

/// The most bytes that a row takes at once.
const MOST_TAKEN: usize = 8192;

/// A console.
#[derive(Drop)]
pub struct Consoles {
    console: Console,
}

/// A console whose cursor stands at a column, and of which all bytes were taken.
pub fn console_at(alloc: Global, column: u8) -> Result<Console, RowFault> {
    let mut console = Console::new(alloc)?;
    move_to(&mut console, column)?;
    taken(alloc, &mut console)?;
    Ok(console)
}

/// Shows so many spaces.
fn move_to(console: &mut Console, column: u8) -> Result<(), RowFault> {
    for _ in 0..column {
        if console.held() >= RING {
            return Err(RowFault::Unready);
        }
        console.put(b' ');
    }
    Ok(())
}

/// The bytes that were taken; a refusal where others were moved too.
fn taken_answer(alloc: Global, taken: &[u8], rest: &[u8]) -> Result<RowAnswer, RowFault> {
    if rest.iter().any(|byte| *byte != UNTOUCHED) {
        return RowAnswer::refused_text(alloc, "more bytes were moved than it says");
    }
    RowAnswer::bytes(alloc, taken)
}

impl Consoles {
    /// `console COLUMN`: a new console whose cursor stands there.
    fn begin(&mut self, alloc: Global, arguments: &[Word<'_>]) -> Result<RowAnswer, RowFault> {
        let [column] = arguments else {
            return Err(RowFault::Words);
        };
        self.console = console_at(alloc, small(*column)?)?;
        Ok(RowAnswer::Done)
    }

    /// `read COUNT`: so many keys, or as many as are pending.
    fn read(&mut self, alloc: Global, arguments: &[Word<'_>]) -> Result<RowAnswer, RowFault> {
        let [times] = arguments else {
            return Err(RowFault::Words);
        };
        Ok(RowAnswer::Bytes(self.next_keys(alloc, count(*times)?)?))
    }

    /// So many keys, or as many as are pending.
    fn next_keys(&mut self, alloc: Global, times: usize) -> Result<Vec<u8>, AllocError> {
        let mut keys = Vec::new(alloc);
        for _ in 0..times {
            match self.console.next_key() {
                Some(key) => keys.push(key)?,
                None => break,
            }
        }
        Ok(keys)
    }

    /// `put BYTES`: shows bytes one by one as they are.
    fn put(&mut self, bytes: &[u8]) -> Result<RowAnswer, RowFault> {
        for byte in bytes {
            if self.console.held() >= RING {
                return Err(RowFault::Unready);
            }
            self.console.put(*byte);
        }
        Ok(RowAnswer::Done)
    }

    /// `put-list BYTES`: sends bytes one by one to the list device.
    fn put_list(&mut self, bytes: &[u8]) -> Result<RowAnswer, RowFault> {
        for byte in bytes {
            if self.console.held_list() >= RING {
                return Err(RowFault::Unready);
            }
            self.console.put_list(*byte);
        }
        Ok(RowAnswer::Done)
    }

    /// `say BYTES`: shows bytes one by one, and on the list device too while it echoes.
    fn say(&mut self, bytes: &[u8]) -> Result<RowAnswer, RowFault> {
        for byte in bytes {
            if self.console.held() >= RING || self.console.held_list() >= RING {
                return Err(RowFault::Unready);
            }
            self.console.say(*byte);
        }
        Ok(RowAnswer::Done)
    }

    /// `say-all BYTES`: the same by one call.
    fn say_all(&mut self, bytes: &[u8]) -> Result<RowAnswer, RowFault> {
        let (held, listed) = (self.console.held(), self.console.held_list());
        if bytes.len() > RING - held || bytes.len() > RING - listed {
            return Err(RowFault::Unready);
        }
        self.console.say_all(bytes);
        Ok(RowAnswer::Done)
    }

    /// `write BYTES`: shows bytes one by one, with a tab as spaces.
    fn write(&mut self, bytes: &[u8]) -> Result<RowAnswer, RowFault> {
        for byte in bytes {
            if self.console.held() > RING - 8 || self.console.held_list() > RING - 8 {
                return Err(RowFault::Unready);
            }
            self.console.write(*byte);
        }
        Ok(RowAnswer::Done)
    }

    /// `take COUNT`, `take-list COUNT`: moves out so many bytes, or as many as wait.
    fn take(
        &mut self,
        alloc: Global,
        device: Device,
        arguments: &[Word<'_>],
    ) -> Result<RowAnswer, RowFault> {
        let [most] = arguments else {
            return Err(RowFault::Words);
        };
        let most = count(*most)?;
        if most > MOST_TAKEN {
            return Err(RowFault::Number);
        }
        self.take_up_to(alloc, device, most)
    }

    /// Moves out so many bytes, or as many as wait.
    fn take_up_to(
        &mut self,
        alloc: Global,
        device: Device,
        most: usize,
    ) -> Result<RowAnswer, RowFault> {
        let mut out = vec![in alloc; UNTOUCHED; most]?;
        let count = self.console.take_from(device, out.as_mut_slice());
        taken_answer(alloc, &out[..count], &out[count..])
    }

    /// Does a line that asks the console.
    fn look(&self, alloc: Global, verb: &str) -> Result<RowAnswer, RowFault> {
        match verb {
            "first-key" => key_answer(alloc, self.console.first_key()),
            "pending" => RowAnswer::words(alloc, self.console.pending()),
            "held" => RowAnswer::words(alloc, self.console.held()),
            "held-list" => RowAnswer::words(alloc, self.console.held_list()),
            "column" => RowAnswer::words(alloc, self.console.column()),
            _ => RowAnswer::truth(alloc, self.console.has_room()),
        }
    }

    /// Does a line that has bytes.
    fn act_on_bytes(
        &mut self,
        alloc: Global,
        verb: &str,
        bytes: &[u8],
    ) -> Result<RowAnswer, RowFault> {
        match verb {
            "key" => press(alloc, &mut self.console, bytes),
            "put" => self.put(bytes),
            "put-list" => self.put_list(bytes),
            "say" => self.say(bytes),
            "say-all" => self.say_all(bytes),
            "write" => self.write(bytes),
            _ => Err(RowFault::Unknown),
        }
    }
}

impl Scene for Consoles {
    fn new(alloc: Global) -> Result<Self, AllocError> {
        Ok(Consoles {
            console: Console::new(alloc)?,
        })
    }

    fn is_alone(verb: &str) -> bool {
        matches!(
            verb,
            "first-key" | "pending" | "held" | "held-list" | "column" | "has-room"
        )
    }

    fn takes_text(_verb: &str) -> bool {
        false
    }

    fn act(&mut self, alloc: Global, line: &RowLine<'_>) -> Result<RowAnswer, RowFault> {
        match line.verb() {
            "console" => self.begin(alloc, line.arguments()),
            "read" => self.read(alloc, line.arguments()),
            "take" => self.take(alloc, Device::Console, line.arguments()),
            "list" => self.take(alloc, Device::List, line.arguments()),
            "list-echo" => list_echo(alloc, &mut self.console, line.arguments()),
            verb if Consoles::is_alone(verb) => self.look(alloc, verb),
            verb => self.act_on_bytes(alloc, verb, bytes_of(alloc, line.arguments())?.as_slice()),
        }
    }
}
