//! Keys that are typed at a terminal which gives each as it comes, and which says at once where none came: as after `stty -icanon min 0 time 0`.

ghost use Rattle.std.specs.Prelude.{◌≡◌, ◌<◌, IfSome, None, false};

use crate::held::LockableFiles;
use crate::patient::StandardInput;
use crate::tempo::{Tempo, TurnLength, micros, sleep};
use cpm_host::{Heard, KeyNeed, TypingEnd, Typist};
use std::alloc::Global;
use std::cell::Cell;
use std::collections::VecDeque;
use std::io::{ErrorKind, Write};
use std::{fs, io};

/// ^], which ends typing.
const END_KEY: u8 = 0x1D;

/// ^^, before which each of the two is a key.
const PREFIX_KEY: u8 = 0x1E;

/// How many bytes are read at once.
const MOST_READ: usize = 128;

/// How often it is read in a turn at most: as many bytes as a terminal keeps.
const MOST_READS: usize = 32;

/// After how many microseconds a terminal is asked again for a key that a machine wants.
const KEY_PAUSE: u64 = 8_000;

/// How often it is looked whether typing has ended otherwise than by a key, in microseconds.
const LOOK_PAUSE: u64 = 10_000;

/// How many microseconds ^] waits for a machine to take the next of the keys before it.
const MOST_WAIT: u64 = 40_000;

/// What was typed, and is not given yet.
#[derive(Drop)]
struct TypedKeys {
    /// As many as come, so that an end behind them is heard.
    keys: VecDeque<u8>,
    /// Whether ^^ came last, which is no key yet.
    is_prefixed: bool,
    /// Why no more is typed.
    end: Option<TypingEnd>,
    /// When the last key was given, or that end came behind keys that were not.
    since: u64,
}

impl TypedKeys {
    fn new(alloc: Global) -> TypedKeys {
        TypedKeys {
            keys: VecDeque::new(alloc),
            is_prefixed: false,
            end: None,
            since: 0,
        }
    }

    /// Whether bytes are read, as many as are read at once: behind an end none are, and none where memory is refused, so that they stay with the terminal.
    fn makes_room(&mut self) -> bool {
        // (one more for a ^^ that came before)
        self.end.is_none() && self.keys.reserve(MOST_READ + 1).is_ok()
    }

    /// Reads what came. What is left behind the most that are read in a turn stays with the terminal until the next.
    fn read(&mut self, input: &impl StandardInput, now: u64) {
        for _turn in 0..MOST_READS {
            if !self.makes_room() || !self.read_some(input, now) {
                return;
            }
        }
    }

    /// Reads some bytes, for which there is room, and says whether there may be more.
    fn read_some(&mut self, input: &impl StandardInput, now: u64) -> bool {
        let mut bytes = [0u8; MOST_READ];
        match input.read_input(&mut bytes) {
            Ok(count) => {
                self.take_first(&bytes, count, now);
                count == MOST_READ
            }
            Err(error) if is_nothing(error.kind()) => false,
            Err(_) => {
                self.take_end(TypingEnd::InputEnd, now);
                false
            }
        }
    }

    /// Keeps a key. (There is room: it was made before the bytes were read.)
    fn keep(&mut self, key: u8) {
        let _ = self.keys.push_back(key);
    }

    /// Takes that no more is typed. A ^^ behind which nothing came is a key.
    fn take_end(&mut self, why: TypingEnd, now: u64) {
        if self.end.is_some() {
            return;
        }
        if self.is_prefixed {
            self.is_prefixed = false;
            self.keep(PREFIX_KEY);
        }
        self.end = Some(why);
        if !self.keys.is_empty() {
            self.since = now;
        }
    }

    /// Takes a byte that came. One of 80h or more is no key, and what comes behind ^] isn't any more.
    fn take(&mut self, byte: u8, now: u64) {
        if self.end.is_some() || !byte.is_ascii() {
            return;
        }
        if self.is_prefixed {
            self.take_prefixed(byte);
        } else if byte == END_KEY {
            self.take_end(TypingEnd::Quit, now);
        } else if byte == PREFIX_KEY {
            self.is_prefixed = true;
        } else {
            self.keep(byte);
        }
    }

    /// Takes the first bytes that came, so many.
    fn take_first(&mut self, bytes: &[u8], count: usize, now: u64) {
        for &byte in bytes.iter().take(count) {
            self.take(byte, now);
        }
    }

    /// Takes the key behind ^^. Before any but the two ^^ is a key itself.
    fn take_prefixed(&mut self, byte: u8) {
        self.is_prefixed = false;
        if byte != END_KEY && byte != PREFIX_KEY {
            self.keep(PREFIX_KEY);
        }
        self.keep(byte);
    }

    /// Why no more is given: at the end, once a machine wants another key than those before it, or has taken none of them for a while.
    fn ended(&self, is_wanted: bool, now: u64) -> Option<TypingEnd> {
        let is_last = is_wanted && self.keys.is_empty();
        if is_last || now.saturating_sub(self.since) >= MOST_WAIT {
            self.end
        } else {
            None
        }
    }

    /// The next key.
    fn next(&mut self, now: u64) -> Option<u8>
        ensures { IfSome result (λ byte. byte < 128) }
    {
        let byte = self.keys.pop_front()?;
        self.since = now;
        if byte.is_ascii() { Some(byte) } else { None }
    }
}

/// Who types at a terminal. A file whose coming ends it is looked for now and then.
#[derive(Drop)]
pub struct TerminalTypist<'a, R: LockableFiles + StandardInput> {
    rt: &'a R,
    typed: TypedKeys,
    tempo: Tempo,
    turns: TurnLength,
    end: &'a str,
    /// Why the program's text can't be written any more.
    lost: &'a Cell<Option<io::Error>>,
    /// When that was looked for last, if it was.
    looked: Option<u64>,
    /// Whether it has come.
    is_ended: bool,
    /// Whether a script that goes before what is typed is played no further, since typing has ended.
    has_broken_in: bool,
}

impl<'a, R: LockableFiles + StandardInput> TerminalTypist<'a, R> {
    /// One who types at standard input until a file of a name comes, or the program's text can't be written any more.
    pub fn new(
        rt: &'a R,
        end: &'a str,
        lost: &'a Cell<Option<io::Error>>,
        pace: Option<u64>,
    ) -> TerminalTypist<'a, R> {
        TerminalTypist {
            rt,
            typed: TypedKeys::new(rt.alloc()),
            tempo: Tempo::new(pace),
            turns: TurnLength::new(),
            end,
            lost,
            looked: None,
            is_ended: false,
            has_broken_in: false,
        }
    }

    /// Does what comes before a key is given to a machine that has executed so many steps: keeps the pace, and takes what came. It says what the time is.
    fn prepare(&mut self, is_wanted: bool, count: u64) -> u64
        ensures { self.new.has_broken_in ≡ self.old.has_broken_in }
    {
        let mut now = micros(self.rt);
        self.turns.see(now, count);
        if !is_wanted {
            now = self.tempo.keep(self.rt, now, count);
        }
        self.turns.begin(now);
        self.look(now);
        self.typed.read(self.rt, now);
        now
    }

    /// Looks whether typing has ended otherwise than by a key.
    fn look(&mut self, now: u64)
        ensures { self.new.has_broken_in ≡ self.old.has_broken_in }
    {
        self.is_ended = self.is_ended || self.lost.get().is_some();
        if let Some(looked) = self.looked
            && now.saturating_sub(looked) < LOOK_PAUSE
        {
            return;
        }
        self.looked = Some(now);
        if let Ok(true) = fs::exists(self.rt, self.end) {
            self.is_ended = true;
        }
        // (one that hangs up says again and again that nothing came)
        if !self.rt.is_input_terminal() {
            self.typed.take_end(TypingEnd::InputEnd, now);
        }
    }

    /// The next key. Where one is wanted, and none came, it is waited a little.
    fn next(&mut self, is_wanted: bool, now: u64) -> Option<u8>
        ensures ascii { IfSome result (λ byte. byte < 128) }
        ensures still { self.new.has_broken_in ≡ self.old.has_broken_in }
    {
        let key = self.typed.next(now);
        if key.is_some() || !is_wanted {
            return key;
        }
        let then = sleep(self.rt, KEY_PAUSE);
        self.tempo.leave_out(then.saturating_sub(now));
        self.turns.begin(then);
        self.typed.read(self.rt, then);
        self.typed.next(then)
    }
}

/// Whether a read that failed says that nothing came.
fn is_nothing(kind: ErrorKind) -> bool {
    match kind {
        ErrorKind::Interrupted | ErrorKind::WouldBlock => true,
        _ => false,
    }
}

impl<R: LockableFiles + StandardInput> Typist for TerminalTypist<'_, R> {
    // What is typed isn't known.
    ghost typing = { λ typist. record { is_patient = false; unread = None; heard = None; has_broken_in = typist.has_broken_in } };

    fn is_patient(&self) -> bool {
        false
    }

    fn most_steps(&self) -> u64 {
        self.tempo.most_steps().min(self.turns.most_steps())
    }

    // (keys that come meanwhile are kept, so that they come when the script has ended)
    fn look_in(&mut self, count: u64) {
        self.prepare(false, count);
        self.has_broken_in = self.has_broken_in || self.is_ended || self.typed.end.is_some();
    }

    fn has_broken_in(&self) -> bool {
        self.has_broken_in
    }

    fn hear(&mut self, need: KeyNeed, count: u64) -> io::Result<Heard> {
        let now = self.prepare(need.wants_key(), count);
        if self.is_ended {
            return Ok(Heard::End(TypingEnd::Signal));
        }
        if let Some(why) = self.typed.ended(need.wants_key(), now) {
            return Ok(Heard::End(why));
        }
        match need {
            KeyNeed::Pending => Ok(Heard::Nothing),
            KeyNeed::Possible | KeyNeed::Wanted => match self.next(need.wants_key(), now) {
                Some(byte) => Ok(Heard::Key(byte)),
                None => Ok(Heard::Nothing),
            },
        }
    }
}

/// A writer of a program's text. Where one types and it can't be written, it is dropped from there on, and noted why: so typing ends, and what is to be kept of
/// it can be written.
#[derive(Drop)]
pub struct TypingOutput<'a, W: Write + Drop> {
    writer: W,
    lost: Option<&'a Cell<Option<io::Error>>>,
}

impl<'a, W: Write + Drop> TypingOutput<'a, W> {
    pub fn new(writer: W, lost: Option<&'a Cell<Option<io::Error>>>) -> TypingOutput<'a, W> {
        TypingOutput { writer, lost }
    }
}

impl<W: Write + Drop> Write for TypingOutput<'_, W> {
    fn write(&mut self, buf: &[u8]) -> io::Result<usize> {
        let Some(lost) = self.lost else {
            return self.writer.write(buf);
        };
        if lost.get().is_some() {
            return Ok(buf.len());
        }
        match self.writer.write(buf) {
            Err(error) if error.kind() != ErrorKind::Interrupted => {
                lost.set(Some(error));
                Ok(buf.len())
            }
            answer => answer,
        }
    }

    fn flush(&mut self) -> io::Result<()> {
        Ok(())
    }
}
