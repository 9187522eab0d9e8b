//! The standard streams as they are where another program has left them so that they don't wait: what can't be written or read just now is tried again.

ghost use Rattle.std.specs.Prelude.{◌≤◌, IfOk, length};
ghost use Rattle.std.specs.Io.{ReadsAtMost};

use arrayvec::ArrayString;
use std::fmt::Write as _;
use std::io::{ErrorKind, IsTerminal, Read, Write};
use std::rt::Clock;
use std::time::Duration;
use std::{fmt, io, thread};

/// After how many milliseconds it is tried again.
const STREAM_PAUSE: u64 = 10;

/// Whether a call failed that would have had to wait.
fn is_to_wait<T>(answer: &io::Result<T>) -> bool {
    match answer {
        Ok(_) => false,
        Err(error) => error.kind() == ErrorKind::WouldBlock,
    }
}

/// Waits a little.
fn pause(clock: &impl Clock) {
    thread::sleep(clock, Duration::from_millis(STREAM_PAUSE));
}

/// Standard output, which is waited for.
#[derive(Drop)]
pub struct PatientOutput<'a, R: Print + Clock> {
    rt: &'a R,
}

impl<'a, R: Print + Clock> PatientOutput<'a, R> {
    /// The standard output of the machine.
    pub fn new(rt: &'a R) -> PatientOutput<'a, R> {
        PatientOutput { rt }
    }
}

impl<R: Print + Clock> Write for PatientOutput<'_, R> {
    fn write(&mut self, buf: &[u8]) -> io::Result<usize> {
        for _turn in 0..u64::MAX {
            let answer = self.rt.write_some(buf);
            if !is_to_wait(&answer) {
                return answer;
            }
            pause(self.rt);
        }
        Err(io::Error::from(ErrorKind::WouldBlock))
    }

    fn flush(&mut self) -> io::Result<()> {
        Ok(())
    }
}

/// A machine that has a standard error.
pub trait StandardError: Clock {
    /// Writes some of the bytes to it, and says how many. It fails where it has written none.
    fn write_error(&self, bytes: &[u8]) -> io::Result<usize>
        ensures bound { IfOk result (λ n. n ≤ length bytes.now) };
}

impl StandardError for HostRuntime {
    fn write_error(&self, bytes: &[u8]) -> io::Result<usize> {
        self.stderr().write_some(bytes)
    }
}

/// A machine that has a standard input.
pub trait StandardInput: Clock {
    /// Reads some bytes from it, and says how many: 0 at its end. (No lock is taken, whose buffer would be on the stack.)
    fn read_input(&self, buf: &mut [u8]) -> io::Result<usize>
        ensures bound { ReadsAtMost result buf.new };

    /// Whether that is a terminal.
    fn is_input_terminal(&self) -> bool;
}

impl StandardInput for HostRuntime {
    fn read_input(&self, buf: &mut [u8]) -> io::Result<usize> {
        self.stdin().read(buf)
    }

    fn is_input_terminal(&self) -> bool {
        self.stdin().is_terminal()
    }
}

/// Standard error, which is waited for.
#[derive(Drop)]
pub struct PatientError<'a, R: StandardError> {
    rt: &'a R,
}

impl<'a, R: StandardError> PatientError<'a, R> {
    /// The standard error of the machine.
    pub fn new(rt: &'a R) -> PatientError<'a, R> {
        PatientError { rt }
    }
}

impl<R: StandardError> Write for PatientError<'_, R> {
    fn write(&mut self, buf: &[u8]) -> io::Result<usize> {
        for _turn in 0..u64::MAX {
            let answer = self.rt.write_error(buf);
            if !is_to_wait(&answer) {
                return answer;
            }
            pause(self.rt);
        }
        Err(io::Error::from(ErrorKind::WouldBlock))
    }

    fn flush(&mut self) -> io::Result<()> {
        Ok(())
    }
}

impl<R: StandardError> Eprint for PatientError<'_, R> {
    fn eprint<D: fmt::Display + Drop>(&self, value: D) -> io::Result<()> {
        let mut message = ErrorMessage::new(self.rt);
        let written = write!(message, "{value}");
        message.end(written)
    }

    fn eprintln<D: fmt::Display + Drop>(&self, value: D) -> io::Result<()> {
        let mut message = ErrorMessage::new(self.rt);
        let written = writeln!(message, "{value}");
        message.end(written)
    }
}

/// How many bytes of a text are kept until they go to standard error at once, so that lines of other programs come between those of this one.
const MOST_KEPT: usize = 1024;

/// A text for standard error, which goes there at once as far as there is room to keep it. No memory is taken for it.
#[derive(Drop)]
struct ErrorMessage<'a, R: StandardError> {
    error: PatientError<'a, R>,
    kept: ArrayString<MOST_KEPT>,
}

impl<'a, R: StandardError> ErrorMessage<'a, R> {
    /// None of a text.
    fn new(rt: &'a R) -> ErrorMessage<'a, R> {
        ErrorMessage {
            error: PatientError::new(rt),
            kept: ArrayString::new(),
        }
    }

    /// Writes what is kept.
    fn send(&mut self) -> io::Result<()> {
        self.error.write_all(self.kept.as_str().as_bytes())?;
        self.kept.clear();
        Ok(())
    }

    /// Writes what is left of a text that came so.
    fn end(&mut self, written: fmt::Result) -> io::Result<()> {
        match written {
            Ok(()) => self.send(),
            Err(_) => Err(io::Error::from(ErrorKind::Other)),
        }
    }
}

impl<R: StandardError> fmt::Write for ErrorMessage<'_, R> {
    fn write_str(&mut self, text: &str) -> fmt::Result {
        if self.kept.try_push_str(text).is_ok() {
            return Ok(());
        }
        let sent = match self.send() {
            Ok(()) => self.error.write_all(text.as_bytes()),
            Err(error) => Err(error),
        };
        sent.map_err(|_| fmt::Error)
    }
}

/// Standard input, which is waited for.
#[derive(Drop)]
pub struct PatientInput<'a, R: StandardInput> {
    rt: &'a R,
}

impl<'a, R: StandardInput> PatientInput<'a, R> {
    /// The standard input of the machine.
    pub fn new(rt: &'a R) -> PatientInput<'a, R> {
        PatientInput { rt }
    }
}

impl<R: StandardInput> Read for PatientInput<'_, R> {
    fn read(&mut self, buf: &mut [u8]) -> io::Result<usize> {
        for _turn in 0..u64::MAX {
            let answer = self.rt.read_input(buf);
            if !is_to_wait(&answer) {
                return answer;
            }
            pause(self.rt);
        }
        Err(io::Error::from(ErrorKind::WouldBlock))
    }
}
