//! What standard output gets of a program's text.

use cpm_commands::LineWriter;
use std::cell::Cell;
use std::fs::OpenOptions;
use std::io::Write;
use std::os::unix::fs::{FileTypeExt, MetadataExt};
use std::rt::Files;
use std::{fs, io};

/// A writer of a program's text. Where it shows control bytes, one that could command a terminal is shown as `cat -v` shows it:
/// `^[` for ESC, `M-^[` for 9Bh.
#[derive(Drop)]
pub struct Screen<'a, W: Write + Drop> {
    writer: W,
    shows_controls: bool,
    /// Whether it has shown an ESC so.
    has_shown_escape: Option<&'a Cell<bool>>,
}

/// ESC, by which sequences begin that command a terminal.
const ESCAPE: u8 = 0x1B;

/// Whether a terminal gets a byte as it is: text, bell, backspace, tab and line ends.
fn is_plain(byte: u8) -> bool {
    match byte {
        0x07..=0x0A | 0x0D => true,
        _ => byte & 0x7F >= 0x20 && byte != 0x7F,
    }
}

impl<'a, W: Write + Drop> Screen<'a, W> {
    pub fn new(
        writer: W,
        shows_controls: bool,
        has_shown_escape: Option<&'a Cell<bool>>,
    ) -> Screen<'a, W> {
        Screen {
            writer,
            shows_controls,
            has_shown_escape,
        }
    }

    /// Writes the first bytes, as many as are plain.
    fn write_plain(&mut self, buf: &[u8]) -> io::Result<usize> {
        let plain = buf.iter().take_while(|&&byte| is_plain(byte)).count();
        let plain = plain.min(buf.len());
        self.writer.write_all(&buf[..plain])?;
        Ok(plain)
    }

    /// Shows a byte that is not plain.
    fn show(&mut self, byte: u8) -> io::Result<()> {
        if let (ESCAPE, Some(has_shown)) = (byte, self.has_shown_escape) {
            has_shown.set(true);
        }
        let letter = (byte & 0x7F) ^ 0x40;
        let shown = [b'M', b'-', b'^', letter];
        if byte < 0x80 {
            self.writer.write_all(&shown[2..])
        } else {
            self.writer.write_all(&shown)
        }
    }

    /// Writes at least one byte of some, and says how many.
    fn write_some(&mut self, buf: &[u8]) -> io::Result<usize> {
        if !self.shows_controls {
            return self.writer.write(buf);
        }
        match buf.first() {
            Some(&byte) if !is_plain(byte) => {
                self.show(byte)?;
                Ok(1)
            }
            _ => self.write_plain(buf),
        }
    }
}

impl<W: Write + Drop> Write for Screen<'_, W> {
    fn write(&mut self, buf: &[u8]) -> io::Result<usize> {
        let written = self.write_some(buf)?;
        Ok(written.min(buf.len()))
    }

    fn flush(&mut self) -> io::Result<()> {
        self.writer.flush()
    }
}

/// A writer that notes of each text whether what comes next begins a line. What else is written to the same terminal notes that too.
#[derive(Drop)]
pub struct Lines<'a, W: Write + Drop> {
    writer: W,
    is_at_line_start: &'a Cell<bool>,
}

impl<'a, W: Write + Drop> Lines<'a, W> {
    pub fn new(writer: W, is_at_line_start: &'a Cell<bool>) -> Lines<'a, W> {
        Lines {
            writer,
            is_at_line_start,
        }
    }
}

impl<W: Write + Drop> Write for Lines<'_, W> {
    fn write(&mut self, buf: &[u8]) -> io::Result<usize> {
        let written = self.writer.write(buf)?;
        let written = written.min(buf.len());
        if let Some(&last) = buf[..written].last() {
            self.is_at_line_start.set(last == b'\n');
        }
        Ok(written)
    }

    fn flush(&mut self) -> io::Result<()> {
        self.writer.flush()
    }
}

impl<W: Write + Drop> LineWriter for Lines<'_, W> {
    fn end_line(&mut self) -> io::Result<()> {
        if self.is_at_line_start.get() {
            return Ok(());
        }
        self.write_all(b"\n")
    }
}

/// The names by which a terminal is found that the program has: as a standard stream of its own, or as that of its session.
const STREAMS: [&str; 4] = ["/dev/stdin", "/dev/stdout", "/dev/stderr", "/dev/tty"];

/// The number of the terminal or other device that a path is of.
fn device_of(rt: &impl Files, path: &str) -> Option<u64> {
    match fs::metadata(rt, path) {
        Ok(found) if found.file_type().is_char_device() => Some(found.rdev()),
        _ => None,
    }
}

/// Whether the file of a name is a terminal of the program.
pub fn is_own_terminal(rt: &impl Files, name: &str) -> bool {
    match device_of(rt, name) {
        Some(device) => STREAMS
            .iter()
            .any(|stream| device_of(rt, stream) == Some(device)),
        None => false,
    }
}

/// Writes a text to the terminal of a name, with its control bytes as text.
pub fn write_shown(rt: &impl Files, name: &str, text: &[u8]) -> io::Result<()> {
    let file = OpenOptions::new().write(true).open(rt, name)?;
    Screen::new(file, true, None).write_all(text)
}
