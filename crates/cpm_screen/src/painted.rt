//! A writer of a program's text that paints its screen on a person's terminal.

ghost use Rattle.std.specs.Prelude.{◌≡◌, ◌<◌, ◌≤◌, ◌++◌, [], false, length, take, IfOk, OnOk, Some};
ghost use Rattle.std.specs.Io.{WritesAtMost};
ghost use Rattle.std.specs.Io.KnownBytes.{Appends, Keeps, WriteAppends};
ghost use Rattle.cpm_screen.specs.Outputs.{IsPictureOf};
ghost use Rattle.cpm_screen.specs.Painted.{end_bytes};

use crate::history::{ByteHistory, NextBytes};
use crate::painter::write_move;
use crate::picture::ScreenForm;
use crate::repainter::Repainter;
use crate::screen::{USUAL_COLUMNS, USUAL_ROWS};
use crate::shown_text::ShownText;
use crate::terminal::TerminalKind;
use std::alloc::{AllocError, Global};
use std::io;
use std::io::{ErrorKind, Write};

/// When a screen is painted that changes.
pub trait PaintPace {
    /// Whether it is painted now.
    fn is_due(&mut self) -> bool;
}

/// A writer of a program's text. No byte of that reaches the terminal: it shows the text on a screen, and paints what differs of this.
#[derive(Drop)]
pub struct PaintedOutput<W: Write + Drop, P: PaintPace + Drop> {
    alloc: Global,
    writer: W,
    pace: P,
    shown: ShownText,
    painter: Repainter,
    /// All that the terminal has got.
    sent: ByteHistory,
    /// Whether the screen has changed since it was painted.
    is_new: bool,
    /// Whether the terminal has got only a part of some bytes, so that nobody knows what it shows. Nothing is painted then.
    is_lost: bool,
    ghost rows: { painter.rows ≤ 24 },
    ghost part: { sent.bytes ≡ take (length sent.bytes) painter.given },
    ghost whole: { is_lost ≡ false → sent.bytes ≡ painter.given },
}

/// Writes bytes, as far as they can be written, and says how many were.
fn send<W: Write>(writer: &mut W, bytes: &[u8]) -> (usize, io::Result<()>)
    ensures within { result.0 ≤ length bytes.now }
    ensures all { OnOk result.1 (result.0 ≡ length bytes.now) }
    ensures bytes { Appends (W.contents writer.old) (W.contents writer.new) (take result.0 bytes.now) }
{
    let mut sent = 0;
    while sent < bytes.len() {
        match writer.write(&bytes[sent..]) {
            Ok(0) => return (sent, Err(io::Error::from(ErrorKind::WriteZero))),
            Ok(count) => sent += count,
            Err(error) => return (sent, Err(error)),
        }
    }
    (sent, Ok(()))
}

/// Leaves the cursor below so many rows.
fn leave<W: Write>(alloc: Global, writer: &mut W, rows: usize) -> io::Result<()>
    requires some { 0 < rows }
    requires few { rows ≤ 60 }
    ensures { OnOk result (Appends (W.contents writer.old) (W.contents writer.new) (end_bytes rows)) }
{
    let mut end = Vec::new(alloc);
    write_move(&mut end, rows - 1, 0)?;
    end.extend_from_slice(b"\r\n")?;
    writer.write_all(&end)?;
    writer.flush()
}

impl<W: Write + Drop, P: PaintPace + Drop> PaintedOutput<W, P> {
    ghost use Rattle.cpm_screen.specs.PaintedOutputs.{HasSent, IsFinished, IsPainted};

    /// A writer that has got nothing, to a terminal of so many rows and columns, of which as many are painted as the screen has. Refused if out of memory.
    pub fn new(
        alloc: Global,
        writer: W,
        pace: P,
        terminal: TerminalKind,
        rows: usize,
        columns: usize,
    ) -> Result<PaintedOutput<W, P>, AllocError>
        ensures { IfOk result (λ o. (o.shown.bytes ≡ []) × (o.shown.terminal ≡ terminal) × (o.sent.bytes ≡ []) × (o.writer ≡ writer)) }
    {
        let shown = ShownText::new(alloc, terminal)?;
        let rows = rows.min(USUAL_ROWS);
        let painter = Repainter::new(alloc, rows, columns.min(USUAL_COLUMNS))?;
        Ok(PaintedOutput {
            alloc,
            writer,
            pace,
            shown,
            painter,
            sent: ByteHistory::new(),
            is_new: true,
            is_lost: false,
        })
    }

    /// The bytes of a file of this form that has the screen, of this terminal. Refused if out of memory, or where the terminal is another one.
    pub fn picture(
        &self,
        alloc: Global,
        terminal: TerminalKind,
        form: ScreenForm,
    ) -> Result<Vec<u8>, AllocError>
        ensures { IfOk result (λ picture. IsPictureOf form terminal (Some self.now.shown.bytes) picture.items) }
    {
        self.shown.picture(alloc, terminal, form)
    }

    /// Paints the screen.
    fn paint(&mut self) -> io::Result<()>
        ensures text { self.new.shown ≡ self.old.shown }
        ensures sent { HasSent W.contents self.old.sent.bytes self.new.sent.bytes self.old.writer self.new.writer }
        ensures size { (self.new.painter.rows ≡ self.old.painter.rows) × (self.new.painter.columns ≡ self.old.painter.columns) }
        ensures painted { OnOk result (IsPainted self.new.sent.bytes self.new.painter self.new.shown) }
    {
        if self.is_lost {
            return Err(io::Error::from(ErrorKind::BrokenPipe));
        }
        let bytes = self.painter.repaint(self.alloc, self.shown.screen())?;
        let (count, result) = send(&mut self.writer, &bytes);
        self.sent = self.sent.then(&NextBytes {
            bytes: &bytes[..count],
        });
        self.is_lost = result.is_err();
        self.is_new = self.is_lost;
        result
    }

    /// Paints the screen as it is at last, and leaves the cursor below it.
    pub fn finish(mut self) -> io::Result<W>
        ensures { IfOk result (λ w. IsFinished W.contents self.sent.bytes self.painter self.shown self.writer w) }
    {
        self.paint()?;
        let rows = self.painter.rows();
        let PaintedOutput {
            alloc,
            mut writer,
            ..
        } = self;
        leave(alloc, &mut writer, rows)?;
        Ok(writer)
    }
}

impl<W: Write + Drop, P: PaintPace + Drop> Write for PaintedOutput<W, P> {
    ghost use Rattle.cpm_screen.specs.PaintedOutputs.{HasSent};

    ghost contents = { λ o. Some o.shown.bytes };

    /// Shows a program's bytes. Nothing is painted before the next `flush`.
    fn write(&mut self, buf: &[u8]) -> io::Result<usize>
        ensures bound { WritesAtMost result buf.now }
        ensures bytes { WriteAppends (Some self.old.shown.bytes) (Some self.new.shown.bytes) result buf.now }
        ensures apart { (self.new.writer ≡ self.old.writer) × (self.new.sent ≡ self.old.sent) }
    {
        self.shown.show_all(buf);
        self.is_new = true;
        Ok(buf.len())
    }

    /// Paints the screen, where it has changed and that is due.
    fn flush(&mut self) -> io::Result<()>
        ensures bytes { Keeps (Some self.old.shown.bytes) (Some self.new.shown.bytes) }
        ensures sent { HasSent W.contents self.old.sent.bytes self.new.sent.bytes self.old.writer self.new.writer }
    {
        if !self.is_new || !self.pace.is_due() {
            return Ok(());
        }
        self.paint()?;
        self.writer.flush()
    }
}
