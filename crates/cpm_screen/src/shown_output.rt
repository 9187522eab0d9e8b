//! A writer that shows on a screen what it passes on.

ghost use Rattle.std.specs.Prelude.{◌≡◌, [], IfOk, Some};
ghost use Rattle.std.specs.Io.{WritesAtMost};
ghost use Rattle.std.specs.Io.KnownBytes.{Keeps, WriteAppends};
ghost use Rattle.cpm_screen.specs.Outputs.{IsPictureOf};

use crate::picture::ScreenForm;
use crate::shown_text::ShownText;
use crate::terminal::TerminalKind;
use std::alloc::{AllocError, Global};
use std::io;
use std::io::Write;

/// A writer that passes on what it gets, and has the screen of a terminal that shows it.
#[derive(Drop)]
pub struct ShownOutput<W: Write + Drop> {
    pub writer: W,
    pub(crate) shown: ShownText,
}

impl<W: Write + Drop> ShownOutput<W> {
    /// A writer that has got nothing. Refused if out of memory.
    pub fn new(
        alloc: Global,
        writer: W,
        terminal: TerminalKind,
    ) -> Result<ShownOutput<W>, AllocError>
        ensures { IfOk result (λ o. (o.shown.bytes ≡ []) × (o.shown.terminal ≡ terminal)) }
    {
        let shown = ShownText::new(alloc, terminal)?;
        Ok(ShownOutput { writer, shown })
    }

    /// The bytes of a file of this form that has the screen, of this terminal. Refused if out of memory, or where the terminal is another one.
    pub fn picture(
        &self,
        alloc: Global,
        terminal: TerminalKind,
        form: ScreenForm,
    ) -> Result<Vec<u8>, AllocError>
        ensures { IfOk result (λ picture. IsPictureOf form terminal (Some self.now.shown.bytes) picture.items) }
    {
        self.shown.picture(alloc, terminal, form)
    }
}

impl<W: Write + Drop> Write for ShownOutput<W> {
    ghost contents = { λ o. Some o.shown.bytes };

    fn write(&mut self, buf: &[u8]) -> io::Result<usize>
        ensures bound { WritesAtMost result buf.now }
        ensures bytes { WriteAppends (Some self.old.shown.bytes) (Some self.new.shown.bytes) result buf.now }
        ensures passed { WriteAppends (W.contents self.old.writer) (W.contents self.new.writer) result buf.now }
    {
        let count = self.writer.write(buf)?;
        self.shown.show_all(&buf[..count]);
        Ok(count)
    }

    fn flush(&mut self) -> io::Result<()>
        ensures bytes { Keeps (Some self.old.shown.bytes) (Some self.new.shown.bytes) }
        ensures passed { Keeps (W.contents self.old.writer) (W.contents self.new.writer) }
    {
        self.writer.flush()
    }
}
