//! A terminal on which a screen is painted as it changes.

ghost use Rattle.std.specs.Prelude.{◌≡◌, ◌<◌, ◌≤◌, ◌++◌, [], List, ℕ, IfErr, IfOk, length};
ghost use Rattle.cpm_screen.specs.Painted.{IsSafe, fitted};
ghost use Rattle.cpm_screen.specs.Pictures.{PaintsAnew};

use crate::history::{ByteHistory, NextBytes};
use crate::painting::paint;
use crate::repainting::wiped;
use crate::screen::TextScreen;
use crate::terminal::TerminalKind;
use std::alloc::{AllocError, Global};
use std::marker::Model;

/// What a terminal shows after the bytes that it has got, and the next screen for it.
#[derive(Drop)]
pub struct Repainter {
    shown: TextScreen,
    next: TextScreen,
    is_begun: bool,
    given: ByteHistory,
}

impl Model for Repainter {
    ghost use Rattle.cpm_screen.specs.Painted.{PainterState};
    ghost use Rattle.cpm_screen.specs.Repainted.{IsRepainter, painter_state_of};

    ghost Value = { PainterState };

    ghost view = { painter_state_of };

    ghost invariant = { IsRepainter };
}

impl Repainter {
    /// A terminal of so many rows and columns, which has got nothing. Refused if out of memory, or if no screen has this size.
    pub fn new(alloc: Global, rows: usize, columns: usize) -> Result<Repainter, AllocError>
        ensures { IfOk result (λ p. (p.rows ≡ rows) × (p.columns ≡ columns) × (p.given ≡ [])) }
    {
        let Ok(shown) = TextScreen::new(alloc, TerminalKind::Vt100, rows, columns) else {
            return Err(AllocError);
        };
        let next = shown.copy(alloc)?;
        Ok(Repainter {
            shown,
            next,
            is_begun: false,
            given: ByteHistory::new(),
        })
    }

    /// How many rows the terminal has.
    pub fn rows(&self) -> usize
        ensures value { result ≡ self.now.rows }
        ensures some { 0 < result }
        ensures few { result ≤ 60 }
    {
        self.shown.rows()
    }

    /// The bytes behind which the terminal shows what was painted last: at first those that make it blank.
    fn begin(&self, alloc: Global) -> Result<Vec<u8>, AllocError>
        ensures { IfOk result (λ bytes. PaintsAnew (self.now.given ++ bytes.items) self.now.rows self.now.columns self.now.shown) }
    {
        if self.is_begun {
            Ok(Vec::new(alloc))
        } else {
            wiped(alloc, self.shown.rows())
        }
    }

    /// The bytes that show what the terminal doesn't show of a screen yet: at first all, whatever it shows. Refused if out of memory; then nothing is
    /// different.
    pub fn repaint(&mut self, alloc: Global, screen: &TextScreen) -> Result<Vec<u8>, AllocError>
        requires { self.old.rows ≤ length screen.now.lines }
        ensures size { (self.new.rows ≡ self.old.rows) × (self.new.columns ≡ self.old.columns) }
        ensures given { IfOk result (λ bytes. self.new.given ≡ self.old.given ++ bytes.items) }
        ensures shown { IfOk result (λ _. PaintsAnew self.new.given self.old.rows self.old.columns (fitted self.old.rows self.old.columns screen.now)) }
        ensures refused { IfErr result (λ _. self.new ≡ self.old) }
    {
        self.next.fit(screen);
        let mut bytes = self.begin(alloc)?;
        paint(alloc, &self.shown, &self.next, &mut bytes)?;
        self.given = self.given.then(&NextBytes { bytes: &bytes });
        self.shown.copy_from(&self.next);
        self.is_begun = true;
        Ok(bytes)
    }
}
