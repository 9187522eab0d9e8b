//! A screen with all that was shown on it, as contracts see it.

ghost use Rattle.std.specs.Prelude.{◌≡◌, ◌++◌, [], IfOk, Some, length};
ghost use Rattle.cpm_screen.specs.Outputs.{IsPictureOf, screen_after};

use crate::history::{ByteHistory, NextBytes};
use crate::picture::{ScreenForm, picture_of};
use crate::screen::{TextScreen, USUAL_COLUMNS, USUAL_ROWS};
use crate::terminal::TerminalKind;
use std::alloc::{AllocError, Global};
use std::marker::Model;

/// The screen of a terminal of 24 rows and 80 columns, after all the bytes that were shown on it.
#[derive(Drop)]
pub struct ShownText {
    terminal: TerminalKind,
    screen: TextScreen,
    text: ByteHistory,
}

impl Model for ShownText {
    ghost use Rattle.std.specs.Prelude.{◌≡◌, length};
    ghost use Rattle.cpm_screen.specs.Outputs.{ShownBytes, shown_bytes, screen_after};

    ghost Value = { ShownBytes };

    ghost view = { λ a. shown_bytes a.terminal a.text.bytes };

    ghost invariant = { λ a. (a.screen ≡ screen_after a.terminal a.text.bytes) × (length a.screen.lines ≡ 24) };
}

impl ShownText {
    /// A screen on which nothing was shown. All the memory that it ever takes is taken here.
    pub fn new(alloc: Global, terminal: TerminalKind) -> Result<ShownText, AllocError>
        ensures { IfOk result (λ shown. (shown.terminal ≡ terminal) × (shown.bytes ≡ [])) }
    {
        match TextScreen::new(alloc, terminal, USUAL_ROWS, USUAL_COLUMNS) {
            Ok(screen) => Ok(ShownText {
                terminal,
                screen,
                text: ByteHistory::new(),
            }),
            Err(_) => Err(AllocError),
        }
    }

    /// Shows bytes, one after the other.
    pub fn show_all(&mut self, bytes: &[u8])
        ensures terminal { self.new.terminal ≡ self.old.terminal }
        ensures bytes { self.new.bytes ≡ self.old.bytes ++ bytes.now }
    {
        self.screen.show_all(bytes);
        self.text = self.text.then(&NextBytes { bytes });
    }

    /// The bytes of a file of this form that has the screen, of this terminal. Refused if out of memory, or where the terminal is another one.
    pub fn picture(
        &self,
        alloc: Global,
        terminal: TerminalKind,
        form: ScreenForm,
    ) -> Result<Vec<u8>, AllocError>
        ensures { IfOk result (λ picture. IsPictureOf form terminal (Some self.now.bytes) picture.items) }
    {
        if self.terminal != terminal {
            return Err(AllocError);
        }
        picture_of(alloc, form, &self.screen)
    }

    /// The screen.
    pub fn screen(&self) -> &TextScreen
        ensures screen { result.now ≡ screen_after self.now.terminal self.now.bytes }
        ensures rows { length result.now.lines ≡ 24 }
    {
        &self.screen
    }
}
