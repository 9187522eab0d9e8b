//! A screen that is painted over whatever an ANSI terminal shows.

ghost use Rattle.std.specs.Prelude.{◌≡◌, ◌<◌, ◌≤◌, ℕ, IfOk, length};
ghost use Rattle.cpm_screen.specs.Painting.{seen_screen};
ghost use Rattle.cpm_screen.specs.Pictures.{IsWiping, PaintsAnew};

use crate::cell::PLAIN;
use crate::painter::{write_look, write_move};
use crate::painting::paint;
use crate::screen::TextScreen;
use crate::terminal::TerminalKind;
use std::alloc::{AllocError, Global};

/// The bytes that erase so many rows of a terminal, and leave its cursor at their begin.
pub(crate) fn wiped(alloc: Global, rows: usize) -> Result<Vec<u8>, AllocError>
    requires some { 0 < rows }
    requires few { rows ≤ 60 }
    ensures { IfOk result (λ bytes. IsWiping bytes.items rows) }
{
    let mut bytes = Vec::new(alloc);
    write_look(&mut bytes, PLAIN)?;
    for row in 0..rows {
        write_move(&mut bytes, row, 0)?;
        bytes.extend_from_slice(&[0x1B, b'[', b'K'])?;
    }
    write_move(&mut bytes, 0, 0)?;
    Ok(bytes)
}

/// The bytes that show a screen on a terminal of its size or a larger one, whatever that shows.
pub(crate) fn paint_anew(alloc: Global, screen: &TextScreen) -> Result<Vec<u8>, AllocError>
    ensures { IfOk result (λ bytes. PaintsAnew bytes.items (length screen.now.lines) screen.now.columns (seen_screen screen.now)) }
{
    let Ok(blank) = TextScreen::new(alloc, TerminalKind::Vt100, screen.rows(), screen.columns())
    else {
        return Err(AllocError);
    };
    let mut bytes = wiped(alloc, screen.rows())?;
    paint(alloc, &blank, screen, &mut bytes)?;
    Ok(bytes)
}
