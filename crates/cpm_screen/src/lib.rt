//! The screen of a terminal of the time, as a function of the bytes that a program shows.
#![tactic(auto)]

pub mod action;
pub mod cell;
pub mod cursor;
mod edits;
mod fitting;
pub mod history;
pub mod keys;
pub mod laws;
mod modes;
mod motions;
pub mod painted;
mod painter;
pub mod painting;
mod performing;
pub mod picture;
mod receipts;
pub mod repainter;
mod repainting;
pub mod row;
pub mod screen;
mod seeing;
pub mod shown_output;
pub mod shown_text;
pub mod terminal;
mod vt100;

pub use cell::{Attributes, CharacterSet, ScreenCell};
pub use cursor::Cursor;
pub use keys::{Arrows, KeyRead, PersonKey, first_key};
pub use laws::shown_in_parts;
pub use painted::{PaintPace, PaintedOutput};
pub use painting::paint;
pub use picture::{ScreenForm, picture_of};
pub use repainter::Repainter;
pub use row::MOST_COLUMNS;
pub use screen::{MOST_ROWS, ScreenError, TextScreen, USUAL_COLUMNS, USUAL_ROWS};
pub use shown_output::ShownOutput;
pub use shown_text::ShownText;
pub use terminal::TerminalKind;
