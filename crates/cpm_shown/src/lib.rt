//! How a word and a line stand in a message of one line: a control character as `?`, and a long one with dots at its end.
#![tactic(auto)]

mod words;

pub use words::{ShownWord, shown, shown_line};
