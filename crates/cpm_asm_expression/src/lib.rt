//! Words, numbers and expressions of 8080 assembly language, and their values.
#![tactic(auto)]

pub mod laws;
mod letters;
mod lexer;
mod names;
mod numbers;
mod quotes;
mod reader;
mod tokens;
mod values;
mod words;

pub use letters::{LONGEST_NAME, Letters, after_blanks, begins_name, letters_of, split_word};
pub use names::{Name, Names, name_of};
pub use quotes::{LONGEST_TEXT, quoted_text};
pub use reader::value_of;
pub use tokens::{Atom, Operator, Prefix, Token};
pub use values::CheckedValue;
pub use words::{ByteForm, Keyword, Operation, Register, WordForm, keyword_of};
