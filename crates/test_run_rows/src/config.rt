//! The configuration of a run, whose lines are changed.

use std::alloc::{AllocError, Global};
use test_language::Word;

/// Whether a line gives this key a value.
fn has_key(line: &str, key: &str) -> bool {
    match line.split_once(" = ") {
        Some((found, _)) => found == key,
        None => false,
    }
}

/// Adds a line that gives a key the value that these words write.
fn add_value(text: &mut String, key: &str, value: &[Word<'_>]) -> Result<(), AllocError> {
    text.push_str(key)?;
    text.push_str(" = ")?;
    for word in value {
        let quote = if word.is_quoted { "\"" } else { "" };
        text.push_str(quote)?;
        text.push_str(word.text)?;
        text.push_str(quote)?;
    }
    Ok(())
}

/// A configuration whose first line with this key gives it this value; none where no line has the key.
pub(crate) fn changed(
    alloc: Global,
    config: &str,
    key: &str,
    value: &[Word<'_>],
) -> Result<Option<String>, AllocError> {
    let mut text = String::new(alloc);
    let mut is_changed = false;
    for line in config.lines() {
        if !is_changed && has_key(line, key) {
            add_value(&mut text, key, value)?;
            is_changed = true;
        } else {
            text.push_str(line)?;
        }
        text.push('\n')?;
    }
    Ok(if is_changed { Some(text) } else { None })
}
