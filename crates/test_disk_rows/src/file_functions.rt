//! The functions on files, as rows name them.

use cpm_drives::FileFunction;

/// The functions by their words.
const FUNCTIONS: [(&str, FileFunction); 15] = [
    ("open", FileFunction::OpenFile),
    ("close", FileFunction::CloseFile),
    ("search-first", FileFunction::SearchFirst),
    ("search-next", FileFunction::SearchNext),
    ("erase", FileFunction::EraseFiles),
    ("read", FileFunction::ReadNext),
    ("write", FileFunction::WriteNext),
    ("make", FileFunction::MakeFile),
    ("rename", FileFunction::RenameFiles),
    ("set-attributes", FileFunction::SetAttributes),
    ("read-random", FileFunction::ReadRandom),
    ("write-random", FileFunction::WriteRandom),
    ("size", FileFunction::ComputeSize),
    ("set-random", FileFunction::SetRandomRecord),
    ("write-cleared", FileFunction::WriteRandomCleared),
];

/// The function of a word.
pub(crate) fn function_of(word: &str) -> Option<FileFunction> {
    for (name, function) in &FUNCTIONS {
        if *name == word {
            return Some(*function);
        }
    }
    None
}
