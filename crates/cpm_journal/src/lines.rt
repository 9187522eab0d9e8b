//! Lines that are read.
ghost use Rattle.std.specs.Prelude.{◌≡◌, ℕ, IfOk, IfSome, List, Some};
ghost use Rattle.std.specs.Io.BufRead.{drop_through, take_through};
ghost use Rattle.cpm_journal.specs.Lines.{IsJournalLine};

use std::alloc::Global;
use std::io;
use std::io::BufRead;

/// What comes next in a journal.
#[derive(Drop)]
pub enum JournalLine {
    /// A line, without the line feed that ends it.
    Whole(Vec<u8>),
    /// So many bytes that no line feed ends: they are torn.
    Torn(usize),
    /// Nothing: the journal ends behind a whole line.
    End,
}

/// What bytes are that were read up to a line feed, or to the end.
fn line_of(mut line: Vec<u8>) -> JournalLine
    ensures { (text : List ℕ) → line.items ≡ take_through 0x0A text → IsJournalLine text (Some (drop_through 0x0A text)) result }
{
    match line.pop() {
        None => JournalLine::End,
        Some(b'\n') => JournalLine::Whole(line),
        Some(_) => JournalLine::Torn(line.len() + 1),
    }
}

/// Reads on to the end of a line.
pub fn next_journal_line<R: BufRead>(alloc: Global, input: &mut R) -> io::Result<JournalLine>
    ensures { IfOk result (λ line. IfSome (R.remaining input.old) (λ text. IsJournalLine text (R.remaining input.new) line)) }
{
    let mut line = Vec::new(alloc);
    input.read_until(b'\n', &mut line)?;
    Ok(line_of(line))
}
