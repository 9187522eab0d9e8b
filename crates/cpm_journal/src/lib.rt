//! The journal of a served host: what changed it, a line each. `docs/JOURNAL.md` is the form.
#![tactic(auto)]

mod entry;
mod head;
mod laws;
mod lines;
mod writing;

pub use entry::{EntryFault, JournalEntry};
pub use head::{HeadFault, JournalHead};
pub use laws::{
    entries_come_back, heads_come_back, journals_come_back, lines_come_back,
    torn_journals_come_back,
};
pub use lines::{JournalLine, next_journal_line};
pub use writing::{append_close, append_head, append_number, append_request, append_restore};
