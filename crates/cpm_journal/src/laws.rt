//! The laws of journals, as contracts.
ghost use Rattle.cpm_journal.specs.Laws.{EntriesBack, EntryLinesBack, HeadsBack, JournalsBack, TornJournalsBack};

/// An entry is read of its value.
pub fn entries_come_back()
    ensures { EntriesBack }
{}

/// An entry is read of its line.
pub fn lines_come_back()
    ensures { EntryLinesBack }
{}

/// A head is that of its host.
pub fn heads_come_back()
    ensures { HeadsBack }
{}

/// What is written of entries reads as these entries.
pub fn journals_come_back()
    ensures { JournalsBack }
{}

/// What is cut off anywhere reads as the first of them: all whose lines are whole.
pub fn torn_journals_come_back()
    ensures { TornJournalsBack }
{}
