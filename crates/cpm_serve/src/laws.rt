//! The laws of the wire, as contracts.
ghost use Rattle.cpm_serve.specs.Laws.{LinesAreEvents, RefusedRequests, Transcripts, TurnsAreParts, TwoTranscripts, WireAlone, WireIsolation};
ghost use Rattle.cpm_serve.specs.Compact.{CompactJournalsRemake};
ghost use Rattle.cpm_serve.specs.Generations.{GenerationsRemake};
ghost use Rattle.cpm_serve.specs.KeptFolder.{KeptLines};
ghost use Rattle.cpm_serve.specs.Laws.{WrongLines, WrongRequests};
ghost use Rattle.cpm_serve.specs.ReplyLines.{LinesIsolation, LinesOfSession};
ghost use Rattle.cpm_serve.specs.Redone.{BegunJournalsRemake, JournalsRemake};
ghost use Rattle.cpm_serve.specs.Resumed.{WireCutOff, WireResumed};

use crate::folder::Folder;
use std::io::Write;

/// A line that is no request changes nothing.
pub fn wrong_lines()
    ensures { WrongLines }
{}

/// Nor does a request that is wrong, alone or among many. It asks the folder nothing.
pub fn wrong_requests()
    ensures { WrongRequests }
{}

/// Nor does one that is refused.
pub fn refused_requests()
    ensures { RefusedRequests }
{}

/// A host is served lines as it is served their requests, however these stand in lines.
pub fn lines_are_events()
    ensures { LinesAreEvents }
{}

/// What lines leave of a host, and the texts of their replies, are those of the fold over the lines; so is what they ask of a folder.
pub fn transcripts<F: Folder>()
    ensures { Transcripts F.does }
{}

/// A turn is its parts, one after another.
pub fn turns_are_parts()
    ensures { TurnsAreParts }
{}

/// The replies to a slot's own requests are those of the session by itself, whatever else is asked on the wire.
pub fn wire_isolation()
    ensures { WireIsolation }
{}

/// Two transcripts that agree on a slot, on its own requests, on what the folder answered to them and on the system drive agree on the replies to these
/// requests.
pub fn two_transcripts()
    ensures { TwoTranscripts }
{}

/// In the lines that are written the replies to a slot's own requests are those of the session by itself.
pub fn lines_of_session<F: Folder>()
    ensures { LinesOfSession F.does }
{}

/// In those of two transcripts that agree so they are the same, byte for byte: a line whole, or a part of the reply to many.
pub fn lines_isolation<F: Folder>()
    ensures { LinesIsolation F.does }
{}

/// The replies to a session's own requests follow from its opening, these requests, what the folder answered to them, and the system drive.
pub fn wire_alone()
    ensures { WireAlone }
{}

/// What lines change stands in the journal, a line each, in order.
pub fn kept_lines<F: Folder, J: Write>()
    ensures { KeptLines F.does J.contents }
{}

/// What events change, done again, makes the host that it was kept of.
pub fn journals_remake()
    ensures { JournalsRemake }
{}

/// The first entries of a journal, done again, make the host behind the first events.
pub fn begun_journals_remake()
    ensures { BegunJournalsRemake }
{}

/// A journal that a served host has kept is done again as that host.
pub fn wire_resumed<F: Folder, J: Write>()
    ensures { WireResumed F.does J.contents }
{}

/// One that is cut off anywhere is done again as the host after all lines whose entries are whole in it, and the first of what the others ask, of which the
/// last perhaps ended early.
pub fn wire_cut_off<F: Folder, J: Write>()
    ensures { WireCutOff F.does J.contents }
{}

/// A journal of a host's savings, done again, makes the host.
pub fn compact_journals_remake()
    ensures { CompactJournalsRemake }
{}

/// Whatever a journal has been through, over any number of services, it is done again as the host after all lines that were replied to, and the first of what
/// the others asked.
pub fn generations_remake<F: Folder, J: Write>()
    ensures { GenerationsRemake F.does J.contents }
{}
