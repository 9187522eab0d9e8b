//! Laws on the definitions that the calls of this crate cite.
ghost use Rattle.cpm_protocol.specs.Asking.{RequestsBack};
ghost use Rattle.cpm_protocol.specs.Flat.{RepliesAreFlat};
ghost use Rattle.cpm_protocol.specs.Replies.{RepliesBack};

/// The value of a reply is the value of no other, and the reply is read of it.
pub fn replies_come_back()
    ensures { RepliesBack }
{}

/// A request of which each field is within its bounds is read of its value, with its tag.
pub fn requests_come_back()
    ensures { RequestsBack }
{}

/// A reply's value has no float and nests nothing, so its text is its compact text and reads back, also among many.
pub fn replies_are_flat()
    ensures { RepliesAreFlat }
{}
