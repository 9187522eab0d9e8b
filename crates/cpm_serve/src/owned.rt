//! Replies that own their bytes.
ghost use Rattle.std.specs.Prelude.{◌≡◌, IfOk, option_map};
ghost use Rattle.serde_json.specs.View.{view};
ghost use Rattle.cpm_protocol.specs.Replies.{Refused, reply_json};
ghost use Rattle.cpm_protocol.specs.Requests.{tag_of_code};
ghost use Rattle.cpm_serve.specs.Owned.{owned_answer};

use cpm_protocol::{GrantStop, Tag, TurnReply, WireEnd, WireRefusal, WireReply};
use serde_json::Value;
use std::alloc::{AllocError, Global};

/// What became of a turn.
#[derive(Drop)]
pub(crate) struct OwnedTurn {
    pub(crate) accepted: u64,
    pub(crate) executed: u64,
    pub(crate) why: GrantStop,
    pub(crate) text: Vec<u8>,
    pub(crate) list: Vec<u8>,
    pub(crate) waiting: bool,
    pub(crate) end: WireEnd,
}

/// A reply that owns its bytes.
#[derive(Drop)]
pub(crate) enum OwnedReply {
    /// A reply without bytes.
    Plain(WireReply<'static>),
    /// Bytes of a console, a list or a memory.
    Bytes(Vec<u8>),
    Turned(OwnedTurn),
}

/// A refusal.
pub(crate) fn refused(refusal: WireRefusal) -> OwnedReply
    ensures { owned_answer result ≡ Refused refusal }
{
    OwnedReply::Plain(WireReply::Refused(refusal))
}

impl OwnedReply {
    /// The reply as a JSON value, with the tag of its request.
    pub(crate) fn value(&self, alloc: Global, tag: Option<Tag<'_>>) -> Result<Value, AllocError>
        ensures { IfOk result (λ v. view v ≡ reply_json (option_map tag_of_code tag.entry) (owned_answer self.now)) }
    {
        match self {
            OwnedReply::Plain(reply) => reply.value(alloc, tag),
            OwnedReply::Bytes(bytes) => WireReply::Text { bytes }.value(alloc, tag),
            OwnedReply::Turned(turn) => WireReply::Turned(TurnReply {
                accepted: turn.accepted,
                executed: turn.executed,
                why: turn.why,
                text: &turn.text,
                list: &turn.list,
                waiting: turn.waiting,
                end: turn.end,
            })
            .value(alloc, tag),
        }
    }
}
