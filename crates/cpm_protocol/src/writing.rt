//! A reply as a JSON value, and as text.
ghost use Rattle.std.specs.Prelude.{◌≡◌, [], IfOk, OnOk, Some, map, option_and_then, option_map, string_bytes};
ghost use Rattle.serde_json.specs.Data.{boolean, object, string};
ghost use Rattle.serde_json.specs.Read.{read};
ghost use Rattle.serde_json.specs.View.{items_view, members_view, view};
ghost use Rattle.serde_json.specs.Written.{compact_text};
ghost use Rattle.cpm_protocol.specs.Leaves.{member_seen, leaf_data};
ghost use Rattle.cpm_protocol.specs.Replies.{AreBytesIn, Looked, Turned, Wrong, answered_of, bytes_data, many_json, number_data, put_all, reply_json};
ghost use Rattle.cpm_protocol.specs.Replies.{reply_seen, tag_members, turn_seen};
ghost use Rattle.cpm_protocol.specs.Requests.{fault_seen, tag_of_code};

use crate::bytes::text_of;
use crate::fault::{FieldFault, RequestFault};
use crate::reply::{SessionLook, TurnReply, WireReply};
use crate::request::Tag;
use serde_json::{Map, Value};
use std::alloc::{AllocError, Global};

/// The value of a member.
#[derive(Clone, Copy, Drop)]
pub(crate) enum Leaf<'a> {
    Number(u64),
    Truth(bool),
    Text(&'a str),
    Bytes(&'a [u8]),
}

/// A member of a reply.
#[derive(Clone, Copy, Drop)]
pub(crate) struct ReplyMember<'a> {
    pub(crate) name: &'a str,
    pub(crate) leaf: Leaf<'a>,
}

fn value_of(alloc: Global, leaf: Leaf<'_>) -> Result<Value, AllocError>
    ensures { IfOk result (λ v. view v ≡ leaf_data leaf.entry) }
{
    match leaf {
        Leaf::Number(number) => Ok(Value::from(number)),
        Leaf::Truth(truth) => Ok(Value::Bool(truth)),
        Leaf::Text(text) => Value::try_from_str(alloc, text),
        Leaf::Bytes(bytes) => Ok(Value::String(text_of(alloc, bytes)?)),
    }
}

/// Puts members into an object.
fn put_entries(
    alloc: Global,
    members: &mut Map<String, Value>,
    entries: &[ReplyMember<'_>],
) -> Result<(), AllocError>
    ensures { OnOk result (members_view members.new.entries ≡ put_all (map member_seen entries.now) (members_view members.old.entries)) }
{
    for entry in entries {
        let value = value_of(alloc, entry.leaf)?;
        serde_json::put(members, alloc, entry.name, value)?;
    }
    Ok(())
}

/// The member for a tag.
fn put_tag(
    alloc: Global,
    members: &mut Map<String, Value>,
    tag: Option<Tag<'_>>,
) -> Result<(), AllocError>
    requires { members.old.entries ≡ [] }
    ensures { OnOk result (members_view members.new.entries ≡ tag_members (option_map tag_of_code tag.entry)) }
{
    match tag {
        Some(Tag::Number(number)) => serde_json::put(members, alloc, "tag", Value::from(number)),
        Some(Tag::Text(text)) => {
            let value = Value::try_from_str(alloc, text)?;
            serde_json::put(members, alloc, "tag", value)
        }
        None => Ok(()),
    }
}

/// An object of members behind a tag.
fn object_of(
    alloc: Global,
    tag: Option<Tag<'_>>,
    entries: &[ReplyMember<'_>],
) -> Result<Value, AllocError>
    ensures { IfOk result (λ v. view v ≡ object (put_all (map member_seen entries.now) (tag_members (option_map tag_of_code tag.entry)))) }
{
    let mut members = Map::new(alloc);
    put_tag(alloc, &mut members, tag)?;
    put_entries(alloc, &mut members, entries)?;
    Ok(Value::Object(members))
}

fn number<'a>(name: &'a str, number: u64) -> ReplyMember<'a>
    ensures { member_seen result ≡ (name.now, number_data number) }
{
    ReplyMember {
        name,
        leaf: Leaf::Number(number),
    }
}

fn text<'a>(name: &'a str, text: &'a str) -> ReplyMember<'a>
    ensures { member_seen result ≡ (name.now, string text.now) }
{
    ReplyMember {
        name,
        leaf: Leaf::Text(text),
    }
}

fn truth<'a>(name: &'a str, truth: bool) -> ReplyMember<'a>
    ensures { member_seen result ≡ (name.now, boolean truth) }
{
    ReplyMember {
        name,
        leaf: Leaf::Truth(truth),
    }
}

fn bytes<'a>(name: &'a str, bytes: &'a [u8]) -> ReplyMember<'a>
    ensures { member_seen result ≡ (name.now, bytes_data bytes.now) }
{
    ReplyMember {
        name,
        leaf: Leaf::Bytes(bytes),
    }
}

/// What is seen of a session, as a value.
fn look_value(alloc: Global, tag: Option<Tag<'_>>, look: &SessionLook) -> Result<Value, AllocError>
    ensures { IfOk result (λ v. view v ≡ reply_json (option_map tag_of_code tag.entry) (Looked look.now)) }
{
    let entries = [
        number("af", look.af as u64),
        number("bc", look.bc as u64),
        number("de", look.de as u64),
        number("hl", look.hl as u64),
        number("ix", look.ix as u64),
        number("iy", look.iy as u64),
        number("sp", look.sp as u64),
        number("pc", look.pc as u64),
        number("af'", look.alternate_af as u64),
        number("bc'", look.alternate_bc as u64),
        number("de'", look.alternate_de as u64),
        number("hl'", look.alternate_hl as u64),
        number("i", look.interrupt_page as u64),
        number("r", look.refresh as u64),
        truth("iff1", look.iff1),
        truth("iff2", look.iff2),
        number("count", look.count),
        text("end", look.end.word()),
        number("pages", look.pages as u64),
        truth("waiting", look.waiting),
        number("keys", look.keys),
        number("console", look.console),
        number("list", look.list),
    ];
    object_of(alloc, tag, &entries)
}

/// What became of a turn, as a value.
fn turn_value(
    alloc: Global,
    tag: Option<Tag<'_>>,
    turn: &TurnReply<'_>,
) -> Result<Value, AllocError>
    ensures { IfOk result (λ v. view v ≡ reply_json (option_map tag_of_code tag.entry) (Turned (turn_seen turn.now))) }
{
    let entries = [
        number("accepted", turn.accepted),
        number("executed", turn.executed),
        text("why", turn.why.word()),
        bytes("text", turn.text),
        bytes("list", turn.list),
        truth("waiting", turn.waiting),
        text("end", turn.end.word()),
    ];
    object_of(alloc, tag, &entries)
}

/// Why a value is no request, as a value.
fn fault_value(
    alloc: Global,
    tag: Option<Tag<'_>>,
    fault: RequestFault<'_>,
) -> Result<Value, AllocError>
    ensures { IfOk result (λ v. view v ≡ reply_json (option_map tag_of_code tag.entry) (Wrong (fault_seen fault.entry))) }
{
    let (error, name) = match fault {
        RequestFault::Field(FieldFault::Missing(field)) => ("missing field", field.name()),
        RequestFault::Field(FieldFault::Wrong(field)) => ("wrong field", field.name()),
        RequestFault::Unknown(name) => ("unknown field", name),
    };
    object_of(alloc, tag, &[text("error", error), text("field", name)])
}

impl WireReply<'_> {
    /// The reply as a JSON value, with the tag of its request.
    pub fn value(&self, alloc: Global, tag: Option<Tag<'_>>) -> Result<Value, AllocError>
        ensures { IfOk result (λ v. view v ≡ reply_json (option_map tag_of_code tag.entry) (reply_seen self.now)) }
    {
        match *self {
            WireReply::Opened { slot } => object_of(alloc, tag, &[number("slot", slot)]),
            WireReply::Accepted { accepted } => {
                object_of(alloc, tag, &[number("accepted", accepted)])
            }
            WireReply::Granted { executed, why } => object_of(
                alloc,
                tag,
                &[number("executed", executed), text("why", why.word())],
            ),
            WireReply::Text { bytes: given } => object_of(alloc, tag, &[bytes("text", given)]),
            WireReply::Looked(look) => look_value(alloc, tag, &look),
            WireReply::Written { bytes } => object_of(alloc, tag, &[number("bytes", bytes)]),
            WireReply::Turned(turn) => turn_value(alloc, tag, &turn),
            WireReply::Refused(refusal) => object_of(
                alloc,
                tag,
                &[text("refused", refusal.word()), text("why", refusal.why())],
            ),
            WireReply::Wrong(fault) => fault_value(alloc, tag, fault),
            WireReply::NoJson { at } => {
                object_of(alloc, tag, &[text("error", "no JSON"), number("at", at)])
            }
            WireReply::TooLong => object_of(alloc, tag, &[text("error", "line too long")]),
        }
    }

    /// The reply as the text of a line, without the byte that ends the line. What is read of it is the reply.
    pub fn text(&self, alloc: Global, tag: Option<Tag<'_>>) -> Result<String, AllocError>
        ensures text { IfOk result (λ t. string_bytes t ≡ compact_text (reply_json (option_map tag_of_code tag.entry) (reply_seen self.now))) }
        ensures back { AreBytesIn (reply_seen self.now) → IfOk result (λ t. option_and_then answered_of (read (string_bytes t)) ≡ Some (reply_seen self.now)) }
    {
        self.value(alloc, tag)?.to_string(alloc)
    }
}

/// The replies to many requests, as one value.
pub fn many_value(
    alloc: Global,
    tag: Option<Tag<'_>>,
    replies: Vec<Value>,
) -> Result<Value, AllocError>
    ensures { IfOk result (λ v. view v ≡ many_json (option_map tag_of_code tag.entry) (items_view replies.items)) }
{
    let mut members = Map::new(alloc);
    put_tag(alloc, &mut members, tag)?;
    serde_json::put(&mut members, alloc, "replies", Value::Array(replies))?;
    Ok(Value::Object(members))
}
