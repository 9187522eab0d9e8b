//! Lines of the protocol: what they ask, or the reply to a wrong one; and the texts of replies.

use crate::same::same;
use cpm_protocol::{
    DriveNames, GrantGoal, GrantStop, LineError, LineRequest, SessionLook, Tag, TurnReply, WireEnd,
    WireLine, WireRefusal, WireReply, WireRequest, bytes_of, many_value, replies_come_back,
    request_of, requests_come_back, tag_of, text_of,
};
use std::alloc::{AllocError, Global};
use std::process::Abort;

/// A reply's text, behind its tag.
fn said(alloc: Global, tag: Option<Tag<'_>>, reply: &WireReply<'_>) -> Result<String, AllocError> {
    reply.text(alloc, tag)
}

/// How many names for drives there are.
fn count(names: &DriveNames<'_>) -> usize {
    [names.a, names.b, names.c, names.d]
        .iter()
        .filter(|name| name.is_some())
        .count()
}

/// What is asked of a session: the request and its fields.
fn asked_of_slot(alloc: Global, request: WireRequest<'_>) -> Result<String, AllocError> {
    match request {
        WireRequest::Key { slot, keys } => format!(in alloc; "key {slot} {keys}"),
        WireRequest::Grant { slot, steps, goal } => match goal {
            GrantGoal::Steps => format!(in alloc; "grant {slot} {steps}"),
            GrantGoal::Address(address) => format!(in alloc;
                "grant {slot} {steps} until {address}"
            ),
            GrantGoal::Wait => format!(in alloc; "grant {slot} {steps} to a wait"),
        },
        WireRequest::Take { slot, most } => format!(in alloc; "take {slot} {most}"),
        WireRequest::List { slot, most } => format!(in alloc; "list {slot} {most}"),
        WireRequest::Look { slot } => format!(in alloc; "look {slot}"),
        WireRequest::Peek {
            slot,
            address,
            length,
        } => format!(in alloc; "peek {slot} {address} {length}"),
        WireRequest::Fork { slot } => format!(in alloc; "fork {slot}"),
        WireRequest::Save { slot, file } => format!(in alloc; "save {slot} {file}"),
        WireRequest::Close { slot, out } => {
            let names = count(&out);
            format!(in alloc; "close {slot} {names}")
        }
        WireRequest::Turn { slot, keys, steps } => format!(in alloc; "turn {slot} {keys} {steps}"),
        _ => Ok(String::new(alloc)),
    }
}

/// What is asked: the request and its fields.
fn asked(alloc: Global, request: WireRequest<'_>) -> Result<String, AllocError> {
    match request {
        WireRequest::Open { quota, drives, .. } => {
            let names = count(&drives);
            format!(in alloc; "open {quota} {names}")
        }
        WireRequest::Resume { from } => format!(in alloc; "resume {from}"),
        WireRequest::Put { drive, name, text } => format!(in alloc; "put {drive} {name} {text}"),
        WireRequest::Get { drive, name } => format!(in alloc; "get {drive} {name}"),
        WireRequest::Files { drive } => format!(in alloc; "files {drive}"),
        _ => asked_of_slot(alloc, request),
    }
}

/// What a line asks, or the reply to it where it is wrong.
fn heard(alloc: Global, text: &str) -> Result<String, AllocError> {
    let line = match WireLine::read(alloc, text.as_bytes()) {
        Ok(line) => line,
        Err(LineError::OutOfMemory) => return Err(AllocError),
        Err(LineError::NoJson { at }) => {
            return said(alloc, None, &WireReply::NoJson { at: at as u64 });
        }
    };
    let tag = tag_of(&line.value).ok().flatten();
    match line.request() {
        Ok(LineRequest::One(request)) => asked(alloc, request),
        Ok(LineRequest::Many(requests)) => {
            let length = requests.len();
            format!(in alloc; "many {length}")
        }
        Err(fault) => said(alloc, tag, &WireReply::Wrong(fault)),
    }
}

/// Fails unless a line asks this, or has this reply where it is wrong.
fn hears(rt: &impl Abort, alloc: Global, line: &str, wanted: &str) {
    let found = heard(alloc, line).expect(rt, "memory");
    same(rt, found.as_str(), wanted);
}

/// Fails unless a reply behind the tag `x` has this text.
fn says(rt: &impl Abort, alloc: Global, reply: &WireReply<'_>, wanted: &str) {
    let found = said(alloc, Some(Tag::Text("x")), reply).expect(rt, "memory");
    same(rt, found.as_str(), wanted);
}

#[test]
fn each_request_is_read(rt: HostRuntime) {
    let alloc = rt.alloc();
    hears(
        &rt,
        alloc,
        r#"{"do": "open", "cpu": "8080", "quota": 64, "drives": ["work.img", "blank"], "tag": 1}"#,
        "open 64 2",
    );
    hears(
        &rt,
        alloc,
        r#"{"do": "open", "from": "alice.saved"}"#,
        "resume alice.saved",
    );
    hears(
        &rt,
        alloc,
        r#"{"do": "key", "slot": 0, "keys": "DIR"}"#,
        "key 0 DIR",
    );
    hears(
        &rt,
        alloc,
        r#"{"do": "grant", "slot": 0, "steps": 9007199254740991}"#,
        "grant 0 9007199254740991",
    );
    hears(
        &rt,
        alloc,
        r#"{"do": "grant", "slot": 1, "steps": 5, "to": "wait"}"#,
        "grant 1 5 to a wait",
    );
    hears(
        &rt,
        alloc,
        r#"{"do": "take", "slot": 0, "most": 8192}"#,
        "take 0 8192",
    );
    hears(
        &rt,
        alloc,
        r#"{"do": "list", "slot": 0, "most": 100}"#,
        "list 0 100",
    );
    hears(&rt, alloc, r#"{"do": "look", "slot": 0}"#, "look 0");
}

#[test]
fn requests_of_slots_are_read(rt: HostRuntime) {
    let alloc = rt.alloc();
    hears(
        &rt,
        alloc,
        r#"{"do": "peek", "slot": 0, "address": 5, "length": 3}"#,
        "peek 0 5 3",
    );
    hears(&rt, alloc, r#"{"do": "fork", "slot": 0}"#, "fork 0");
    hears(
        &rt,
        alloc,
        r#"{"do": "save", "slot": 0, "file": "alice.saved"}"#,
        "save 0 alice.saved",
    );
    hears(
        &rt,
        alloc,
        r#"{"do": "close", "slot": 7, "out": ["after.img"]}"#,
        "close 7 1",
    );
    hears(
        &rt,
        alloc,
        r#"{"do": "turn", "slot": 0, "keys": "DIR", "steps": 20000}"#,
        "turn 0 DIR 20000",
    );
    hears(
        &rt,
        alloc,
        r#"{"do": "put", "drive": "work.img", "name": "HELLO.TXT", "text": "Hello"}"#,
        "put work.img HELLO.TXT Hello",
    );
    hears(
        &rt,
        alloc,
        r#"{"do": "get", "drive": "work.img", "name": "HELLO.TXT"}"#,
        "get work.img HELLO.TXT",
    );
    hears(
        &rt,
        alloc,
        r#"{"do": "files", "drive": "work.img"}"#,
        "files work.img",
    );
    hears(
        &rt,
        alloc,
        r#"{"do": "many", "requests": [{"do": "look"}, 17]}"#,
        "many 2",
    );
}

#[test]
fn each_fault_is_told(rt: HostRuntime) {
    let alloc = rt.alloc();
    hears(
        &rt,
        alloc,
        r#"{"do": "grant", "slot": 0, "stepz": 100, "tag": 5}"#,
        r#"{"error":"unknown field","field":"stepz","tag":5}"#,
    );
    hears(
        &rt,
        alloc,
        r#"{"do": "peek", "slot": 0, "address": 65536, "length": 1}"#,
        r#"{"error":"wrong field","field":"address"}"#,
    );
    hears(
        &rt,
        alloc,
        r#"17"#,
        r#"{"error":"missing field","field":"do"}"#,
    );
    hears(
        &rt,
        alloc,
        r#"{"do": "look", "slot": 9007199254740992}"#,
        r#"{"error":"wrong field","field":"slot"}"#,
    );
}

#[test]
fn wrong_texts_are_told(rt: HostRuntime) {
    let alloc = rt.alloc();
    hears(
        &rt,
        alloc,
        r#"{"do": "key", "slot": 0, "keys": "Ā"}"#,
        r#"{"error":"wrong field","field":"keys"}"#,
    );
    hears(
        &rt,
        alloc,
        r#"{"do": "look", "slot": 0, "tag": []}"#,
        r#"{"error":"wrong field","field":"tag"}"#,
    );
    hears(
        &rt,
        alloc,
        r#"{"do": "save", "slot": 0, "file": "../a"}"#,
        r#"{"error":"wrong field","field":"file"}"#,
    );
    hears(
        &rt,
        alloc,
        r#"{"do": "look", "slot": 0"#,
        r#"{"at":25,"error":"no JSON"}"#,
    );
}

#[test]
fn each_reply_is_written(rt: HostRuntime) {
    let alloc = rt.alloc();
    says(
        &rt,
        alloc,
        &WireReply::Opened { slot: 0 },
        r#"{"slot":0,"tag":"x"}"#,
    );
    says(
        &rt,
        alloc,
        &WireReply::Accepted { accepted: 4 },
        r#"{"accepted":4,"tag":"x"}"#,
    );
    says(
        &rt,
        alloc,
        &WireReply::Granted {
            executed: 12,
            why: GrantStop::Break,
        },
        r#"{"executed":12,"tag":"x","why":"Break"}"#,
    );
    says(
        &rt,
        alloc,
        &WireReply::Text {
            bytes: b"\xC3\x06\xEC",
        },
        "{\"tag\":\"x\",\"text\":\"\u{C3}\\u0006\u{EC}\"}",
    );
    says(
        &rt,
        alloc,
        &WireReply::Written { bytes: 7 },
        r#"{"bytes":7,"tag":"x"}"#,
    );
    says(
        &rt,
        alloc,
        &WireReply::Refused(WireRefusal::NoSuchSlot),
        r#"{"refused":"NoSuchSlot","tag":"x","why":"no slot of that number is open"}"#,
    );
    says(
        &rt,
        alloc,
        &WireReply::TooLong,
        r#"{"error":"line too long","tag":"x"}"#,
    );
}

#[test]
fn a_turn_is_written(rt: HostRuntime) {
    let turn = TurnReply {
        accepted: 4,
        executed: 9120,
        why: GrantStop::Waiting,
        text: b"DIR\r\n",
        list: &[],
        waiting: true,
        end: WireEnd::Running,
    };
    let alloc = rt.alloc();
    says(
        &rt,
        alloc,
        &WireReply::Turned(turn),
        "{\"accepted\":4,\"end\":\"Running\",\"executed\":9120,\"list\":\"\",\"tag\":\"x\",\"text\":\"DIR\\r\\n\",\"waiting\":true,\"why\":\"Waiting\"}",
    );
}

#[test]
fn a_look_is_written(rt: HostRuntime) {
    let look = SessionLook {
        af: 68,
        bc: 0,
        de: 0,
        hl: 0,
        ix: 0,
        iy: 0,
        sp: 256,
        pc: 58374,
        alternate_af: 0,
        alternate_bc: 0,
        alternate_de: 0,
        alternate_hl: 0,
        interrupt_page: 0,
        refresh: 0,
        iff1: false,
        iff2: false,
        count: 58131,
        end: WireEnd::Running,
        pages: 3,
        waiting: true,
        keys: 0,
        console: 0,
        list: 0,
    };
    let found = said(rt.alloc(), None, &WireReply::Looked(look)).expect(&rt, "memory");
    same(
        &rt,
        found.as_str(),
        "{\"af\":68,\"af'\":0,\"bc\":0,\"bc'\":0,\"console\":0,\"count\":58131,\"de\":0,\"de'\":0,\"end\":\"Running\",\"hl\":0,\"hl'\":0,\"i\":0,\"iff1\":false,\"iff2\":false,\"ix\":0,\"iy\":0,\"keys\":0,\"list\":0,\"pages\":3,\"pc\":58374,\"r\":0,\"sp\":256,\"waiting\":true}",
    );
}

/// The replies to many, of which one is wrong.
fn many(alloc: Global) -> Result<String, AllocError> {
    let mut replies = Vec::new(alloc);
    let accepted = WireReply::Accepted { accepted: 1 };
    replies.push(accepted.value(alloc, Some(Tag::Number(1)))?)?;
    replies.push(WireReply::Opened { slot: 3 }.value(alloc, None)?)?;
    many_value(alloc, Some(Tag::Text("both")), replies)?.to_string(alloc)
}

#[test]
fn the_replies_to_many_are_a_list(rt: HostRuntime) {
    let found = many(rt.alloc()).expect(&rt, "memory");
    same(
        &rt,
        found.as_str(),
        r#"{"replies":[{"accepted":1,"tag":1},{"slot":3}],"tag":"both"}"#,
    );
}

#[test]
fn bytes_come_back(rt: HostRuntime) {
    let text = text_of(rt.alloc(), b"\x00A\x80\xFF").expect(&rt, "memory");
    same(&rt, text.as_str(), "\0A\u{80}\u{FF}");
    let bytes = bytes_of(rt.alloc(), text.as_str()).expect(&rt, "memory");
    same(&rt, bytes.as_slice(), b"\x00A\x80\xFF");
}

#[test]
fn the_laws_are_called(_rt: HostRuntime) {
    replies_come_back();
    requests_come_back();
}
