//! Lines of a journal that are written and read.

use crate::same::{same, same_at};
use cpm_journal::{
    EntryFault, HeadFault, JournalEntry, JournalHead, JournalLine, append_close, append_head,
    append_number, append_request, append_restore, next_journal_line,
};
use serde_json::Value;

/// A head of a host with 128 frames.
const HEAD: JournalHead = JournalHead {
    frames: 128,
    system: [0xA5; 32],
};

#[test]
fn lines_of_a_journal_are_written(rt: HostRuntime) {
    let alloc = rt.alloc();
    let mut out = Vec::new(alloc);
    let request = Value::from_str(
        alloc,
        "{\"tag\": \"a\\nb\", \"do\": \"fork\",\r\n \"slot\": 1}",
    );
    match request {
        Ok(request) => append_request(&mut out, alloc, &request).expect(&rt, "memory"),
        Err(_) => panic!(rt; "no JSON"),
    }
    append_restore(&mut out, alloc, &[0, 0x7F, 0xFF]).expect(&rt, "memory");
    append_number(&mut out, alloc, u64::MAX).expect(&rt, "memory");
    append_close(&mut out, alloc, 3).expect(&rt, "memory");
    same(
        &rt,
        out.as_slice(),
        b"{\"do\":\"fork\",\"slot\":1,\"tag\":\"a\\nb\"}\n{\"restore\":\"007fff\"}\n{\"number\":18446744073709551615}\n{\"do\":\"close\",\"slot\":3}\n",
    );
}

#[test]
fn a_head_is_that_of_its_host(rt: HostRuntime) {
    let alloc = rt.alloc();
    let mut out = Vec::new(alloc);
    append_head(&mut out, alloc, &HEAD).expect(&rt, "memory");
    out.pop();
    same(
        &rt,
        out.as_slice()
            .starts_with(b"{\"frames\":128,\"journal\":1,\"system\":\"a5a5"),
        true,
    );
    same(&rt, HEAD.check(alloc, &out), Ok(()));
    let mut other = HEAD;
    other.frames = 127;
    same(&rt, other.check(alloc, &out), Err(HeadFault::OtherFrames));
    other.system[31] = 0xA4;
    same(&rt, other.check(alloc, &out), Err(HeadFault::OtherSystem));
    for (line, fault) in [
        ("{\"journal\":2}", HeadFault::OtherVersion),
        ("{\"journal\":1}", HeadFault::NoJournal),
        ("{\"journal\":-1}", HeadFault::NoJournal),
        ("{\"journal\":1", HeadFault::NoJournal),
        ("", HeadFault::NoJournal),
    ] {
        same_at(&rt, line, HEAD.check(alloc, line.as_bytes()), Err(fault));
    }
}

#[test]
fn lines_of_a_journal_are_read(rt: HostRuntime) {
    let alloc = rt.alloc();
    match JournalEntry::read(alloc, b"{\"restore\":\"00Ff\"}") {
        Ok(JournalEntry::Restore(bytes)) => same(&rt, bytes.as_slice(), &[0, 0xFF]),
        _ => panic!(rt; "no saving"),
    }
    match JournalEntry::read(alloc, b"{\"number\":7}") {
        Ok(JournalEntry::Number(next)) => same(&rt, next, 7),
        _ => panic!(rt; "no number"),
    }
    match JournalEntry::read(alloc, b"{\"do\":\"look\"}") {
        Ok(JournalEntry::Request(_)) => {}
        _ => panic!(rt; "no request"),
    }
    for (line, wanted) in [
        ("{}", EntryFault::NoEntry),
        ("[]", EntryFault::NoEntry),
        ("{\"restore\":\"0\"}", EntryFault::NoEntry),
        ("{\"restore\":\"0g\"}", EntryFault::NoEntry),
        ("{\"number\":1.0}", EntryFault::NoEntry),
        ("{\"number\":1,\"restore\":\"\"}", EntryFault::NoEntry),
        ("{\"number\":", EntryFault::NoJson { at: 11 }),
    ] {
        match JournalEntry::read(alloc, line.as_bytes()) {
            Ok(_) => panic!(rt; "an entry"),
            Err(fault) => same_at(&rt, line, fault, wanted),
        }
    }
}

#[test]
fn a_journal_ends_behind_a_line_or_is_torn(rt: HostRuntime) {
    let alloc = rt.alloc();
    let mut input: &[u8] = b"ab\n\nc";
    match next_journal_line(alloc, &mut input) {
        Ok(JournalLine::Whole(line)) => same(&rt, line.as_slice(), b"ab"),
        _ => panic!(rt; "no line"),
    }
    match next_journal_line(alloc, &mut input) {
        Ok(JournalLine::Whole(line)) => same(&rt, line.as_slice(), b""),
        _ => panic!(rt; "no line"),
    }
    match next_journal_line(alloc, &mut input) {
        Ok(JournalLine::Torn(count)) => same(&rt, count, 1),
        _ => panic!(rt; "not torn"),
    }
    match next_journal_line(alloc, &mut input) {
        Ok(JournalLine::End) => {}
        _ => panic!(rt; "no end"),
    }
}
