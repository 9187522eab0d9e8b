//! The rules on the values of a configuration.
ghost use Rattle.std.specs.Prelude.{◌≡◌, [], Some, map, option_map};
ghost use Rattle.std.specs.List.{list_all};
ghost use Rattle.cpm_config.specs.Entries.{Forks, draft_view, config_key, session_draft_view, texts_view};
ghost use Rattle.cpm_config.specs.Rules.{at_fault, forked_fault, if_opened, is_any_out, is_between, is_cpu};
ghost use Rattle.cpm_config.specs.Rules.{is_length_between, is_name, is_name_byte, is_out, is_out_if_any, is_steps, named_in};
ghost use Rattle.cpm_config.specs.Rules.{opened_fault, origin_fault, range_fault, restored_fault, session_fault, sessions_fault};

use crate::draft::{Draft, OriginDraft, SessionDraft};
use crate::field::{ConfigKey, Field};

/// The fewest frames of a host.
const LEAST_FRAMES: u64 = 16;

/// The most frames of a host: all pages of 64 sessions.
const MOST_FRAMES: u64 = 16_384;

fn is_between(low: u64, high: u64, number: i64) -> bool
    ensures { result ≡ is_between low high number }
{
    0 <= number && low <= number.unsigned_abs() && number.unsigned_abs() <= high
}

fn is_name_byte(byte: u8) -> bool
    ensures { result ≡ is_name_byte byte }
{
    matches!(byte, b'A'..=b'Z' | b'a'..=b'z' | b'0'..=b'9' | b'-' | b'_')
}

fn are_name_bytes(text: &str) -> bool
    ensures { result ≡ list_all is_name_byte text.now }
{
    text.as_bytes().iter().all(|byte| is_name_byte(*byte))
}

fn has_one_to_16(text: &str) -> bool
    ensures { result ≡ is_length_between 1 16 text.now }
{
    1 <= text.len() && text.len() <= 16
}

/// Whether a text may be a session's name.
fn is_name(text: &str) -> bool
    ensures { result ≡ is_name text.now }
{
    has_one_to_16(text) && are_name_bytes(text)
}

fn is_cpu(text: &str) -> bool
    ensures { result ≡ is_cpu text.now }
{
    text == "8080" || text == "z80"
}

fn is_steps(steps: i64) -> bool
    ensures { result ≡ is_steps steps }
{
    is_between(0, 1_000_000_000_000, steps)
}

/// Whether there are as many names as drives, where there are any.
fn is_out(drives: &[&str], out: &Option<Vec<&str>>) -> bool
    ensures { result ≡ is_out (map (λ t. t.now) drives.now) (option_map texts_view out.now) }
{
    match out {
        Some(names) => names.len() == drives.len(),
        None => true,
    }
}

/// Whether there are 1 to 4 names, where there are any.
fn is_any_out(out: &Option<Vec<&str>>) -> bool
    ensures { result ≡ is_any_out (option_map texts_view out.now) }
{
    match out {
        Some(names) => has_one_to_four(names.as_slice()),
        None => true,
    }
}

fn has_one_to_four(drives: &[&str]) -> bool
    ensures { result ≡ is_length_between 1 4 (map (λ t. t.now) drives.now) }
{
    1 <= drives.len() && drives.len() <= 4
}

/// The first field of a session that is opened with these that breaks a rule.
#[tactic(auto, unfolding(crate::specs::Rules::opened_fault))]
fn opened_fault(session: &SessionDraft<'_>, cpu: &str, quota: i64, drives: &[&str]) -> Option<Field>
    ensures { result ≡ opened_fault (session_draft_view session.now) cpu.now quota (map (λ t. t.now) drives.now) }
{
    if !is_name(session.name) {
        return Some(Field::Name);
    }
    if !is_cpu(cpu) {
        return Some(Field::Cpu);
    }
    if !is_between(16, 256, quota) {
        return Some(Field::Quota);
    }
    if !is_steps(session.steps) {
        return Some(Field::Steps);
    }
    if !has_one_to_four(drives) {
        return Some(Field::Drives);
    }
    if !is_out(drives, &session.out) {
        return Some(Field::Out);
    }
    None
}

/// The first of these sessions that has a name.
fn named_in<'s, 'a>(sessions: &'s [SessionDraft<'a>], name: &str) -> Option<&'s SessionDraft<'a>>
    ensures { option_map (λ s. session_draft_view s.now) result ≡ named_in (map session_draft_view sessions.now) name.now }
{
    sessions.iter().find(|session| session.name == name)
}

/// The field by which a fork of this session at this count of steps breaks a rule.
fn at_fault(parent: &SessionDraft<'_>, steps: i64, at: i64) -> Option<Field>
    ensures { result ≡ at_fault (if_opened (Some (session_draft_view parent.now))) steps at }
{
    if let OriginDraft::Forked { .. } = parent.origin {
        return Some(Field::Fork);
    }
    if 0 <= at && at <= parent.steps && at <= steps {
        None
    } else {
        Some(Field::At)
    }
}

/// The field by which a session of this count of steps is not forked from one of those before it.
fn fork_fault(before: &[SessionDraft<'_>], steps: i64, parent: &str, at: i64) -> Option<Field>
    ensures { result ≡ origin_fault (map session_draft_view before.now) steps (Forks parent.now at) }
{
    match named_in(before, parent) {
        Some(parent) => at_fault(parent, steps, at),
        None => Some(Field::Fork),
    }
}

/// Whether there are as many names as drives of the session that one is forked from.
fn is_fork_out(before: &[SessionDraft<'_>], parent: &str, out: &Option<Vec<&str>>) -> bool
    ensures { result ≡ is_out_if_any (named_in (map session_draft_view before.now) parent.now) (option_map texts_view out.now) }
{
    match named_in(before, parent).map(|parent| &parent.origin) {
        Some(OriginDraft::Opened { drives, .. }) => is_out(drives.as_slice(), out),
        Some(OriginDraft::Restored { .. }) => is_any_out(out),
        Some(OriginDraft::Forked { .. }) | None => is_out(&[], out),
    }
}

/// The first field of a session that is forked from the one of this name, at this count of steps, that
/// breaks a rule.
#[tactic(auto, unfolding(crate::specs::Rules::forked_fault))]
fn forked_fault(
    before: &[SessionDraft<'_>],
    session: &SessionDraft<'_>,
    parent: &str,
    at: i64,
) -> Option<Field>
    requires { (session_draft_view session.now).origin ≡ Forks parent.now at }
    ensures { result ≡ forked_fault (map session_draft_view before.now) (session_draft_view session.now) }
{
    if !is_name(session.name) {
        return Some(Field::Name);
    }
    if !is_steps(session.steps) {
        return Some(Field::Steps);
    }
    if let Some(field) = fork_fault(before, session.steps, parent, at) {
        return Some(field);
    }
    if !is_fork_out(before, parent, &session.out) {
        return Some(Field::Out);
    }
    None
}

/// The first field of a session that goes on from a saving that breaks a rule.
#[tactic(auto, unfolding(crate::specs::Rules::restored_fault))]
fn restored_fault(session: &SessionDraft<'_>) -> Option<Field>
    ensures { result ≡ restored_fault (session_draft_view session.now) }
{
    if !is_name(session.name) {
        return Some(Field::Name);
    }
    if !is_steps(session.steps) {
        return Some(Field::Steps);
    }
    if !is_any_out(&session.out) {
        return Some(Field::Out);
    }
    None
}

/// The first field of a session, after those before it, that breaks a rule.
fn session_fault(before: &[SessionDraft<'_>], session: &SessionDraft<'_>) -> Option<Field>
    ensures { result ≡ session_fault (map session_draft_view before.now) (session_draft_view session.now) }
{
    match &session.origin {
        OriginDraft::Opened { cpu, quota, drives } => {
            opened_fault(session, cpu, *quota, drives.as_slice())
        }
        OriginDraft::Forked { parent, at } => forked_fault(before, session, parent, *at),
        OriginDraft::Restored { .. } => restored_fault(session),
    }
}

/// The first place in the sessions that breaks a rule.
fn sessions_fault(sessions: &[SessionDraft<'_>]) -> Option<ConfigKey>
    ensures { result ≡ sessions_fault 1 [] (map session_draft_view sessions.now) }
{
    let mut count: usize = 0;
    for session in sessions {
        let before = &sessions[..count];
        count += 1;
        if let Some(field) = session_fault(before, session) {
            return Some(ConfigKey {
                session: count as u64,
                field,
            });
        }
    }
    None
}

/// A place at the top.
fn at_top(field: Field) -> Option<ConfigKey>
    ensures { result ≡ Some (config_key 0 field) }
{
    Some(ConfigKey { session: 0, field })
}

fn has_one_to_64(sessions: &Vec<SessionDraft<'_>>) -> bool
    ensures { result ≡ is_length_between 1 64 (map session_draft_view sessions.now.items) }
{
    1 <= sessions.len() && sessions.len() <= 64
}

/// The first place that breaks a rule.
#[tactic(auto, unfolding(crate::specs::Rules::range_fault))]
pub(crate) fn range_fault(draft: &Draft<'_>) -> Option<ConfigKey>
    ensures { result ≡ range_fault (draft_view draft.now) }
{
    if !is_between(LEAST_FRAMES, MOST_FRAMES, draft.frames) {
        return at_top(Field::Frames);
    }
    if !is_between(1, 1_000_000_000, draft.quantum) {
        return at_top(Field::Quantum);
    }
    if !has_one_to_64(&draft.sessions) {
        return at_top(Field::Sessions);
    }
    sessions_fault(draft.sessions.as_slice())
}
