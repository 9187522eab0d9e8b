//! A configuration as its document has it: keys and types are right, and nothing else is judged.
ghost use Rattle.std.specs.Prelude.{◌≡◌, [], ℤ, Err, IfErr, IfOk, IsErrOf, Ok, map};
ghost use Rattle.toml.specs.Data.{no_members};
ghost use Rattle.toml.specs.View.{items_view, table_view, view};
ghost use Rattle.cpm_config.specs.Entries.{◌>>=◌ as ◌and_then◌, Forks, Opens, OriginEntries, ReadsEntry, Restores, Text};
ghost use Rattle.cpm_config.specs.Entries.{config_in, draft_view, forked_of_table, known_at_top, known_in_session, misplaced};
ghost use Rattle.cpm_config.specs.Entries.{opened_of_table, optional_text_at, origin_draft_view, restored_of_table, session_draft_view, session_in};
ghost use Rattle.cpm_config.specs.Entries.{session_of_table, session_with, sessions_at, sessions_of, text_at, text_view, texts_at};

use crate::fault::{DocumentStop, KeyFault};
use crate::field::{ConfigKey, Field};
use crate::values::{
    SESSION_FIELDS, TOP_FIELDS, has_only, number_at, optional_text_at, optional_texts_at, text_at,
    texts_at, value_at,
};
use std::alloc::Global;
use toml::{Table, Value};

/// The keys that a session doesn't have that goes on from a saving.
const NOT_RESTORED: [Field; 5] = [
    Field::Cpu,
    Field::Quota,
    Field::Fork,
    Field::At,
    Field::Drives,
];

/// How a session begins, as its entries have it.
#[derive(Drop)]
pub(crate) enum OriginDraft<'a> {
    Opened {
        cpu: &'a str,
        quota: i64,
        drives: Vec<&'a str>,
    },
    Forked {
        parent: &'a str,
        at: i64,
    },
    Restored {
        saving: &'a str,
    },
}

/// A session's entries.
#[derive(Drop)]
pub(crate) struct SessionDraft<'a> {
    pub(crate) name: &'a str,
    pub(crate) origin: OriginDraft<'a>,
    pub(crate) steps: i64,
    pub(crate) console: &'a str,
    pub(crate) keys: Option<&'a str>,
    pub(crate) list: Option<&'a str>,
    pub(crate) out: Option<Vec<&'a str>>,
    pub(crate) save: Option<&'a str>,
}

/// The entries of a whole configuration.
#[derive(Drop)]
pub(crate) struct Draft<'a> {
    pub(crate) frames: i64,
    pub(crate) quantum: i64,
    pub(crate) system: &'a str,
    pub(crate) sessions: Vec<SessionDraft<'a>>,
}

/// Refuses a table of a session that has a key of no session.
fn check_session_keys(table: &Table, session: u64) -> Result<(), KeyFault>
    ensures { result ≡ known_in_session session (table_view table.now) }
{
    let known = has_only(table, &SESSION_FIELDS);
    if known {
        Ok(())
    } else {
        Err(KeyFault::UnknownInSession(session))
    }
}

/// Refuses a table of a session that has one of these keys.
fn check_places(table: &Table, session: u64, fields: &[Field]) -> Result<(), KeyFault>
    ensures { result ≡ misplaced session fields.now (table_view table.now) }
{
    for field in fields {
        let field = *field;
        if value_at(table, field).is_some() {
            return Err(KeyFault::Misplaced(ConfigKey { session, field }));
        }
    }
    Ok(())
}

/// The entries of an opened session that stand before its drives.
#[derive(Drop)]
struct OpenedHead<'a> {
    name: &'a str,
    cpu: &'a str,
    quota: i64,
    steps: i64,
}

/// Reads the entries before the drives, in a function of its own: nothing is owned here that each
/// fault would have to drop.
#[tactic(auto, unfolding(crate::specs::Entries::opened_of_table))]
fn opened_head<'a>(table: &'a Table, session: u64) -> Result<OpenedHead<'a>, KeyFault>
    ensures read { IfOk result (λ h. opened_of_table session (table_view table.now)
        ≡ (texts_at session Field.Drives (table_view table.now)
        and_then (λ drives. session_with session (table_view table.now) h.name.now (Opens h.cpu.now h.quota drives) h.steps))) }
    ensures fault { IfErr result (λ e. opened_of_table session (table_view table.now) ≡ Err e) }
{
    check_session_keys(table, session)?;
    let name = text_at(table, session, Field::Name)?;
    check_places(table, session, &[Field::At])?;
    let cpu = text_at(table, session, Field::Cpu)?;
    let quota = number_at(table, session, Field::Quota)?;
    let steps = number_at(table, session, Field::Steps)?;
    Ok(OpenedHead {
        name,
        cpu,
        quota,
        steps,
    })
}

/// The entries of a forked session that an opened one has otherwise or not at all, with its name
/// and count of steps.
#[derive(Drop)]
struct ForkedHead<'a> {
    name: &'a str,
    parent: &'a str,
    at: i64,
    steps: i64,
}

/// Reads the entries before the console.
#[tactic(auto, unfolding(crate::specs::Entries::forked_of_table))]
fn forked_head<'a>(table: &'a Table, session: u64) -> Result<ForkedHead<'a>, KeyFault>
    ensures read { IfOk result (λ h. forked_of_table session (table_view table.now)
        ≡ session_with session (table_view table.now) h.name.now (Forks h.parent.now h.at) h.steps) }
    ensures fault { IfErr result (λ e. forked_of_table session (table_view table.now) ≡ Err e) }
{
    check_session_keys(table, session)?;
    let name = text_at(table, session, Field::Name)?;
    check_places(table, session, &[Field::Cpu, Field::Quota, Field::Drives])?;
    let parent = text_at(table, session, Field::Fork)?;
    let at = number_at(table, session, Field::At)?;
    let steps = number_at(table, session, Field::Steps)?;
    Ok(ForkedHead {
        name,
        parent,
        at,
        steps,
    })
}

/// The entries of a session that goes on from a saving, before its console.
#[derive(Drop)]
struct RestoredHead<'a> {
    name: &'a str,
    saving: &'a str,
    steps: i64,
}

/// Reads the entries before the console.
#[tactic(auto, unfolding(crate::specs::Entries::restored_of_table))]
fn restored_head<'a>(table: &'a Table, session: u64) -> Result<RestoredHead<'a>, KeyFault>
    ensures read { IfOk result (λ h. restored_of_table session (table_view table.now)
        ≡ session_with session (table_view table.now) h.name.now (Restores h.saving.now) h.steps) }
    ensures fault { IfErr result (λ e. restored_of_table session (table_view table.now) ≡ Err e) }
{
    check_session_keys(table, session)?;
    let name = text_at(table, session, Field::Name)?;
    check_places(table, session, &NOT_RESTORED)?;
    let saving = text_at(table, session, Field::From)?;
    let steps = number_at(table, session, Field::Steps)?;
    Ok(RestoredHead {
        name,
        saving,
        steps,
    })
}

/// The entries of a session that it has however it begins, but for the files of its drives.
#[derive(Drop)]
struct Files<'a> {
    console: &'a str,
    keys: Option<&'a str>,
    list: Option<&'a str>,
    save: Option<&'a str>,
}

/// Reads the entries from the console on; a fault is the session's first where none came before it.
#[tactic(auto, unfolding(crate::specs::Entries::session_with))]
fn files_of<'a>(table: &'a Table, session: u64) -> Result<Files<'a>, KeyFault>
    ensures console { IfOk result (λ f. text_at session Field.Console (table_view table.now) ≡ Ok f.console.now) }
    ensures keys { IfOk result (λ f. optional_text_at session Field.Keys (table_view table.now) ≡ Ok (text_view f.keys)) }
    ensures list { IfOk result (λ f. optional_text_at session Field.List (table_view table.now) ≡ Ok (text_view f.list)) }
    ensures save { IfOk result (λ f. optional_text_at session Field.Save (table_view table.now) ≡ Ok (text_view f.save)) }
    ensures fault { IfErr result (λ e. (name : Text) (origin : OriginEntries) (steps : ℤ)
        → session_with session (table_view table.now) name origin steps ≡ Err e) }
{
    let console = text_at(table, session, Field::Console)?;
    let keys = optional_text_at(table, session, Field::Keys)?;
    let list = optional_text_at(table, session, Field::List)?;
    let save = optional_text_at(table, session, Field::Save)?;
    Ok(Files {
        console,
        keys,
        list,
        save,
    })
}

/// The entries of a session with this name, beginning and count of steps.
#[tactic(auto, unfolding(crate::specs::Entries::session_with))]
fn session_with<'a>(
    alloc: Global,
    table: &'a Table,
    session: u64,
    name: &'a str,
    origin: OriginDraft<'a>,
    steps: i64,
) -> Result<SessionDraft<'a>, DocumentStop>
    ensures { ReadsEntry session_draft_view result (session_with session (table_view table.now) name.now (origin_draft_view origin.entry) steps) }
{
    let files = files_of(table, session)?;
    let out = optional_texts_at(alloc, table, session, Field::Out)?;
    Ok(SessionDraft {
        name,
        origin,
        steps,
        console: files.console,
        keys: files.keys,
        list: files.list,
        out,
        save: files.save,
    })
}

/// The entries of the table of an opened session with this number.
fn opened_of_table<'a>(
    alloc: Global,
    table: &'a Table,
    session: u64,
) -> Result<SessionDraft<'a>, DocumentStop>
    ensures { ReadsEntry session_draft_view result (opened_of_table session (table_view table.now)) }
{
    let head = opened_head(table, session)?;
    let drives = texts_at(alloc, table, session, Field::Drives)?;
    let origin = OriginDraft::Opened {
        cpu: head.cpu,
        quota: head.quota,
        drives,
    };
    session_with(alloc, table, session, head.name, origin, head.steps)
}

/// The entries of the table of a forked session with this number.
fn forked_of_table<'a>(
    alloc: Global,
    table: &'a Table,
    session: u64,
) -> Result<SessionDraft<'a>, DocumentStop>
    ensures { ReadsEntry session_draft_view result (forked_of_table session (table_view table.now)) }
{
    let head = forked_head(table, session)?;
    let origin = OriginDraft::Forked {
        parent: head.parent,
        at: head.at,
    };
    session_with(alloc, table, session, head.name, origin, head.steps)
}

/// The entries of the table of a session with this number that goes on from a saving.
fn restored_of_table<'a>(
    alloc: Global,
    table: &'a Table,
    session: u64,
) -> Result<SessionDraft<'a>, DocumentStop>
    ensures { ReadsEntry session_draft_view result (restored_of_table session (table_view table.now)) }
{
    let head = restored_head(table, session)?;
    let origin = OriginDraft::Restored {
        saving: head.saving,
    };
    session_with(alloc, table, session, head.name, origin, head.steps)
}

/// The entries of the table of the session with this number.
#[tactic(auto, unfolding(crate::specs::Entries::session_of_table))]
fn session_of_table<'a>(
    alloc: Global,
    table: &'a Table,
    session: u64,
) -> Result<SessionDraft<'a>, DocumentStop>
    ensures { ReadsEntry session_draft_view result (session_of_table session (table_view table.now)) }
{
    if value_at(table, Field::From).is_some() {
        restored_of_table(alloc, table, session)
    } else if value_at(table, Field::Fork).is_some() {
        forked_of_table(alloc, table, session)
    } else {
        opened_of_table(alloc, table, session)
    }
}

/// The entries of a value that has to be a session's table.
fn session_in<'a>(
    alloc: Global,
    value: &'a Value,
    session: u64,
) -> Result<SessionDraft<'a>, DocumentStop>
    ensures { ReadsEntry session_draft_view result (session_in session (view value.now)) }
{
    match value {
        Value::Table(table) => session_of_table(alloc, table, session),
        _ => Err(DocumentStop::Fault(KeyFault::Wanted(ConfigKey {
            session: 0,
            field: Field::Sessions,
        }))),
    }
}

/// Adds the entries of all sessions to none yet. The owner is the caller, so that no fault here has
/// sessions to drop.
fn add_sessions<'a>(
    alloc: Global,
    values: &'a [Value],
    sessions: &mut Vec<SessionDraft<'a>>,
) -> Result<(), DocumentStop>
    requires { sessions.old.items ≡ [] }
    ensures { ReadsEntry (λ _. map session_draft_view sessions.new.items) result (sessions_of 1 (items_view values.now)) }
{
    let mut number: u64 = 0;
    for value in values {
        number += 1;
        let session = session_in(alloc, value, number)?;
        sessions.push(session)?;
    }
    Ok(())
}

/// The entries of all sessions.
fn sessions_of<'a>(
    alloc: Global,
    values: &'a [Value],
) -> Result<Vec<SessionDraft<'a>>, DocumentStop>
    ensures { ReadsEntry (λ v. map session_draft_view v.items) result (sessions_of 1 (items_view values.now)) }
{
    let mut sessions = Vec::new(alloc);
    add_sessions(alloc, values, &mut sessions)?;
    Ok(sessions)
}

/// The entries of the sessions of a document.
fn sessions_at<'a>(alloc: Global, table: &'a Table) -> Result<Vec<SessionDraft<'a>>, DocumentStop>
    ensures read { ReadsEntry (λ v. map session_draft_view v.items) result (sessions_at (table_view table.now)) }
    ensures memory { IsErrOf result DocumentStop.OutOfMemory → table_view table.now ≡ no_members → ⊥ }
{
    match value_at(table, Field::Sessions) {
        Some(Value::Array(array)) => sessions_of(alloc, array.as_slice()),
        _ => Err(DocumentStop::Fault(KeyFault::Wanted(ConfigKey {
            session: 0,
            field: Field::Sessions,
        }))),
    }
}

/// Refuses a document with a key at the top that no configuration has.
fn check_top_keys(table: &Table) -> Result<(), KeyFault>
    ensures { result ≡ known_at_top (table_view table.now) }
{
    let known = has_only(table, &TOP_FIELDS);
    if known {
        Ok(())
    } else {
        Err(KeyFault::UnknownAtTop)
    }
}

/// The entries of a document.
#[tactic(auto, unfolding(crate::specs::Entries::config_in))]
pub(crate) fn draft_of<'a>(alloc: Global, table: &'a Table) -> Result<Draft<'a>, DocumentStop>
    ensures read { ReadsEntry draft_view result (config_in (table_view table.now)) }
    ensures memory { IsErrOf result DocumentStop.OutOfMemory → table_view table.now ≡ no_members → ⊥ }
{
    check_top_keys(table)?;
    let frames = number_at(table, 0, Field::Frames)?;
    let quantum = number_at(table, 0, Field::Quantum)?;
    let system = text_at(table, 0, Field::System)?;
    let sessions = sessions_at(alloc, table)?;
    Ok(Draft {
        frames,
        quantum,
        system,
        sessions,
    })
}
