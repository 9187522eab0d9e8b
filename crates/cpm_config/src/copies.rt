//! A configuration of its own, from one that borrows its document.
ghost use Rattle.std.specs.Prelude.{◌≡◌, ◌^◌, [], IfOk, None, map, option_map, pos, string_bytes, true};
ghost use Rattle.cpm_config.specs.Entries.{draft_view, origin_draft_view, session_draft_view, text_view, texts_view};
ghost use Rattle.cpm_config.specs.Rules.{IsOriginKept, config_view, cpu_text, is_between, is_cpu, origin_view};
ghost use Rattle.cpm_config.specs.Rules.{range_fault, session_view, sessions_fault, texts_of_strings};

use crate::config::{Config, Origin, SessionConfig};
use crate::draft::{Draft, OriginDraft, SessionDraft};
use cpm_flags::Cpu;
use std::alloc::{AllocError, Global};

/// A copy of a text that may be left out.
fn copy_if_any(alloc: Global, text: Option<&str>) -> Result<Option<String>, AllocError>
    ensures { IfOk result (λ o. option_map string_bytes o ≡ text_view text.entry) }
{
    match text {
        Some(text) => Ok(Some(String::from_str(alloc, text)?)),
        None => Ok(None),
    }
}

/// Copies of texts.
fn copies(alloc: Global, texts: &[&str]) -> Result<Vec<String>, AllocError>
    ensures { IfOk result (λ v. texts_of_strings v ≡ map (λ t. t.now) texts.now) }
{
    let mut copies = Vec::new(alloc);
    for text in texts {
        copies.push(String::from_str(alloc, text)?)?;
    }
    Ok(copies)
}

/// Copies of texts that may be left out.
fn copies_if_any(
    alloc: Global,
    texts: &Option<Vec<&str>>,
) -> Result<Option<Vec<String>>, AllocError>
    ensures { IfOk result (λ o. option_map texts_of_strings o ≡ option_map texts_view texts.now) }
{
    match texts {
        Some(texts) => Ok(Some(copies(alloc, texts.as_slice())?)),
        None => Ok(None),
    }
}

/// The processor that a text names.
fn cpu_of(text: &str) -> Cpu
    requires { is_cpu text.now ≡ true }
    ensures { cpu_text result ≡ text.now }
{
    if text == "8080" { Cpu::I8080 } else { Cpu::Z80 }
}

/// A number that is not below 0.
fn unsigned(number: i64) -> u64
    requires { is_between 0 (2 ^ 63) number ≡ true }
    ensures { pos result ≡ number }
{
    number.unsigned_abs()
}

/// A number of 16 bits.
fn unsigned_16(number: i64) -> u16
    requires { is_between 0 65535 number ≡ true }
    ensures { pos result ≡ number }
{
    number.unsigned_abs() as u16
}

/// How a session of a draft that breaks no rule begins.
fn origin_of(alloc: Global, origin: &OriginDraft<'_>) -> Result<Origin, AllocError>
    requires { IsOriginKept (origin_draft_view origin.now) }
    ensures { IfOk result (λ o. origin_view o ≡ origin_draft_view origin.now) }
{
    match origin {
        OriginDraft::Opened { cpu, quota, drives } => Ok(Origin::Opened {
            cpu: cpu_of(cpu),
            quota: unsigned_16(*quota),
            drives: copies(alloc, drives.as_slice())?,
        }),
        OriginDraft::Forked { parent, at } => Ok(Origin::Forked {
            parent: String::from_str(alloc, parent)?,
            at: unsigned(*at),
        }),
        OriginDraft::Restored { saving } => Ok(Origin::Restored {
            saving: String::from_str(alloc, saving)?,
        }),
    }
}

/// The session of a draft that breaks no rule.
fn session_of(alloc: Global, draft: &SessionDraft<'_>) -> Result<SessionConfig, AllocError>
    requires origin { IsOriginKept (origin_draft_view draft.now.origin) }
    requires steps { is_between 0 (2 ^ 63) draft.now.steps ≡ true }
    ensures { IfOk result (λ s. session_view s ≡ session_draft_view draft.now) }
{
    Ok(SessionConfig {
        name: String::from_str(alloc, draft.name)?,
        origin: origin_of(alloc, &draft.origin)?,
        steps: unsigned(draft.steps),
        console: String::from_str(alloc, draft.console)?,
        keys: copy_if_any(alloc, draft.keys)?,
        list: copy_if_any(alloc, draft.list)?,
        out: copies_if_any(alloc, &draft.out)?,
        save: copy_if_any(alloc, draft.save)?,
    })
}

/// The sessions of drafts that break no rule.
fn sessions_of(alloc: Global, drafts: &[SessionDraft<'_>]) -> Result<Vec<SessionConfig>, AllocError>
    requires { sessions_fault 1 [] (map session_draft_view drafts.now) ≡ None }
    ensures { IfOk result (λ v. map session_view v.items ≡ map session_draft_view drafts.now) }
{
    let mut sessions = Vec::new(alloc);
    for draft in drafts {
        sessions.push(session_of(alloc, draft)?)?;
    }
    Ok(sessions)
}

/// The configuration of a draft that breaks no rule.
pub(crate) fn config_of(alloc: Global, draft: &Draft<'_>) -> Result<Config, AllocError>
    requires { range_fault (draft_view draft.now) ≡ None }
    ensures { IfOk result (λ c. config_view c ≡ draft_view draft.now) }
{
    Ok(Config {
        frames: unsigned_16(draft.frames),
        quantum: unsigned(draft.quantum),
        system: String::from_str(alloc, draft.system)?,
        sessions: sessions_of(alloc, draft.sessions.as_slice())?,
    })
}
