//! Sessions that are forked from others, and those that they are forked from.
ghost use Rattle.std.specs.Prelude.{◌≡◌, [], Some, map, option_map, pos};
ghost use Rattle.cpm_config.specs.Rules.{at_fault, config_view, fork_field_fault, forks_fault, if_opened, named_in, place_of, session_view};

use crate::config::{Config, Origin, SessionConfig};
use crate::field::{ConfigKey, Field};

/// The place of the first of these sessions that has a name.
pub fn place_of(sessions: &[SessionConfig], name: &str) -> Option<usize>
    ensures { result ≡ place_of name.now (map session_view sessions.now) }
{
    sessions
        .iter()
        .position(|session| session.name.as_str() == name)
}

/// The first of these sessions that has a name.
fn named_in<'s>(sessions: &'s [SessionConfig], name: &str) -> Option<&'s SessionConfig>
    ensures { option_map (λ s. session_view s.now) result ≡ named_in (map session_view sessions.now) name.now }
{
    sessions
        .iter()
        .find(|session| session.name.as_str() == name)
}

/// The field by which a fork of this session at this count of steps breaks a rule.
fn at_fault(parent: &SessionConfig, steps: u64, at: u64) -> Option<Field>
    ensures { result ≡ at_fault (if_opened (Some (session_view parent.now))) (pos steps) (pos at) }
{
    if let Origin::Forked { .. } = parent.origin {
        return Some(Field::Fork);
    }
    if at <= parent.steps && at <= steps {
        None
    } else {
        Some(Field::At)
    }
}

/// The field by which a session is not forked from one of those before it, if it is forked.
fn fork_field_fault(before: &[SessionConfig], session: &SessionConfig) -> Option<Field>
    ensures { result ≡ fork_field_fault (map session_view before.now) (session_view session.now) }
{
    let Origin::Forked { parent, at } = &session.origin else {
        return None;
    };
    match named_in(before, parent.as_str()) {
        Some(parent) => at_fault(parent, session.steps, *at),
        None => Some(Field::Fork),
    }
}

/// The first place in the sessions at which a fork breaks a rule.
fn forks_fault(sessions: &[SessionConfig]) -> Option<ConfigKey>
    ensures { result ≡ forks_fault 1 [] (map session_view sessions.now) }
{
    let mut count: usize = 0;
    for session in sessions {
        let before = &sessions[..count];
        count += 1;
        if let Some(field) = fork_field_fault(before, session) {
            return Some(ConfigKey {
                session: count as u64,
                field,
            });
        }
    }
    None
}

impl Config {
    /// The first place in the sessions at which a fork breaks a rule: `fork` names no earlier session
    /// that is opened, or `at` is above the steps of either.
    pub fn fork_fault(&self) -> Option<ConfigKey>
        ensures { result ≡ forks_fault 1 [] (config_view self.now).sessions }
    {
        forks_fault(self.sessions.as_slice())
    }
}
