//! The session that is typed at.
ghost use Rattle.std.specs.Prelude.{◌≡◌, option_map};
ghost use Rattle.cpm_commands.specs.Typed.{is_typed_at};

use cpm_host::SessionConfig;

/// Whether one types at a session.
pub(crate) fn is_typed_at(typed: Option<&str>, session: &SessionConfig) -> bool
    ensures { result ≡ is_typed_at (option_map (λ n. n.now) typed.entry) session.now }
{
    match typed {
        Some(name) => name == session.name.as_str(),
        None => false,
    }
}
