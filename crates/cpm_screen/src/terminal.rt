//! The terminals that a program may take the screen for.

ghost use Rattle.std.specs.Prelude.{◌≡◌};
ghost use Rattle.cpm_screen.specs.Cursors.{terminal_named, wrap_of};

/// A terminal by its manual.
#[derive(Clone, Copy, Debug, PartialEq, Eq)]
pub enum TerminalKind {
    /// Lear Siegler's ADM-3A.
    Adm3a,
    /// The screen of a Kaypro II, 4 or 10.
    Kaypro,
    /// A TeleVideo 912, 920, 925 or 950.
    Televideo,
    /// DEC's VT52.
    Vt52,
    /// DEC's VT100, with what the VT102 adds.
    Vt100,
}

/// What follows on a character in the last column.
#[derive(Clone, Copy)]
pub enum Wrap {
    /// The next line begins at once.
    Now,
    /// The next line begins with the next character.
    Later,
    /// The cursor stays, and the next character is shown over it.
    Never,
}

impl TerminalKind {
    /// The terminal of a name, if there is one.
    pub fn named(name: &str) -> Option<TerminalKind>
        ensures { result ≡ terminal_named name.now }
    {
        match name {
            "adm3a" => Some(TerminalKind::Adm3a),
            "kaypro" => Some(TerminalKind::Kaypro),
            "televideo" => Some(TerminalKind::Televideo),
            "vt52" => Some(TerminalKind::Vt52),
            "vt100" => Some(TerminalKind::Vt100),
            _ => None,
        }
    }

    /// What follows on a character in the last column of a terminal that was just turned on.
    #[tactic(auto, unfolding(crate::specs::Cursors::wrap_of))]
    pub(crate) fn wrap(self) -> Wrap
        ensures { result ≡ wrap_of self }
    {
        match self {
            TerminalKind::Adm3a | TerminalKind::Kaypro | TerminalKind::Televideo => Wrap::Now,
            TerminalKind::Vt52 => Wrap::Never,
            TerminalKind::Vt100 => Wrap::Later,
        }
    }
}
