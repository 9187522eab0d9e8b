//! The keys that a configuration has.
ghost use Rattle.std.specs.Prelude.{◌≡◌};
ghost use Rattle.cpm_config.specs.Fields.{field_name};

use std::fmt;

/// A key of a configuration.
#[derive(Clone, Copy, Debug, Drop)]
pub enum Field {
    Frames,
    Quantum,
    System,
    Sessions,
    Name,
    Cpu,
    Quota,
    Fork,
    At,
    From,
    Steps,
    Drives,
    Console,
    Keys,
    List,
    Out,
    Save,
}

impl Field {
    /// The key as it stands in the file.
    pub fn name(self) -> &'static str
        ensures { result.now ≡ field_name self }
    {
        match self {
            Field::Frames => "frames",
            Field::Quantum => "quantum",
            Field::System => "system",
            Field::Sessions => "session",
            Field::Name => "name",
            Field::Cpu => "cpu",
            Field::Quota => "quota",
            Field::Fork => "fork",
            Field::At => "at",
            Field::From => "from",
            Field::Steps => "steps",
            Field::Drives => "drives",
            Field::Console => "console",
            Field::Keys => "keys",
            Field::List => "list",
            Field::Out => "out",
            Field::Save => "save",
        }
    }

    /// What is wanted at the key, as a message says it.
    pub(crate) fn wanted(self) -> &'static str {
        match self {
            Field::Frames => "a number from 16 to 16384",
            Field::Quantum => "a number from 1 to 1000000000",
            Field::System => "the name of the system drive's image",
            Field::Sessions => "1 to 64 tables [[session]]",
            Field::Name => "a text of 1 to 16 letters, digits, '-' and '_'",
            Field::Cpu => "\"8080\" or \"z80\"",
            Field::Quota => "a number from 16 to 256",
            Field::Fork => "the name of an earlier session that is not forked itself",
            Field::At =>
                "a number from 0 to the steps of this session and of the one that it is forked from",
            Field::From => "the name of the file of a saved machine",
            Field::Steps => "a number from 0 to 1000000000000",
            Field::Drives => "an array of 1 to 4 names of images",
            Field::Console => "the name of the file for the console's text",
            Field::Keys => "the name of a key script, or no such key",
            Field::List => "the name of the file for the list device's text, or no such key",
            Field::Out => "an array of as many names as there are drives, or no such key",
            Field::Save => "the name of the file for the saved machine, or no such key",
        }
    }
}

/// A key at the top of the configuration, or of one session.
#[derive(Clone, Copy, Debug, Drop)]
pub struct ConfigKey {
    /// The session's number in the file, from 1; 0 is the top.
    pub session: u64,
    pub field: Field,
}

impl fmt::Display for ConfigKey {
    fn fmt<W: fmt::Write>(&self, f: &mut fmt::Formatter<W>) -> fmt::Result {
        let name = self.field.name();
        match self.session {
            0 => write!(f, "'{name}'"),
            session => write!(f, "'{name}' of session {session}"),
        }
    }
}
