//! Commands that need no file.

ghost use Rattle.std.specs.Prelude.{◌≡◌};
ghost use Rattle.cpm_ccp.specs.Command.{built_in_of};

use cpm_directory::Fcb;

/// A command that the command processor has itself.
#[derive(Clone, Copy, PartialEq, Eq, Debug)]
pub(crate) enum BuiltIn {
    Dir,
    Era,
    Ren,
    Save,
    TypeFile,
    User,
}

impl BuiltIn {
    /// The built-in command of a name without drive and type.
    #[tactic(auto, unfolding(crate::specs::Command::built_in_of))]
    pub(crate) fn of(file: &Fcb) -> Option<BuiltIn>
        ensures { result ≡ built_in_of file.now }
    {
        if file.drive != 0 {
            return None;
        }
        let name = file.extent.name.as_slice();
        if name == b"DIR        ".as_slice() {
            Some(BuiltIn::Dir)
        } else if name == b"ERA        ".as_slice() {
            Some(BuiltIn::Era)
        } else if name == b"REN        ".as_slice() {
            Some(BuiltIn::Ren)
        } else if name == b"SAVE       ".as_slice() {
            Some(BuiltIn::Save)
        } else if name == b"TYPE       ".as_slice() {
            Some(BuiltIn::TypeFile)
        } else if name == b"USER       ".as_slice() {
            Some(BuiltIn::User)
        } else {
            None
        }
    }
}
