//! A file's name on a disk.

ghost use Rattle.std.specs.Prelude.{◌≡◌, ◌≤◌, ◌<◌, ◌==◌, ◌%◌, ◌⊎◌, MatchOption, IfSome, true, false};
ghost use Rattle.std.specs.List.{list_any};
ghost use Rattle.cpm_volume.specs.Encoding.{AreBytes};
ghost use Rattle.cpm_volume.specs.Files.{has_wildcard};

/// The greatest user number.
pub const LAST_USER: u8 = 15;

/// The user, the name and the attributes of one file.
#[derive(Clone, Copy, PartialEq, Eq, Debug)]
pub struct FileName {
    user: u8,
    /// Eight characters of a name and three of a type, with their attribute bits; none is a `?`.
    name: [u8; 11],
    ghost within: { user < 16 },
    ghost plain: { has_wildcard name ≡ false },
    ghost bytes: { AreBytes 11 name },
}

impl FileName {
    /// A name of a user; none where the user is above 15 or a character of the name is `?`.
    pub fn new(user: u8, name: [u8; 11]) -> Option<FileName>
        ensures { MatchOption result
            ((15 < user) ⊎ (has_wildcard name ≡ true))
            (λ file. (file.user ≡ user) × (file.name ≡ name)) }
    {
        if LAST_USER < user || has_wildcard(&name) {
            return None;
        }
        Some(FileName { user, name })
    }

    /// The user whose file it is.
    pub fn user(&self) -> u8
        ensures value { result ≡ self.now.user }
        ensures within { result < 16 }
    {
        self.user
    }

    /// The name, with the attribute bits.
    pub fn name(&self) -> &[u8; 11]
        ensures value { result.now ≡ self.now.name }
        ensures plain { has_wildcard result.now ≡ false }
        ensures bytes { AreBytes 11 result.now }
    {
        &self.name
    }
}

/// Whether a character of a name is `?`, whatever its attribute bit.
fn has_wildcard(name: &[u8; 11]) -> bool
    ensures { result ≡ has_wildcard name.now }
{
    any_wildcard(name)
}

fn any_wildcard(name: &[u8]) -> bool
    ensures { result ≡ list_any (λ character. character % 128 == 0x3F) name.now }
{
    name.iter().any(|character| *character % 128 == b'?')
}
