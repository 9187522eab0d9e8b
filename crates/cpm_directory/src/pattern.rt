//! Which entries are looked for.

ghost use Rattle.std.specs.Prelude.{◌≡◌};
ghost use Rattle.std.specs.List.{list_all, zip};
ghost use Rattle.cpm_volume.specs.Files.{extent_number, group_of, name_matches, wildcard_or_same};
ghost use Rattle.cpm_volume.specs.Names.{is_named};
ghost use Rattle.cpm_directory.specs.Matching.{is_in_group};

use cpm_geom::Dpb;
use cpm_volume::Entry;

/// Which entries are looked for.
#[derive(Clone, Copy, PartialEq, Eq, Debug)]
pub enum Pattern {
    /// Every entry, in use or not.
    Every,
    /// The entries of a user whose name matches, where a `?` stands for any character; those of one group of extents if
    /// it is given.
    Files {
        user: u8,
        name: [u8; 11],
        group: Option<u16>,
    },
}

impl Pattern {
    ghost use Rattle.cpm_directory.specs.Matching.{is_match};

    /// Whether an entry is looked for.
    #[tactic(auto, unfolding(crate::specs::Matching::is_match))]
    pub fn matches(&self, dpb: &Dpb, entry: &Entry) -> bool
        ensures { result ≡ is_match dpb.now self.now entry.now }
    {
        match self {
            Pattern::Every => true,
            Pattern::Files { user, name, group } => {
                entry.user == *user
                    && names_match(name, &entry.extent.name)
                    && is_in_group(dpb, *group, entry.extent.number())
            }
        }
    }
}

/// Whether an entry is of a user and its name matches, where a `?` stands for any character.
#[tactic(auto, unfolding(cpm_volume::specs::Names::is_named))]
pub fn is_named(user: u8, name: &[u8; 11], entry: &Entry) -> bool
    ensures { result ≡ is_named user name.now entry.now }
{
    entry.user == user && names_match(name, &entry.extent.name)
}

/// Whether an extent is of the group that is asked for, if one is.
fn is_in_group(dpb: &Dpb, wanted: Option<u16>, number: u16) -> bool
    ensures { result ≡ is_in_group dpb.now wanted number }
{
    match wanted {
        Some(wanted) => group_of(dpb, number) == wanted,
        None => true,
    }
}

/// The group of an extent.
#[tactic(auto, unfolding(cpm_volume::specs::Files::group_of))]
pub(crate) fn group_of(dpb: &Dpb, number: u16) -> u16
    ensures { result ≡ group_of dpb.now number }
{
    number / (u16::from(dpb.extent_mask) + 1)
}

/// Whether a name matches a pattern.
fn names_match(pattern: &[u8; 11], name: &[u8; 11]) -> bool
    ensures { result ≡ name_matches pattern.now name.now }
{
    all_match(pattern, name)
}

fn all_match(pattern: &[u8], name: &[u8]) -> bool
    ensures { result ≡ list_all wildcard_or_same (zip pattern.now name.now) }
{
    pattern
        .iter()
        .zip(name)
        .all(|(p, c)| *p % 128 == b'?' || *p % 128 == *c % 128)
}
