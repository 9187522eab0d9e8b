//! Names, and the table of their values.
ghost use Rattle.std.specs.Prelude.{◌≡◌, ◌≤◌, length};
ghost use Rattle.cpm_asm_expression.specs.Names.{name_with};

use std::collections::BTreeMap;

/// A name in capital letters without its dollar signs, and blanks after it.
#[derive(Clone, Copy, Debug, PartialEq, Eq, PartialOrd, Ord)]
pub struct Name {
    pub letters: [u8; 16],
}

/// The values of the names that are defined.
pub type Names = BTreeMap<Name, u16>;

/// The name of these letters.
pub fn name_of(letters: &[u8]) -> Name
    requires { length letters.now ≤ 16 }
    ensures { result ≡ name_with letters.now }
{
    let mut padded = [b' '; 16];
    padded[..letters.len()].copy_from_slice(letters);
    Name { letters: padded }
}
