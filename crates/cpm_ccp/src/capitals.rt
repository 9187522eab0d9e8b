//! Letters of a typed line.

ghost use Rattle.std.specs.Prelude.{◌≡◌};
ghost use Rattle.cpm_ccp.specs.Capitals.{capital};

/// A byte, a small letter as the capital one.
pub(crate) fn capital(byte: u8) -> u8
    ensures { result ≡ capital byte }
{
    byte.to_ascii_uppercase()
}
