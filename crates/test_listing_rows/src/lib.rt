//! Scenes of rows on lines of output and on sources: what is listed of instructions, bytes and registers, and what the assembler
//! makes of a text.
#![tactic(auto)]

mod listings;
mod sources;

pub use listings::Listings;
pub use sources::Sources;

/// The first bytes of some, with zeros after them where they are fewer.
fn filled<const N: usize>(start: &[u8]) -> [u8; N] {
    let mut bytes = [0; N];
    for (place, byte) in bytes.iter_mut().enumerate() {
        *byte = start.get(place).copied().unwrap_or(0);
    }
    bytes
}
