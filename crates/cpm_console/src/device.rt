//! The devices that a session puts bytes on.

/// A device whose bytes wait until they are taken.
#[derive(Clone, Copy, Debug, PartialEq, Eq)]
pub enum Device {
    Console,
    List,
}
