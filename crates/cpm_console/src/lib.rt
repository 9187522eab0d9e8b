//! The console and the list device of a session: pending keys, what a program shows, held until it is taken, and the
//! editing of a line.
#![tactic(auto)]

pub mod console;
pub mod device;
pub mod laws;
pub mod line;

pub use console::{Console, KEYS, RING, STEP_OUTPUT};
pub use device::Device;
pub use laws::erased_as_typed;
pub use line::{Keystroke, Line, LineState};
