//! The configuration of a run: which sessions there are, and with which files.
#![tactic(auto)]

mod config;
mod copies;
mod draft;
mod fault;
mod field;
mod files;
mod forks;
mod laws;
mod names;
mod ranges;
mod unknown;
mod values;

pub use config::{Config, Origin, SessionConfig};
pub use fault::{ConfigError, KeyFault, KeyRefusal, UnknownKey};
pub use field::{ConfigKey, Field};
pub use files::SessionFile;
pub use forks::place_of;
pub use laws::forks_stand;
