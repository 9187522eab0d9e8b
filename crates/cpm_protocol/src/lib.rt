//! The host on a wire: a line as a request, and a reply as a line. `docs/PROTOCOL.md` has the table.
#![tactic(auto)]

mod bytes;
mod fault;
mod field;
mod kind;
mod laws;
mod line;
mod reading;
mod reply;
mod request;
mod values;
mod word;
mod writing;

pub use bytes::{bytes_of, is_byte_text, text_of};
pub use fault::{FieldFault, LineError, RequestFault};
pub use field::RequestField;
pub use kind::RequestKind;
pub use laws::{replies_are_flat, replies_come_back, requests_come_back};
pub use line::WireLine;
pub use reading::{request_of, tag_of};
pub use reply::{SessionLook, TurnReply, WireReply};
pub use request::{DriveNames, GrantGoal, LineRequest, Tag, WireRequest};
pub use word::{GrantStop, WireEnd, WireRefusal};
pub use writing::many_value;
