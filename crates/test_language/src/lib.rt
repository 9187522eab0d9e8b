//! The language of the rows: texts that say what is done and what must come. `docs/ROWS.md` describes it.
#![tactic(auto)]

mod answer;
mod bytes;
mod fault;
mod line;
mod row;
mod row_report;
mod runner;
mod scene;
mod word;

pub use answer::RowAnswer;
pub use bytes::{bytes_if_any, bytes_of, write_bytes};
pub use fault::RowFault;
pub use line::RowLine;
pub use runner::{Tally, run_rows};
pub use scene::Scene;
pub use word::{Word, address, byte, count, memory_length, number};
