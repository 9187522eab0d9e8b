//! Memories of 65,536 bytes that know which of their pages were written: each by itself, or many over one store of shared frames.
#![tactic(auto)]

pub mod access;
pub mod disk_tables;
pub mod flat;
mod frames;
pub mod laws;
pub mod layout;
pub mod memory;
pub mod opening;
pub mod pages;
pub mod saved_pages;
pub mod scratch;
pub mod sharing;
pub mod store;
pub mod view;

pub use access::{
    change_byte, change_run, change_word, get_run, get_whole_word, get_word, has_room, set_byte,
    set_run, set_settled, set_word,
};
pub use flat::FlatMemory;
pub use memory::Memory;
pub use pages::TableId;
pub use store::{FrameStore, MOST_FRAMES, MemError};
pub use view::View;
