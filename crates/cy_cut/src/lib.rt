//! A record's file cut into its sections: the heads, bodies and index that a store has, read one
//! after another up to the first fault.
//!
//! `specs/Tiling` says into which sections a file falls, `specs/Sections` and `specs/Heads` compute
//! them, and `specs/Cutting` says what is kept of them.
#![tactic(auto)]

mod cutting;
mod heads;
mod laws;
mod sections;
mod window;

pub use cutting::{CutFile, Part, cut_file};
pub use heads::{Heads, KeptIndex, PlacedHead, header_head, heads_of, push_index};
pub use laws::sections_tile;
pub use sections::{SectionView, section_at};
