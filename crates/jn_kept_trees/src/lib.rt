//! From files to their program, where the trees of files whose texts stayed are kept: only the others are lexed and parsed.
//!
//! [`type_files_again`] does what [`jn_phases::type_files`] does, over what an earlier call kept (`specs/KeptTrees.antt`), and gives
//! what is to be kept then. The names of all files are merged anew each time, which walks over no tree; a kept tree whose names get other
//! numbers than they had is renumbered in its place, by what leads from the old numbers to the new ones.
#![tactic(auto)]

pub mod again;
pub mod kept;
pub mod merging;
pub mod parsing;
mod rows;
pub mod same;
pub mod shifting;
pub mod typing;
mod unchanged;
pub mod updating;

pub use kept::KeptTree;
pub use typing::{TypedAgain, TypedOn, type_files_again, type_files_on};
