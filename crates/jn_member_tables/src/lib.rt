//! Tables of what each class has or inherits for a key, found along supertypes.
//!
//! [`tables::find_tables`] gives each class a tree of its entries and those of its supertypes; [`lists::lists_by`] the places of each key
//! in a list. `specs/Along.antt` says what a class has for a key by rounds over its supertypes, `specs/Tables.antt` that the trees have it.
#![tactic(auto)]

pub mod lists;
pub mod nodes;
pub mod tables;
