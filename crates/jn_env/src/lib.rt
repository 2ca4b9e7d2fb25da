//! Environments: what is known of each register, field and assignment at a point, and tables of them.
#![tactic(auto)]

pub mod bits;
pub mod chains;
pub mod env;
pub mod keys;
pub mod law;
pub mod lists;
pub mod owned;
pub mod packed;
pub mod table;
pub mod words;

pub use env::Env;
pub use keys::{FieldKey, Keys, find_keys, find_keys_by};
pub use lists::{FactKeys, FieldNumbers};
pub use owned::OwnFields;
pub use table::{FlowTable, env_at};
