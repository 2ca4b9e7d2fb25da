//! What a language server shows at a position of a file (Language Server Protocol 3.17, "Hover Request"): what a value may be, and what is written or
//! inferred of a declared name.
//!
//! [`hover_for`] infers the files' program anew. At a position it takes the narrowest text that a point reads or makes ([`search`]), and says
//! what the value may be there by the least table of its body ([`values`]). Where there is none, it takes the field, method or parameter whose name
//! stands there ([`declared`]), and says what its slot has, with the first chain of causes of each bit ([`jn_lsp_solved::Traced::reasons_of`]), as notes say them.
#![tactic(auto)]

pub mod declared;
pub mod hovering;
pub mod law;
pub mod search;
pub mod sought;
pub mod spot;
pub mod values;
pub mod words;

pub use hovering::hover_for;
