//! Rows J1 to J5: why a file has no points (JLS 8, 6 to 15).
//!
//! `files::file_rows` looks at what stands outside bodies, `bodies::body_rows` at a body, of which `expressions::expression` and
//! `statements::statements` look at the parts. Each adds exactly the rows that `jn_lowering` defines, in their order.
#![tactic(auto)]

pub mod annotations;
pub mod bodies;
pub mod calls;
pub mod entry;
pub mod expressions;
pub mod files;
pub mod initializers;
pub mod members;
pub mod names;
pub mod notes;
pub mod receivers;
pub mod row;
pub mod setting;
pub mod standing;
pub mod statements;
