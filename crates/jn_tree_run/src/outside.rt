//! Calls from outside (JLS 15.9 and 15.12), made by the machine or by trees: what a caller holds between them ([`caller`]), which body a call enters and
//! with which values ([`entry`]), and what it prints and comes to ([`calls`]).
pub mod caller;
pub mod calls;
pub mod entry;
