//! Laws of least tables: there is one for each body, it is the least that respects all edges, a greater signature has greater ones, and
//! under a greater one at least as much is sent.
#![tactic(auto)]

pub mod law;
