//! Programs that differ in places and in what slots start with: they have the same least tables and the same codes of broken rules at the
//! same points, and trees that differ in places are lowered to such programs.
#![tactic(auto)]

pub mod law;
