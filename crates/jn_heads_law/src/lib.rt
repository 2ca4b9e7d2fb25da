//! Laws of what lowering, base typing and the index of members look at: at no place of the class table, but that lowering looks at where the
//! method's own name stands.
#![tactic(auto)]

pub mod law;
