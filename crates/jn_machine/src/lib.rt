//! The machine as code: an interpreter of programs, equal to its definition.
//!
//! [`start`] is the state in which `main` begins, [`step`] one point, [`run`] so many of them; each equals the definition of `jn_heap`.
//! [`step_to`] and [`run_to`] print to a sink on the way. [`members`] and [`straight`] have what points give without a state, for runs
//! by trees too.
#![tactic(auto)]

mod arms;
mod calls;
pub mod frame;
pub mod lists;
pub mod members;
pub mod prim;
pub mod printed;
pub mod runs;
pub mod state;
pub mod steps;
pub mod straight;
pub mod text;
pub mod thing;
pub mod value;

pub use calls::{body_of, defaults, padded, point_at, selected};
pub use frame::Frame;
pub use prim::{End, Got, Plain, Primitive};
pub use printed::{StepFail, run_to, step_to};
pub use runs::{run, start};
pub use state::{MachineState, Stepped};
pub use steps::step;
pub use thing::Thing;
pub use value::Value;
