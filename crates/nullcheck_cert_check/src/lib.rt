//! The checker of certificates: words in, the verdict on a certificate of files out.
//!
//! [`check`] reads a certificate and the files that it is of, makes their program, and judges the certificate by it; it searches for
//! nothing. `specs/Answer.antt` says what each answer means.
#![tactic(auto)]

pub mod certificate;
mod certifying;
mod inputs;
pub mod law;
mod lines;
mod outputs;
pub mod top;
pub mod verdict;

pub use jn_command::Status;
pub use outputs::{MOST_FILES, number_output};
pub use top::check;
