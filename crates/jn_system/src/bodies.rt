//! What workers check.
use jn_env::OwnFields;
use jn_points::Program;
use jn_sigs::Sig;

/// The bodies of a program under a signature, with the reference fields of all classes.
#[derive(Clone, Copy)]
pub struct Bodies<'a> {
    pub program: &'a Program,
    pub sig: &'a Sig,
    pub own: &'a OwnFields,
}
