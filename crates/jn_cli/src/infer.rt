//! The choice of members that are inferred.
ghost use Rattle.std.specs.Prelude.{◌≡◌};
ghost use Rattle.jn_cli.specs.Tables as spec;

use jn_base::{Infer, Text};

/// Whether members that are inferred have the name.
fn is_infer(name: &str) -> bool
    ensures { result ≡ spec.is_infer name.now }
{
    name == "private" || name == "package"
}

/// Whether the name is absent, or one of members that are inferred.
pub fn is_chosen(name: &Option<Text>) -> bool
    ensures { result ≡ spec.is_chosen name.now }
{
    match name {
        None => true,
        Some(name) => is_infer(name.as_str()),
    }
}

/// The members that are inferred; private ones where nothing is said.
pub fn infer_of(name: &Option<Text>) -> Infer
    ensures { result ≡ spec.infer_of name.now }
{
    match name {
        None => Infer::Private,
        Some(name) => {
            if name.as_str() == "package" {
                Infer::Package
            } else {
                Infer::Private
            }
        }
    }
}
