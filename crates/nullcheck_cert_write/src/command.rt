//! What the words of `write` ask for.
ghost use Rattle.std.specs.Prelude.{◌≡◌, None, Some, map, string_bytes, IfOk};
ghost use Rattle.jn_cli.specs.Cert.{command};
ghost use Rattle.jn_cli.specs.Refused.{IfRefused};
ghost use Rattle.jn_targets.specs.Replacing.{is_one};
ghost use Rattle.nullcheck_cert_write.specs.Words as spec;

use jn_base::Fail;
use jn_cli::{CertCommand, Usage, read_cert};
use std::alloc::Global;

/// Whether the name is that of a Java file.
fn is_java(name: &str) -> bool
    ensures { result ≡ spec.is_java name.now }
{
    name.as_bytes().ends_with(b".java")
}

/// Whether the name is one of these.
fn is_among(name: &str, names: &[String]) -> bool
    ensures { result ≡ is_one (map string_bytes names.now) name.now }
{
    for one in names {
        if name == one.as_str() {
            return true;
        }
    }
    false
}

/// Whether a certificate of this name would take a source's place.
fn takes_source(cert: &str, files: &[String]) -> bool
    ensures { result ≡ spec.takes_source cert.now (map string_bytes files.now) }
{
    is_java(cert) || is_among(cert, files)
}

/// What the words after the program's name ask for: the command `write`, where its certificate takes no source's place.
///
/// # Errors
///
/// `Usage` where they don't ask for it; or no memory was found.
#[tactic(auto, using(crate::proofs::Asking::asks, crate::proofs::Asking::asks_none, crate::proofs::Asking::takes_place))]
pub fn read_write(alloc: Global, words: &[String]) -> Result<CertCommand, Fail<Usage>>
    ensures asked { IfOk result (λ c. spec.write_asked (map string_bytes words.now)
        ≡ Some (command c.infer (string_bytes c.cert) (map string_bytes c.files.items))) }
    ensures usage { IfRefused result (spec.write_asked (map string_bytes words.now) ≡ None) }
{
    match read_cert(alloc, "write", words) {
        Err(fail) => Err(fail),
        Ok(command) => {
            if takes_source(command.cert.as_str(), &command.files) {
                Err(Fail::Refused(Usage))
            } else {
                Ok(command)
            }
        }
    }
}
