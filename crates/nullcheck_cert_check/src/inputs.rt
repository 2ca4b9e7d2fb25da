//! A certificate and the files that it is of, as they are read.
ghost use Rattle.std.specs.Prelude.{◌≡◌, ◌<◌, ◌∷◌, map, IfOk, string_bytes};
ghost use Rattle.jn_outside.specs.Causes.{Rose};
ghost use Rattle.jn_front.specs.Files.{AllHeld, CannotRead, StartsOnly};
ghost use Rattle.nullcheck_cert_check.specs.Inputs.{InputsFrom};

use crate::certificate::{CertRead, read_cert};
use jn_base::Fail;
use jn_front::{SourceRead, read_all};
use jn_outside::{Failed, Files};
use std::alloc::Global;

/// A certificate, and the files that it is of.
#[derive(Drop)]
pub(crate) struct Inputs {
    pub cert: CertRead,
    pub reads: Vec<SourceRead>,
}

/// The certificate of this name, and then the files of these names; the first that can't be read ends the reading.
pub(crate) fn read_inputs<F: Files>(
    alloc: Global,
    files: &mut F,
    cert: &str,
    names: &[String],
) -> Result<Inputs, Fail<Failed>>
    ensures ok { IfOk result (λ inputs. InputsFrom (F.held files.old) cert.now
        (map string_bytes names.now) (F.gave files.old) (F.gave files.new) inputs.cert
        inputs.reads.items) }
    ensures started { StartsOnly (cert.now ∷ map string_bytes names.now) (F.gave files.old)
        (F.gave files.new) }
    ensures failed { CannotRead result → Rose (F.faults files.old) (F.faults files.new) }
    ensures always { F.faults files.old < F.faults files.new → CannotRead result }
    ensures kept { (CannotRead result → ⊥) → F.faults files.new ≡ F.faults files.old }
    ensures steady { F.steady files.old
        → AllHeld (F.held files.old) (cert.now ∷ map string_bytes names.now) → CannotRead result
        → ⊥ }
{
    let cert = match read_cert(alloc, files, cert) {
        Ok(cert) => cert,
        Err(fail) => return Err(fail),
    };
    match read_all(alloc, files, names) {
        Ok(reads) => Ok(Inputs { cert, reads }),
        Err(fail) => Err(fail),
    }
}
