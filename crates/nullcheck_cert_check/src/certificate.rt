//! A certificate as it is read.
ghost use Rattle.std.specs.Prelude.{◌≡◌, ◌≤◌, ◌<◌, ◌∷◌, [], length, IfOk};
ghost use Rattle.jn_outside.specs.Causes.{Rose};
ghost use Rattle.jn_outside.specs.Files.{Holds};
ghost use Rattle.jn_outside.specs.Gave.{GivesLittle};
ghost use Rattle.jn_front.specs.Files.{CannotRead};
ghost use Rattle.nullcheck_cert_check.specs.Inputs.{CertFrom};

use jn_base::{Fail, Seq};
use jn_outside::{Failed, Files, ReadFail, read_whole};
use std::alloc::Global;

/// The greatest number of bytes of a certificate.
const LIMIT: u32 = 67_108_864;

/// The bytes of a certificate; none where it is larger than a certificate may be.
#[derive(Drop)]
pub struct CertRead {
    pub bytes: Seq<u8>,
    pub whole: bool,
}

/// The certificate of this name.
pub(crate) fn read_cert<F: Files>(
    alloc: Global,
    files: &mut F,
    name: &str,
) -> Result<CertRead, Fail<Failed>>
    ensures held { F.held files.new ≡ F.held files.old }
    ensures ok { IfOk result (λ read.
        CertFrom (F.held files.old) name.now (F.gave files.old) (F.gave files.new) read) }
    ensures little { GivesLittle name.now 67108865 (F.gave files.old) (F.gave files.new) }
    ensures later { F.faults files.old ≤ F.faults files.new }
    ensures failed { CannotRead result → Rose (F.faults files.old) (F.faults files.new) }
    ensures always { F.faults files.old < F.faults files.new → CannotRead result }
    ensures kept { (CannotRead result → ⊥) → F.faults files.new ≡ F.faults files.old }
    ensures steady { F.steady files.old → Holds (F.held files.old) name.now → CannotRead result
        → ⊥ }
    ensures stays { F.steady files.old → Holds (F.held files.old) name.now → F.steady files.new }
{
    match read_whole(alloc, files, name, LIMIT) {
        Ok(bytes) => Ok(CertRead {
            bytes: Seq::of_vec(bytes),
            whole: true,
        }),
        Err(Fail::Refused(ReadFail::TooLarge)) => Ok(CertRead {
            bytes: Seq::new(alloc),
            whole: false,
        }),
        Err(Fail::Refused(ReadFail::Failed)) => Err(Fail::Refused(Failed)),
        Err(Fail::OutOfMemory) => Err(Fail::OutOfMemory),
    }
}
