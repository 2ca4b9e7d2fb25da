//! Files, read whole one after another.
ghost use Rattle.std.specs.Prelude.{◌≡◌, ◌≤◌, ◌<◌, ◌∷◌, [], ◌++◌, cond, length, map, IfOk, OnOk, string_bytes};
ghost use Rattle.jn_outside.specs.Causes.{Rose};
ghost use Rattle.jn_outside.specs.Files.{Holds};
ghost use Rattle.jn_outside.specs.Gave.{GivesLittle};
ghost use Rattle.jn_front.specs.Files.{ReadFrom, StartsOnly, AllHeld, CannotRead, IsReadAs};

use crate::source::{SourceFile, SourceRead};
use jn_base::{Fail, Seq, Text};
use jn_outside::{Failed, Files, ReadFail, read_whole};
use std::alloc::Global;

/// The greatest number of bytes of a file that is checked.
const LIMIT: u32 = 1_048_576;

/// A file of this name, read whole or not.
fn named(alloc: Global, name: &str, bytes: Vec<u8>, whole: bool) -> Result<SourceRead, Fail<Failed>>
    requires { length bytes.items ≤ cond whole 1048576 0 }
    ensures read { IfOk result (IsReadAs name.now bytes.items whole) }
    ensures able { CannotRead result → ⊥ }
{
    match Text::of_str(alloc, name) {
        Ok(name) => Ok(SourceRead {
            file: SourceFile {
                name,
                bytes: Seq::of_vec(bytes),
            },
            whole,
        }),
        Err(_) => Err(Fail::OutOfMemory),
    }
}

/// The file of this name.
fn read_one<F: Files>(alloc: Global, files: &mut F, name: &str) -> Result<SourceRead, Fail<Failed>>
    ensures held { F.held files.new ≡ F.held files.old }
    ensures ok { IfOk result (λ read. ReadFrom (F.held files.old) (name.now ∷ []) (F.gave files.old)
        (F.gave files.new) (read ∷ [])) }
    ensures little { GivesLittle name.now 1048577 (F.gave files.old) (F.gave files.new) }
    ensures later { F.faults files.old ≤ F.faults files.new }
    ensures failed { CannotRead result → Rose (F.faults files.old) (F.faults files.new) }
    ensures always { F.faults files.old < F.faults files.new → CannotRead result }
    ensures kept { (CannotRead result → ⊥) → F.faults files.new ≡ F.faults files.old }
    ensures steady { F.steady files.old → Holds (F.held files.old) name.now → CannotRead result
        → ⊥ }
    ensures stays { F.steady files.old → Holds (F.held files.old) name.now → F.steady files.new }
{
    match read_whole(alloc, files, name, LIMIT) {
        Ok(bytes) => return named(alloc, name, bytes, true),
        Err(Fail::Refused(ReadFail::TooLarge)) => {
            return named(alloc, name, Vec::new(alloc), false);
        }
        Err(Fail::Refused(ReadFail::Failed)) => return Err(Fail::Refused(Failed)),
        Err(Fail::OutOfMemory) => return Err(Fail::OutOfMemory),
    }
}

fn put_read(reads: &mut Vec<SourceRead>, read: SourceRead) -> Result<(), Fail<Failed>>
    ensures put { OnOk result (reads.new.items ≡ reads.old.items ++ read ∷ []) }
    ensures able { CannotRead result → ⊥ }
{
    match reads.push(read) {
        Ok(()) => Ok(()),
        Err(_) => Err(Fail::OutOfMemory),
    }
}

/// The files of these names, in their order; the first that can't be read ends the reading.
pub fn read_all<F: Files>(
    alloc: Global,
    files: &mut F,
    names: &[String],
) -> Result<Vec<SourceRead>, Fail<Failed>>
    ensures held { F.held files.new ≡ F.held files.old }
    ensures ok { IfOk result (λ reads. ReadFrom (F.held files.old) (map string_bytes names.now)
        (F.gave files.old) (F.gave files.new) reads.items) }
    ensures started { StartsOnly (map string_bytes names.now) (F.gave files.old)
        (F.gave files.new) }
    ensures failed { CannotRead result → Rose (F.faults files.old) (F.faults files.new) }
    ensures always { F.faults files.old < F.faults files.new → CannotRead result }
    ensures kept { (CannotRead result → ⊥) → F.faults files.new ≡ F.faults files.old }
    ensures steady { F.steady files.old → AllHeld (F.held files.old) (map string_bytes names.now)
        → CannotRead result → ⊥ }
{
    let mut reads = Vec::new(alloc);
    'names: for name in names {
        let read = read_one(alloc, files, name.as_str())?;
        put_read(&mut reads, read)?;
    }
    Ok(reads)
}
