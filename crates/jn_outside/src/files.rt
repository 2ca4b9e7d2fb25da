//! A source of files, and a whole read by counts of faults.
ghost use Rattle.std.specs.Prelude.{◌≡◌, ◌<◌, ◌≤◌, ◌^◌, ◌+◌, ℕ, List, [], ◌∷◌, ◌++◌, length, take, Option, IfOk, OnOk, OnErr, IsOk, IsSome, ◌≢◌, Err, ◌-◌};
ghost use Rattle.jn_outside.specs.Causes.{Rose, HasCause};
ghost use Rattle.jn_outside.specs.Gave.{given, with_start, with_read, GivesBehind, GivesTooMany, GivesLittle};
ghost use Rattle.jn_outside.specs.declared.given.Given.{Given as SpecGiven};
ghost use Rattle.jn_outside.specs.Files.{Holding, Holds, Starts, Reads, HasRead, HasReadAtMost, Gives, HoldsMore, IsKnownToHoldMore};

use jn_base::Fail;
use std::alloc::Global;

/// A call outside failed, and was counted.
#[derive(Clone, Copy, Debug, PartialEq, Eq, Drop)]
pub struct Failed;

/// Why a file could not be read whole.
#[derive(Clone, Copy, Debug, PartialEq, Eq, Drop)]
pub enum ReadFail {
    /// A call of the source failed.
    Failed,
    /// The file has more bytes than the limit.
    TooLarge,
}

/// A source of files, of which one at a time is read.
pub trait Files {
    /// What each name holds, where it is told.
    ghost held: { Self → Option Holding };

    /// What is left of the file that was started last.
    ghost left: { Self → Option (List ℕ) };

    /// What its calls gave since it was made: the names that were started, in order, with the bytes read of each.
    ghost gave: { Self → List SpecGiven };

    /// While it is steady, each start of a name that it holds and each read succeeds.
    ghost steady: { Self → Type 0 };

    /// How often it has failed; the count stands still at its last value.
    ghost faults: { Self → ℕ };

    /// Chooses the file of this name, at its first byte.
    fn start(&mut self, name: &str) -> Result<(), Failed>
        ensures held { held self.new ≡ held self.old }
        ensures started { OnOk result (Starts (held self.old) name.now (left self.new)) }
        ensures gave { OnOk result (gave self.new ≡ with_start (gave self.old) name.now) }
        ensures spared { OnErr result (gave self.new ≡ gave self.old) }
        ensures steady { steady self.old → Holds (held self.old) name.now
            → IsOk result × steady self.new }
        ensures cause { HasCause (faults self.old) (faults self.new) result };

    /// Puts the next bytes of the file at the buffer's front, and gives their number; none into a
    /// buffer that has room is the end of the file.
    fn read(&mut self, buf: &mut [u8]) -> Result<usize, Failed>
        ensures held { held self.new ≡ held self.old }
        ensures bound { IfOk result (λ n. n ≤ length buf.new) }
        ensures bytes { IfOk result (λ n. Reads (left self.old) (left self.new) n buf.new) }
        ensures gave { IfOk result
            (λ n. gave self.new ≡ with_read (gave self.old) (take n buf.new)) }
        ensures spared { OnErr result (gave self.new ≡ gave self.old) }
        ensures steady { steady self.old → IsOk result × steady self.new }
        ensures cause { HasCause (faults self.old) (faults self.new) result };

    /// What is left is told where it is told what names hold.
    ghost told: { (s : Self) → IsSome (held s) → IsSome (left s) };
}

/// Reads the next piece, of at most `room` bytes, after what was read.
fn read_piece<F: Files>(
    files: &mut F,
    bytes: &mut Vec<u8>,
    room: usize,
) -> Result<usize, Fail<ReadFail>>
    requires { 0 < room }
    ensures held { F.held files.new ≡ F.held files.old }
    ensures later { F.faults files.old ≤ F.faults files.new }
    ensures failed { result ≡ Err (Fail.Refused ReadFail.Failed)
        → Rose (F.faults files.old) (F.faults files.new) }
    ensures always { result ≢ Err (Fail.Refused ReadFail.Failed)
        → F.faults files.new ≡ F.faults files.old }
    ensures small { result ≢ Err (Fail.Refused ReadFail.TooLarge) }
    ensures steady { F.steady files.old
        → (result ≢ Err (Fail.Refused ReadFail.Failed)) × F.steady files.new }
    ensures gave { (added : List ℕ) × GivesBehind (F.gave files.old) (F.gave files.new) room added
        × OnOk result (bytes.new.items ≡ bytes.old.items ++ added) }
    ensures more { IfOk result
        (λ n. (length bytes.new.items ≡ length bytes.old.items + n) × (n ≤ room)) }
    ensures bytes { IfOk result (λ n. (held : Option Holding) (name : List ℕ)
        → HasRead held name bytes.old.items (F.left files.old)
        → HasRead held name bytes.new.items (F.left files.new)) }
    ensures end { IfOk result (λ n. n ≡ 0 → (held : Option Holding) (name : List ℕ)
        → HasRead held name bytes.old.items (F.left files.old) → Gives held name bytes.new.items) }
    ensures few { result ≢ Err (Fail.Refused ReadFail.Failed)
        → (held : Option Holding) (name : List ℕ)
        → HasRead held name bytes.old.items (F.left files.old)
        → HasReadAtMost held name (length bytes.old.items + room) (F.left files.new) }
{
    let mut buf = [0u8; 4096];
    let piece = &mut buf[..room.min(4096)];
    match files.read(piece) {
        Err(_) => Err(Fail::Refused(ReadFail::Failed)),
        Ok(count) => match bytes.extend_from_slice(&piece[..count]) {
            Err(_) => Err(Fail::OutOfMemory),
            Ok(()) => Ok(count),
        },
    }
}

/// The bytes of a file, whole, where they are at most `limit`; no more than `limit + 1` are read.
///
/// It is refused as `Failed` only where the source's count of faults rose, and as `TooLarge`
/// where the file has more bytes than the limit.
pub fn read_whole<F: Files>(
    alloc: Global,
    files: &mut F,
    name: &str,
    limit: u32,
) -> Result<Vec<u8>, Fail<ReadFail>>
    requires { limit < 2 ^ 32 - 1 }
    ensures held { F.held files.new ≡ F.held files.old }
    ensures ok { IfOk result
        (λ bytes. Gives (F.held files.old) name.now bytes.items × (length bytes.items ≤ limit)) }
    ensures too_large { result ≡ Err (Fail.Refused ReadFail.TooLarge)
        → HoldsMore (F.held files.old) name.now limit }
    ensures larger { IsKnownToHoldMore (F.held files.old) name.now limit
        → result ≢ Err (Fail.Refused ReadFail.Failed) → result ≢ Err Fail.OutOfMemory
        → result ≡ Err (Fail.Refused ReadFail.TooLarge) }
    ensures few { result ≢ Err (Fail.Refused ReadFail.Failed)
        → HasReadAtMost (F.held files.old) name.now (limit + 1) (F.left files.new) }
    ensures gave { IfOk result
        (λ bytes. F.gave files.new ≡ F.gave files.old ++ given name.now bytes.items ∷ []) }
    ensures gave_many { result ≡ Err (Fail.Refused ReadFail.TooLarge)
        → GivesTooMany (F.held files.old) name.now limit (F.gave files.old) (F.gave files.new) }
    ensures gave_little { GivesLittle name.now (limit + 1) (F.gave files.old) (F.gave files.new) }
    ensures later { F.faults files.old ≤ F.faults files.new }
    ensures failed { result ≡ Err (Fail.Refused ReadFail.Failed)
        → Rose (F.faults files.old) (F.faults files.new) }
    ensures always { F.faults files.old < F.faults files.new
        → result ≡ Err (Fail.Refused ReadFail.Failed) }
    ensures kept { result ≢ Err (Fail.Refused ReadFail.Failed)
        → F.faults files.new ≡ F.faults files.old }
    ensures steady { F.steady files.old → Holds (F.held files.old) name.now
        → result ≢ Err (Fail.Refused ReadFail.Failed) }
    ensures stays { F.steady files.old → Holds (F.held files.old) name.now → F.steady files.new }
{
    let most = limit as usize;
    if files.start(name).is_err() {
        return Err(Fail::Refused(ReadFail::Failed));
    }
    let mut bytes = Vec::new(alloc);
    while bytes.len() <= most {
        let room = most + 1 - bytes.len();
        if read_piece(files, &mut bytes, room)? == 0 {
            return Ok(bytes);
        }
    }
    Err(Fail::Refused(ReadFail::TooLarge))
}
