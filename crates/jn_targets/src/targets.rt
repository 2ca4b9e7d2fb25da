//! Files that are replaced whole, one after the other.
ghost use Rattle.std.specs.Prelude.{◌≡◌, ◌++◌, ℕ, List, true, IsErr, OnErr, OnOk};
ghost use Rattle.std.specs.List.{list_any};
ghost use Rattle.jn_outside.specs.Causes.{HasCause};
ghost use Rattle.jn_targets.specs.Replacing.{is_one, is_refused, takes_other, ReplacesFirst, with_replaced};
ghost use Rattle.jn_targets.specs.declared.replaced.Replaced.{Replaced as ReplacedOf};

use crate::replaced::Replaced;
use jn_outside::Failed;

/// Files that are replaced.
pub trait Targets {
    /// What was replaced since the targets were made, in order.
    ghost replaced: { Self → List ReplacedOf };

    /// Names that are known to lead to what is there and is no plain file, as a folder, a pipe or a device.
    ghost special: { Self → List (List ℕ) };

    /// Files that are known to have been there when the targets were made.
    ghost there: { Self → List ReplacedOf };

    /// How often a replacement has failed; the count stands still at its last value.
    ghost faults: { Self → ℕ };

    /// Gives the file of this name these bytes, whole, in place of those that it has, if it is there; where it fails, all is as it was.
    /// What is there and is no plain file isn't replaced: that is a fault.
    fn replace(&mut self, name: &str, bytes: &[u8]) -> Result<(), Failed>
        ensures ok { OnOk result
            (replaced self.new ≡ with_replaced (replaced self.old) name.now bytes.now) }
        ensures err { OnErr result (replaced self.new ≡ replaced self.old) }
        ensures plain { is_one (special self.old) name.now ≡ true → IsErr result }
        ensures special { special self.new ≡ special self.old }
        ensures there { there self.new ≡ there self.old }
        ensures cause { HasCause (faults self.old) (faults self.new) result };

    /// Gives the file of this name these bytes as `replace` does, where it isn't there yet, or begins with `front`. Another file isn't
    /// replaced: that is a fault, too.
    fn replace_alike(&mut self, name: &str, front: &[u8], bytes: &[u8]) -> Result<(), Failed>
        ensures ok { OnOk result
            (replaced self.new ≡ with_replaced (replaced self.old) name.now bytes.now) }
        ensures err { OnErr result (replaced self.new ≡ replaced self.old) }
        ensures plain { is_one (special self.old) name.now ≡ true → IsErr result }
        ensures alike { takes_other (there self.old) name.now front.now ≡ true → IsErr result }
        ensures special { special self.new ≡ special self.old }
        ensures there { there self.new ≡ there self.old }
        ensures cause { HasCause (faults self.old) (faults self.new) result };
}

/// Replaces files, one after the other. It fails only where the targets' count of faults rose, and wherever one of the names leads to what
/// is known to be no plain file; the first ones were replaced then.
pub fn replace_all<T: Targets>(targets: &mut T, wanted: &[Replaced]) -> Result<(), Failed>
    ensures ok { OnOk result
        (T.replaced targets.new ≡ T.replaced targets.old ++ wanted.now) }
    ensures err { OnErr result
        (ReplacesFirst (T.replaced targets.old) (T.replaced targets.new) wanted.now) }
    ensures plain { list_any (is_refused (T.special targets.old)) wanted.now ≡ true → IsErr result }
    ensures special { T.special targets.new ≡ T.special targets.old }
    ensures cause { HasCause (T.faults targets.old) (T.faults targets.new) result }
{
    let mut done = 0;
    while done < wanted.len() {
        let file = &wanted[done];
        targets.replace(file.name.as_str(), file.bytes.as_slice())?;
        done += 1;
    }
    Ok(())
}
