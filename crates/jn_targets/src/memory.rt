//! Targets in memory, which tell all and fail where they are told to.
ghost use Rattle.std.specs.Prelude.{◌≡◌, [], OnErr, OnOk};
ghost use Rattle.jn_targets.specs.Replacing.{is_one, is_other, takes_other, with_replaced};

use crate::replaced::Replaced;
use crate::targets::Targets;
use jn_base::{Seq, Text};
use jn_outside::Failed;
use std::alloc::{AllocError, Global};

/// Targets in memory: the names and bytes that were put there, in their order.
#[derive(Drop)]
pub struct MemTargets {
    alloc: Global,
    files: Vec<Replaced>,
    /// Names that lead to what is no plain file.
    special: Vec<Text>,
    /// The files that were there before.
    there: Vec<Replaced>,
    /// The number, from 1, of the call that fails; 0 where none does.
    failing: u64,
    calls: u64,
    faults: u64,
}

impl MemTargets {
    /// Targets of which the call of this number fails, from 1; 0 where none does.
    pub fn new(alloc: Global, failing: u64) -> MemTargets
        ensures faults { result.faults ≡ 0 }
        ensures files { result.files.items ≡ [] }
        ensures special { result.special.items ≡ [] }
        ensures there { result.there.items ≡ [] }
    {
        MemTargets::over(alloc, failing, Vec::new(alloc), Vec::new(alloc))
    }

    /// The same, where these names lead to what is no plain file, and these files are there before.
    pub fn over(alloc: Global, failing: u64, special: Vec<Text>, there: Vec<Replaced>) -> MemTargets
        ensures faults { result.faults ≡ 0 }
        ensures files { result.files.items ≡ [] }
        ensures special { result.special ≡ special }
        ensures there { result.there ≡ there }
    {
        MemTargets {
            alloc,
            files: Vec::new(alloc),
            special,
            there,
            failing,
            calls: 0,
            faults: 0,
        }
    }

    /// What was replaced so far, in its order.
    pub fn files(&self) -> &[Replaced]
        ensures { result.now ≡ self.now.files.items }
    {
        &self.files
    }

    fn is_special(&self, name: &str) -> bool
        ensures { result ≡ is_one self.now.special.items name.now }
    {
        self.special.iter().any(|one| name == one.as_str())
    }

    /// Whether a file that is there before has the name, and doesn't begin so.
    fn takes_other(&self, name: &str, front: &[u8]) -> bool
        ensures { result ≡ takes_other self.now.there.items name.now front.now }
    {
        self.there.iter().any(|file| is_other(name, front, file))
    }

    /// Keeps a name and its bytes.
    fn keep(&mut self, name: &str, bytes: &[u8]) -> Result<(), AllocError>
        ensures ok { OnOk result
            (self.new.files.items ≡ with_replaced self.old.files.items name.now bytes.now) }
        ensures err { OnErr result (self.new.files.items ≡ self.old.files.items) }
        ensures special { self.new.special ≡ self.old.special }
        ensures there { self.new.there ≡ self.old.there }
        ensures faults { self.new.faults ≡ self.old.faults }
    {
        let file = Replaced {
            name: Text::of_str(self.alloc, name)?,
            bytes: Seq::of_vec(Vec::from_slice(self.alloc, bytes)?),
        };
        self.files.push(file)?;
        Ok(())
    }
}

/// Whether the file has this name, and doesn't begin so.
fn is_other(name: &str, front: &[u8], file: &Replaced) -> bool
    ensures { result ≡ is_other name.now front.now file.now }
{
    name == file.name.as_str() && !file.bytes.as_slice().starts_with(front)
}

impl Targets for MemTargets {
    ghost replaced = { λ s. s.files.items };

    ghost special = { λ s. s.special.items };

    ghost there = { λ s. s.there.items };

    ghost faults = { λ s. s.faults };

    fn replace(&mut self, name: &str, bytes: &[u8]) -> Result<(), Failed> {
        self.calls = self.calls.saturating_add(1);
        if self.calls == self.failing || self.is_special(name) || self.keep(name, bytes).is_err() {
            self.faults = self.faults.saturating_add(1);
            return Err(Failed);
        }
        Ok(())
    }

    fn replace_alike(&mut self, name: &str, front: &[u8], bytes: &[u8]) -> Result<(), Failed> {
        if self.takes_other(name, front) {
            self.faults = self.faults.saturating_add(1);
            return Err(Failed);
        }
        self.replace(name, bytes)
    }
}
