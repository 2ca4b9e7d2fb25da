//! The files of the host, each put in place by a whole file beside it that takes its name.
ghost use Rattle.std.specs.Prelude.{◌≡◌, ◌≤◌, []};
ghost use Rattle.jn_outside.specs.Causes.{Rose};

use crate::beside::{Hindrance, check_front, replace_file};
use crate::replaced::{Replaced, with_replaced};
use crate::targets::Targets;
use jn_outside::{Failed, Told};
use std::alloc::Global;
use std::fs::File;
use std::{io, rt};

/// What the host's targets failed at, for a message to a person; no clause speaks of it.
#[derive(Drop)]
pub struct TargetFault {
    /// The name of the file that is as it was, where memory was found for it.
    pub name: Option<String>,
    /// The operating system's reason, or what stands in the way.
    pub reason: io::Error,
    /// The file beside it that stands in the way, where one does: it is to be removed.
    pub left: Option<String>,
}

/// The files of the host. Its count of faults rises at each `Err`. What is there, and what is no plain file, isn't known before the host is asked.
#[derive(Drop)]
pub struct HostTargets<'a, R: rt::Files<File = File>> {
    rt: &'a R,
    alloc: Global,
    names: Vec<String>,
    fault: Option<TargetFault>,
    faults: u64,
    replaced: Told<Replaced>,
}

impl<'a, R: rt::Files<File = File>> HostTargets<'a, R> {
    /// Targets with no fault counted, of which none was replaced.
    pub fn new(rt: &'a R, alloc: Global) -> HostTargets<'a, R>
        ensures faults { result.faults ≡ 0 }
        ensures replaced { result.replaced.items ≡ [] }
    {
        HostTargets {
            rt,
            alloc,
            names: Vec::new(alloc),
            fault: None,
            faults: 0,
            replaced: Told::none(),
        }
    }

    /// The names of the files that were replaced, in their order, where memory was found for them; no clause speaks of them.
    pub fn names(&self) -> &[String] {
        &self.names
    }

    /// What failed last.
    pub fn fault(&self) -> Option<&TargetFault> {
        self.fault.as_ref()
    }

    /// Keeps the name of a file that was replaced.
    fn keep(&mut self, name: &str)
        ensures replaced { self.new.replaced ≡ self.old.replaced }
        ensures faults { self.new.faults ≡ self.old.faults }
    {
        if let Ok(name) = String::from_str(self.alloc, name) {
            let _kept = self.names.push(name);
        }
    }

    /// Counts a fault at the file of this name.
    fn count(&mut self, name: &str, hindrance: Hindrance)
        ensures replaced { self.new.replaced ≡ self.old.replaced }
        ensures later { self.old.faults ≤ self.new.faults }
        ensures rose { Rose self.old.faults self.new.faults }
    {
        self.fault = Some(TargetFault {
            name: String::from_str(self.alloc, name).ok(),
            reason: hindrance.reason,
            left: hindrance.left,
        });
        self.faults = self.faults.saturating_add(1);
    }
}

impl<'a, R: rt::Files<File = File>> Targets for HostTargets<'a, R> {
    ghost replaced = { λ s. s.replaced.items };

    ghost special = { λ s. [] };

    ghost there = { λ s. [] };

    ghost faults = { λ s. s.faults };

    fn replace(&mut self, name: &str, bytes: &[u8]) -> Result<(), Failed> {
        match replace_file(self.rt, self.alloc, name, bytes) {
            Ok(()) => {
                self.keep(name);
                self.replaced = with_replaced(&self.replaced, name, bytes);
                Ok(())
            }
            Err(hindrance) => {
                self.count(name, hindrance);
                Err(Failed)
            }
        }
    }

    fn replace_alike(&mut self, name: &str, front: &[u8], bytes: &[u8]) -> Result<(), Failed> {
        match check_front(self.rt, self.alloc, name, front) {
            Ok(()) => self.replace(name, bytes),
            Err(reason) => {
                self.count(name, Hindrance::from(reason));
                Err(Failed)
            }
        }
    }
}
