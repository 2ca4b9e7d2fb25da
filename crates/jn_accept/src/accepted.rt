//! Accepted programs.
ghost use Rattle.std.specs.Prelude.{◌≡◌};

use crate::mains::only_main;
use jn_base::MethodNo;
use jn_index::BaseTyped;
use jn_points::Program;
use jn_progress_law::law::{accepted_programs_never_fault, accepted_programs_never_stick};
use jn_sigs::Sig;
use std::marker::Model;

/// A program that is accepted under a signature: regular and base-typed, the signature closed and not below the start,
/// and no rule broken under it. So no run of a main of it dereferences null or gets stuck. Contracts see the program and
/// the list of qualifiers.
#[derive(Drop)]
pub struct Accepted {
    base: BaseTyped,
    sig: Sig,
}

impl Model for Accepted {
    ghost use Rattle.std.specs.Prelude.{List};
    ghost use Rattle.jn_points.specs.declared.program.Program.{Program as ProgramOf};
    ghost use Rattle.jn_quals.specs.Qualifier.{Qualifier};
    ghost use Rattle.jn_soundness.specs.Accepting.{IsAccepted};

    ghost Value = { ProgramOf × List Qualifier };

    ghost view = { λ a. (a.base, a.sig) };

    ghost invariant = { λ a. IsAccepted a.base a.sig };
}

impl Accepted {
    ghost use Rattle.std.specs.Prelude.{[], ◌<◌, ◌^◌, length, ℕ, MatchOption};
    ghost use Rattle.jn_heap.specs.Runs.{NeverNull};
    ghost use Rattle.jn_transfer.specs.Rules.{Breaks};
    ghost use Rattle.jn_transfer.specs.Closing.{IsClosed, IsNotBelowStart};
    ghost use Rattle.jn_soundness.specs.Accepting.{IsAccepted};
    ghost use Rattle.jn_progress_law.specs.Progress.{NeverStuck};
    ghost use Rattle.jn_accept.specs.Mains.{IsOnlyMain};

    /// Takes a program of which no rule is broken.
    pub(crate) fn of(base: BaseTyped, sig: Sig) -> Accepted
        requires closed { IsClosed base sig }
        requires starts { IsNotBelowStart base sig }
        requires broken { Breaks base sig [] }
        ensures { result ≡ (base, sig) }
    {
        let _program = base.program();
        Accepted { base, sig }
    }

    /// The program. It is accepted, and no run of a main of it dereferences null or gets stuck, within any limits, with
    /// any texts of strings, any words and any number of steps.
    pub fn program(&self) -> &Program
        ensures is { result.now ≡ self.now.0 }
        ensures accepted { IsAccepted self.now.0 self.now.1 }
        ensures never_null { NeverNull self.now.0 }
        ensures never_stuck { NeverStuck self.now.0 }
    {
        accepted_programs_never_fault();
        accepted_programs_never_stick();
        self.base.program()
    }

    /// The signature under which it is accepted.
    pub fn sig(&self) -> &Sig
        ensures { result.now ≡ self.now.1 }
    {
        &self.sig
    }

    /// The one method of the form of a main; None where there is none, or more than one. Takes no memory.
    pub fn main(&self) -> Option<MethodNo>
        ensures { MatchOption result ((m : ℕ) → IsOnlyMain self.now.0 m → ⊥)
            (λ m. IsOnlyMain self.now.0 m.0) }
    {
        only_main(self.program())
    }
}
