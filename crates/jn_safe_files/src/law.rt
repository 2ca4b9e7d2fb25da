//! Laws of safe files.
ghost use Rattle.std.specs.Prelude.{List, ℕ};
ghost use Rattle.jn_base.specs.declared.infer.Infer.{Infer};
ghost use Rattle.jn_quals.specs.Qualifier.{Qualifier};
ghost use Rattle.jn_points.specs.declared.program.Program.{Program};
ghost use Rattle.jn_heap.specs.Runs.{NeverNull};
ghost use Rattle.jn_soundness.specs.Accepting.{IsAccepted};
ghost use Rattle.jn_progress_law.specs.Progress.{NeverStuck};
ghost use Rattle.jn_meaning_law.specs.Safety.{NeverNullByTrees, NeverStuckByTrees};
ghost use Rattle.jn_cert_law.specs.Holds.{KeepsWritten};
ghost use Rattle.jn_front.specs.declared.source.SourceFile.{SourceFile};
ghost use Rattle.jn_phases.specs.Phases.{TypedProgramOf};
ghost use Rattle.jn_safe_files.specs.Safe.{BreaksNone, CallersSafe, IsSafe, trees_of};

use jn_caller_law::law::accepted_programs_are_safe_for_callers;
use jn_least_law::law::{
    programs_have_a_least_signature, what_is_accepted_is_accepted_under_the_least,
};
use jn_meaning_law::law::accepted_files_are_safe_by_trees;
use jn_progress_law::law::{accepted_programs_never_fault, accepted_programs_never_stick};

/// No run of files whose program breaks no rule dereferences null, and none gets stuck. Nor does the meaning of their trees come to a
/// null, with any words, any texts of strings, any longest length and any fuel, and it is always there. Every caller of their methods and
/// constructors is safe.
pub fn accepted_files_are_safe()
    ensures null { (infer : Infer) (files : List SourceFile) (names : List (List ℕ)) (P : Program)
        → TypedProgramOf infer files names P → BreaksNone P → NeverNull P }
    ensures stuck { (infer : Infer) (files : List SourceFile) (names : List (List ℕ)) (P : Program)
        → TypedProgramOf infer files names P → BreaksNone P → NeverStuck P }
    ensures trees_null { (infer : Infer) (files : List SourceFile) (names : List (List ℕ)) (P : Program)
        (typed : TypedProgramOf infer files names P)
        → BreaksNone P → NeverNullByTrees P (trees_of infer files names P typed) }
    ensures trees_stuck { (infer : Infer) (files : List SourceFile) (names : List (List ℕ)) (P : Program)
        (typed : TypedProgramOf infer files names P)
        → NeverStuckByTrees P (trees_of infer files names P typed) }
    ensures callers { (infer : Infer) (files : List SourceFile) (names : List (List ℕ)) (P : Program)
        → TypedProgramOf infer files names P → BreaksNone P → CallersSafe P }
    ensures safe { (infer : Infer) (files : List SourceFile) (names : List (List ℕ)) (P : Program)
        → TypedProgramOf infer files names P → BreaksNone P → IsSafe infer files }
{
    accepted_programs_never_fault();
    accepted_programs_never_stick();
    accepted_files_are_safe_by_trees();
    accepted_programs_are_safe_for_callers();
}

/// A program that is accepted under some signature that keeps what is written, as a certificate shows, breaks no rule under the least
/// one; so its files are safe in the same sense.
pub fn files_accepted_under_some_signature_are_safe()
    ensures none { (P : Program) (s : List Qualifier) → IsAccepted P s → KeepsWritten P s
        → BreaksNone P }
    ensures safe { (infer : Infer) (files : List SourceFile) (names : List (List ℕ)) (P : Program)
        (s : List Qualifier)
        → TypedProgramOf infer files names P → IsAccepted P s → KeepsWritten P s
        → IsSafe infer files }
{
    programs_have_a_least_signature();
    what_is_accepted_is_accepted_under_the_least();
    accepted_files_are_safe();
}
