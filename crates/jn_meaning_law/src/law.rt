//! Laws of a meaning over trees: of base-typed programs, of files, of accepted files, and of calls from outside.

ghost use Rattle.std.specs.Prelude.{◌<◌, ◌≡◌, Bool, List, [], Some, ℕ};
ghost use Rattle.jn_base.specs.declared.infer.Infer.{Infer};
ghost use Rattle.jn_quals.specs.Qualifier.{Qualifier};
ghost use Rattle.jn_points.specs.BaseRows.{NoBaseRows};
ghost use Rattle.jn_points.specs.Regular.{Regular};
ghost use Rattle.jn_points.specs.declared.program.Program.{Program};
ghost use Rattle.jn_places.specs.Placed.{PlacedFile};
ghost use Rattle.jn_program_law.specs.FileProgram.{inferring, rows_of_files};
ghost use Rattle.jn_program_law.specs.FileSources.{sources as sources_of};
ghost use Rattle.jn_lowering.specs.Bodies.{Source};
ghost use Rattle.jn_lowering.specs.BodyRows.{rows_of_bodies};
ghost use Rattle.jn_heap.specs.Values.{Limits, Prim, Thing, Value, statics_of};
ghost use Rattle.jn_heap.specs.Calls.{selected};
ghost use Rattle.jn_heap.specs.Runs.{MainForm};
ghost use Rattle.jn_soundness.specs.Accepting.{IsAccepted};
ghost use Rattle.jn_meaning.specs.Agreement.{Agree, Agrees, Sourced};
ghost use Rattle.jn_meaning.specs.Bodies.{entered, outer_world, told, tree};
ghost use Rattle.jn_meaning.specs.Expressions.{entered_on};
ghost use Rattle.jn_caller_law.specs.Entries.{Allowed, Call, InstanceCall, begin};
ghost use Rattle.jn_caller_law.specs.Safe.{main_call, words_heap};
ghost use Rattle.jn_caller_law.specs.Whole.{IsWhole};
ghost use Rattle.jn_meaning_law.specs.Calls.{SafeForCallersByTrees, call_tree};
ghost use Rattle.jn_meaning_law.specs.Safety.{NeverNullByTrees, NeverStuckByTrees};

use jn_caller_law::law::accepted_programs_are_safe_for_callers;
use jn_meaning::law::{calls_agree_with_the_machine, trees_agree_with_the_machine};
use jn_progress_law::law::accepted_programs_never_fault;
use jn_regular_law::law::regular_programs_are_typed;

/// A meaning over trees agrees with the machine, in both directions, on text and end of each main of a regular program without
/// rows of base typing, accepted or not, whose bodies are those of its sources, which have no row.
pub fn base_typed_programs_mean_what_they_do()
    ensures { (P : Program) (sources : List Source) (names : List (List ℕ)) (m b : ℕ)
        (limits : Limits) (words : List (List ℕ))
        → Regular P → NoBaseRows P → MainForm P m b → 0 < limits.deepest
        → Sourced P sources → rows_of_bodies P sources ≡ []
        → Agrees P names sources m b limits words }
{
    trees_agree_with_the_machine();
    regular_programs_are_typed();
}

/// So it does for each main of files without rows T1 to T10, J1 to J6 and of base typing, by either choice of members that are
/// inferred: their sources are read off the trees, and the machine runs what lowering gives for them. That their program is regular
/// is a law wherever a class table was built (`jn_program_law`).
pub fn files_mean_what_they_do()
    ensures { (infer : Infer) (files : List PlacedFile) (names : List (List ℕ)) (m b : ℕ)
        (limits : Limits) (words : List (List ℕ))
        → rows_of_files files ≡ [] → Regular (inferring infer files)
        → NoBaseRows (inferring infer files) → MainForm (inferring infer files) m b
        → 0 < limits.deepest
        → Agrees (inferring infer files) names (sources_of files) m b limits words }
{
    trees_agree_with_the_machine();
    regular_programs_are_typed();
}

/// The trees of accepted files never come to a null, with any words, any texts of strings, any fuel, and within any limits; those of
/// files without rows T1 to T10, J1 to J6 and of base typing, accepted or not, always have a meaning.
pub fn accepted_files_are_safe_by_trees()
    ensures null { (infer : Infer) (files : List PlacedFile) (signature : List Qualifier)
        → rows_of_files files ≡ [] → IsAccepted (inferring infer files) signature
        → NeverNullByTrees (inferring infer files) (sources_of files) }
    ensures stuck { (infer : Infer) (files : List PlacedFile)
        → rows_of_files files ≡ [] → Regular (inferring infer files)
        → NoBaseRows (inferring infer files)
        → NeverStuckByTrees (inferring infer files) (sources_of files) }
{
    files_mean_what_they_do();
    accepted_programs_never_fault();
}

/// The trees of a main are those of a call from outside. Where an object's class has the method, a call on the object is what an
/// expression that calls it comes to (JLS 15.12.4.4); of a static method and of `new` that is the definition.
pub fn calls_from_outside_are_those_of_trees()
    ensures mains { (P : Program) (sources : List Source) (names : List (List ℕ)) (limits : Limits)
        (m b : ℕ) (words : List (List ℕ)) (n : ℕ)
        → tree P sources names limits m words n
        ≡ call_tree P sources names limits (words_heap words) (statics_of P.fields) []
        (main_call m b) n }
    ensures selected { (P : Program) (sources : List Source) (names : List (List ℕ))
        (limits : Limits) (heap : List Thing) (statics : List Prim) (out : List ℕ)
        (o m k b : ℕ) (direct : Bool) (args : List Value) (n : ℕ)
        → selected P heap o m direct ≡ Some k
        → told (entered_on P names limits.longest
        (entered P sources names limits.longest limits.deepest n 0) (Some o) m direct (Some args)
        (outer_world heap statics out n))
        ≡ call_tree P sources names limits heap statics out (InstanceCall m o k b args) n }
{}

/// A meaning over trees agrees with the machine on each allowed call from outside over a whole heap, of accepted files without rows
/// T1 to T10 and J1 to J6: of a static method, of the method that an object's class has, or of a constructor.
pub fn calls_from_outside_mean_what_they_do()
    ensures { (infer : Infer) (files : List PlacedFile) (signature : List Qualifier)
        → rows_of_files files ≡ [] → IsAccepted (inferring infer files) signature
        → (heap : List Thing) (statics : List Prim) (c : Call)
        → IsWhole (inferring infer files) signature heap statics
        → Allowed (inferring infer files) signature heap c
        → (names : List (List ℕ)) (limits : Limits) (out : List ℕ) → 0 < limits.deepest
        → Agree (inferring infer files) names
        (begin (inferring infer files) limits statics out heap c)
        (call_tree (inferring infer files) (sources_of files) names limits heap statics out c) }
{
    calls_agree_with_the_machine();
    accepted_programs_are_safe_for_callers();
}

/// So the trees of accepted files are safe for every caller: no allowed call from outside over a whole heap, with any texts of strings,
/// within any limits, with any text printed and any fuel, comes to a null by its trees, or to what has no meaning.
pub fn accepted_files_are_safe_for_callers_by_trees()
    ensures { (infer : Infer) (files : List PlacedFile) (signature : List Qualifier)
        → rows_of_files files ≡ [] → IsAccepted (inferring infer files) signature
        → SafeForCallersByTrees (inferring infer files) (sources_of files) signature }
{
    calls_agree_with_the_machine();
    accepted_programs_are_safe_for_callers();
}
