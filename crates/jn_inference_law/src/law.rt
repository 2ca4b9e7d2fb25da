//! Laws of inference.
ghost use Rattle.std.specs.Prelude.{◌≡◌, ◌≤◌, ◌+◌, ◌*◌, ℕ, true, List, length, slice_get, [], ◌∷◌};
ghost use Rattle.jn_tables_law.specs.CoveredSend.{CoveredSend};
ghost use Rattle.jn_contrib.specs.Sends.{body_sends};
ghost use Rattle.jn_env.specs.Order.{Table, QualsWithin};
ghost use Rattle.jn_inference_law.specs.BodiesAlone.{IsLeastOfBodies};
ghost use Rattle.jn_tables_law.specs.Inferable.{IsInferable, least_sends};
ghost use Rattle.jn_inference_law.specs.Inference.{inference};
ghost use Rattle.jn_tables_law.specs.Tasks.{task_count};
ghost use Rattle.jn_inference_law.specs.OpenExamples.{widened, escaping};
ghost use Rattle.jn_inference_law.specs.Reading.{Agree, pair_reads};
ghost use Rattle.jn_inference_law.specs.Solution.{IsLeastSignature};
ghost use Rattle.jn_points.specs.Regular.{Regular};
ghost use Rattle.jn_points.specs.declared.program.Program.{Program};
ghost use Rattle.jn_quals.specs.Order.{no_qual, committed_only, free_only, null_or_committed};
ghost use Rattle.jn_quals.specs.Qualifier.{Qualifier};
ghost use Rattle.jn_sigs.specs.Packed.{ArePacked, unpacked};
ghost use Rattle.jn_sigs.specs.Signature.{start_signature, OnlyPrivateInferred};
ghost use Rattle.jn_sigtable.specs.System.{IsLawful, limit_of};
ghost use Rattle.jn_transfer.specs.Closing.{NoPrivatePairs};
ghost use Rattle.jn_transfer.specs.Contributions.{IsSent, is_inferred};
ghost use Rattle.jn_transfer.specs.Least.{IsLeastTable};
ghost use Rattle.jn_transfer.specs.Pairs.{pair_sends, overriders};

/// Each regular program can be inferred, and its system keeps the laws of a system.
pub fn regular_programs_are_inferable()
    ensures inferable { (P : Program) → Regular P → IsInferable P }
    ensures lawful { (P : Program) → IsInferable P → IsLawful (inference P) }
{}

/// What the system's bodies output is what they send under their least tables, what its other tasks output is what overriding methods send,
/// and all of it goes to inferred slots alone.
pub fn outputs_are_contributions()
    ensures sends { (P : Program) (s : List Qualifier) (b : ℕ) (t : Table) → IsInferable P
        → IsLeastTable P s b t → least_sends P s b ≡ body_sends P b t }
    ensures inferred { (P : Program) (s : List Qualifier) (b : ℕ) (x : ℕ × Qualifier)
        → IsSent x (least_sends P s b) → is_inferred (slice_get P.slots x.0) ≡ true }
    ensures pairs { (P : Program) (s : List Qualifier) (m : ℕ) (x : ℕ × Qualifier)
        → IsSent x (pair_sends P s m) → is_inferred (slice_get P.slots x.0) ≡ true }
{}

/// An overriding method sends at least as much under a greater signature, and the same under one that agrees on the slots that it reads.
pub fn pair_contributions_are_monotone()
    ensures grow { (P : Program) (s t : List Qualifier) (m : ℕ) (x : ℕ × Qualifier) → QualsWithin s t
        → IsSent x (pair_sends P s m) → CoveredSend x (pair_sends P t m) }
    ensures same { (P : Program) (s t : List Qualifier) (m : ℕ) → Agree s t (pair_reads P m)
        → pair_sends P s m ≡ pair_sends P t m }
{}

/// Where private members alone are inferred, and none of them is of an overriding pair, the least signature is that of bodies alone.
pub fn private_inference_is_of_bodies_alone()
    ensures tasks { (P : Program) (s : List Qualifier) → OnlyPrivateInferred P → NoPrivatePairs P
        → IsLeastOfBodies P s → IsLeastSignature P s }
    ensures bodies { (P : Program) (s : List Qualifier) → OnlyPrivateInferred P → NoPrivatePairs P
        → IsLeastSignature P s → IsLeastOfBodies P s }
{}

/// Workers on a program take each body, and each method that overrides, once at the start, and at most once more for each of the three
/// bits of each slot.
pub fn limits_are_small()
    ensures { (P : Program) (start : List ℕ) → IsInferable P → ArePacked start (length P.slots)
        → unpacked start (length P.slots) ≡ start_signature P
        → limit_of (inference P) start ≤ task_count P * (1 + 3 * length P.slots) }
{}

/// A program has at most one least signature, so what is found of it doesn't depend on who found it.
pub fn least_signatures_are_unique()
    ensures { (P : Program) (s t : List Qualifier) → IsLeastSignature P s → IsLeastSignature P t
        → s ≡ t }
{}

/// Where a parameter that may be null is overridden by one that isn't annotated, the latter may be null, too. Both methods are called
/// nowhere, so what is inferred of them starts as committed.
pub fn an_unwritten_parameter_takes_what_it_overrides()
    ensures overriders { overriders widened ≡ 3 ∷ [] }
    ensures start { start_signature widened
        ≡ committed_only ∷ null_or_committed ∷ committed_only ∷ committed_only ∷ [] }
    ensures sends { pair_sends widened (start_signature widened) 3
        ≡ (3, null_or_committed) ∷ (2, committed_only) ∷ [] }
{}

/// Where a constructor calls a method of its own that a subclass overrides, the overrider's receiver may be free: it starts as committed, since no
/// point names it, and takes what the overridden one's has.
pub fn an_escaping_receiver_reaches_the_overrider()
    ensures overriders { overriders escaping ≡ 3 ∷ [] }
    ensures start { start_signature escaping ≡ no_qual ∷ committed_only ∷ [] }
    ensures sends { pair_sends escaping (free_only ∷ committed_only ∷ []) 3
        ≡ (1, free_only) ∷ [] }
{}
