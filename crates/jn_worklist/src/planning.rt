//! Who reads which word.
ghost use Rattle.std.specs.Prelude.{◌≡◌, ◌+◌, ◌<◌, ◌++◌, ◌∷◌, [], length, get_or, replicate, slice_set, IfOk, OnOk};
ghost use Rattle.jn_sigtable.specs.System.{IsReadList};
ghost use Rattle.jn_worklist.specs.Plans.{ArePlanned, plan_of};

use crate::readers::Plan;
use jn_base::{BodyNo, OutOfMemory, Seq, WordNo};
use jn_sigtable::Constraints;
use std::alloc::{AllocError, Global};

fn add_reader(readers: &mut [Seq<BodyNo>], word: WordNo, body: BodyNo) -> Result<(), AllocError>
    requires { word.0 < length readers.old }
    ensures { OnOk result
        (readers.new ≡ slice_set readers.old word.0 (get_or readers.old word.0 [] ++ body ∷ [])) }
{
    readers[word.0 as usize].push(body)?;
    Ok(())
}

// Adds the body to the readers of each of the words that it reads.
#[tactic(auto, using(crate::proofs::PlanSteps::planned_more, crate::proofs::PlanSteps::planned_body, crate::proofs::PlanSteps::word_inside))]
fn add_readers<C: Constraints>(
    system: &C,
    readers: &mut [Seq<BodyNo>],
    words: &[WordNo],
    body: u32,
) -> Result<(), AllocError>
    requires list { IsReadList (C.describe system.now) body words.now }
    requires planned { ArePlanned (C.describe system.now) body [] readers.old }
    ensures { OnOk result (ArePlanned (C.describe system.now) (body + 1) [] readers.new) }
{
    let _system = system;
    for word in words {
        add_reader(readers, *word, BodyNo(body))?;
    }
    Ok(())
}

fn no_readers(alloc: Global, words: u32) -> Result<Vec<Seq<BodyNo>>, AllocError>
    ensures { IfOk result (λ readers. readers.items ≡ replicate words []) }
{
    let mut readers = Vec::new(alloc);
    for _ in 0..words {
        readers.push(Seq::new(alloc))?;
    }
    Ok(readers)
}

#[tactic(auto, using(crate::proofs::PlanSteps::planned_none, crate::proofs::PlanSteps::planned_all))]
fn all_readers<C: Constraints>(alloc: Global, system: &C) -> Result<Vec<Seq<BodyNo>>, OutOfMemory>
    ensures { IfOk result (λ all. all.items ≡ plan_of (C.describe system.now)) }
{
    let mut readers = no_readers(alloc, system.words())?;
    for body in 0..system.bodies() {
        let words = system.words_read(alloc, BodyNo(body))?;
        add_readers(system, &mut readers, &words, body)?;
    }
    Ok(readers)
}

/// The plan of a system: one step for each body and each word that it reads.
pub fn plan<C: Constraints>(alloc: Global, system: &C) -> Result<Plan, OutOfMemory>
    ensures { IfOk result (λ plan. plan ≡ plan_of (C.describe system.now)) }
{
    let readers = all_readers(alloc, system)?;
    Ok(Plan::new(readers))
}
