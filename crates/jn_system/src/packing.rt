//! Outputs from what is sent.
ghost use Rattle.std.specs.Prelude.{◌≡◌, IfOk, OnOk};
ghost use Rattle.jn_contrib.specs.Sends.{slot_numbers};
ghost use Rattle.jn_inference_law.specs.Packing.{add_bits, packed};

use jn_base::{SlotNo, WordNo};
use jn_quals::{Qual, pack};
use std::alloc::{AllocError, Global};

/// Joins the bits to those that the outputs have for the word.
#[tactic(auto, using(crate::proofs::Outputs::none_more, crate::proofs::Outputs::add_found, crate::proofs::Outputs::add_none))]
fn add_bits(outputs: &mut Vec<(WordNo, u64)>, word: u32, bits: u64) -> Result<(), AllocError>
    ensures { OnOk result (outputs.new.items ≡ add_bits word bits outputs.old.items) }
{
    for at in 0..outputs.len() {
        if outputs[at].0.0 == word {
            outputs[at].1 |= bits;
            return Ok(());
        }
    }
    outputs.push((WordNo(word), bits))?;
    Ok(())
}

/// The outputs of what is sent: for each word that is named its bits.
pub fn pack_sends(alloc: Global, sends: &[(SlotNo, Qual)]) -> Result<Vec<(WordNo, u64)>, AllocError>
    ensures { IfOk result (λ outputs. outputs.items ≡ packed (slot_numbers sends.now)) }
{
    let mut outputs = Vec::new(alloc);
    for (slot, qual) in sends {
        add_bits(&mut outputs, slot.0 / 21, pack(0, slot.0 % 21, *qual))?;
    }
    Ok(outputs)
}
