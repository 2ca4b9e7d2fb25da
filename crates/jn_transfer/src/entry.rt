//! The environment at a body's entry.
ghost use Rattle.std.specs.Prelude.{◌≡◌, ◌<◌, ◌++◌, IfOk, OnOk, Some, length};
ghost use Rattle.jn_points.specs.Lookup.{method_at};
ghost use Rattle.jn_sigs.specs.Signature.{slot_quals};
ghost use Rattle.jn_transfer.specs.Transfer.{given_quals, this_qual, entry_env};
ghost use Rattle.jn_env.specs.Sized.{EnvSized};

use crate::analysis::Analysis;
use crate::lookup::slot_qual;
use jn_base::{OutOfMemory, SlotNo};
use jn_env::Env;
use jn_points::{Body, Method, Program};
use jn_quals::Qual;
use jn_sigs::Sig;
use std::alloc::{AllocError, Global};

/// What is known before a body runs: parameters and receiver as their slots say, a constructor's
/// object free, no facts, nothing assigned.
///
/// # Errors
/// No memory was found.
pub fn entry(alloc: Global, analysis: &Analysis) -> Result<Env, OutOfMemory>
    requires inside { analysis.now.body < length analysis.now.program.bodies }
    ensures is { IfOk result
        (λ env. env ≡ entry_env analysis.now.program analysis.now.sig analysis.now.body) }
    ensures sized { IfOk result (λ env. EnvSized analysis.now.program analysis.now.body env) }
{
    let program = analysis.program();
    let sig = analysis.sig();
    let body = analysis.body();
    let info = &program.bodies.as_slice()[body.0 as usize];
    let given = given_by(alloc, program, sig, info)?;
    let mut env = Env::empty(alloc, program, body, analysis.keys())?;
    env.give(&given);
    Ok(env)
}

/// What the body is given.
fn given_by(
    alloc: Global,
    program: &Program,
    sig: &Sig,
    body: &Body,
) -> Result<Vec<Qual>, AllocError>
    ensures { IfOk result
        (λ quals. quals.items ≡ given_quals sig.now (method_at program.now body.now.method.0)) }
{
    match program.methods.as_slice().get(body.method.0 as usize) {
        None => Ok(Vec::new(alloc)),
        Some(method) => given_quals(alloc, sig, method),
    }
}

/// What a body of the method is given.
fn given_quals(alloc: Global, sig: &Sig, method: &Method) -> Result<Vec<Qual>, AllocError>
    ensures { IfOk result (λ quals. quals.items ≡ given_quals sig.now (Some method.now)) }
{
    let mut quals = Vec::new(alloc);
    if !method.is_static {
        quals.push(this_qual(sig, method))?;
    }
    push_slots(&mut quals, sig, method.param_slots.as_slice())?;
    Ok(quals)
}

fn this_qual(sig: &Sig, method: &Method) -> Qual
    ensures { result ≡ this_qual sig.now (Some method.now) }
{
    if method.ctor {
        Qual::free_only()
    } else {
        slot_qual(sig, method.receiver)
    }
}

fn push_slots(quals: &mut Vec<Qual>, sig: &Sig, slots: &[Option<SlotNo>]) -> Result<(), AllocError>
    ensures { OnOk result (quals.new.items ≡ quals.old.items ++ slot_quals sig.now slots.now) }
{
    for slot in slots {
        quals.push(slot_qual(sig, *slot))?;
    }
    Ok(())
}
