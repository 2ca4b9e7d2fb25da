//! Which causes have sources that stand.
ghost use Rattle.std.specs.Prelude.{◌≡◌, ◌++◌, ◌∷◌, [], IfOk, OnOk, cond};
ghost use Rattle.jn_env.specs.Order.{env_in};
ghost use Rattle.jn_origins.specs.Standing.{has_bit, is_there, standing};

use crate::adding::is_on;
use crate::slots::table_of;
use jn_base::{BodyNo, PointNo, RegNo, SlotNo};
use jn_env::{Env, FlowTable, env_at};
use jn_reasons::{Cause, Source};
use jn_reasons_law::{Bit, Item};
use jn_sigs::Sig;
use std::alloc::{AllocError, Global};

/// Whether the point is reached and the register has the bit there.
fn has_bit(slots: &[Option<Env>], point: PointNo, reg: RegNo, bit: Bit) -> bool
    ensures { result ≡ has_bit (env_in slots.now point.0) reg.0 bit }
{
    match env_at(slots, point.0 as usize) {
        None => false,
        Some(env) => is_on(env.qual(reg), bit),
    }
}

/// Whether the source stands, or is the text.
fn is_there(sig: &Sig, tables: &[FlowTable], source: Source) -> bool
    ensures { result ≡ is_there sig.now tables.now source }
{
    match source {
        None => true,
        Some(Item::AtSlot(slot, bit)) => is_on(sig.get(SlotNo(slot)), bit),
        Some(Item::AtRegister(body, point, reg, bit)) => has_bit(
            table_of(tables, BodyNo(body)),
            PointNo(point),
            RegNo(reg),
            bit,
        ),
    }
}

/// Adds the cause, where it is wanted.
fn push_if(list: &mut Vec<Cause>, wanted: bool, cause: Cause) -> Result<(), AllocError>
    ensures { OnOk result (list.new.items ≡ list.old.items ++ cond wanted (cause ∷ []) []) }
{
    if wanted {
        list.push(cause)?;
    }
    Ok(())
}

/// Those whose sources stand, or are the text.
pub(crate) fn standing(
    alloc: Global,
    sig: &Sig,
    tables: &[FlowTable],
    causes: &[Cause],
) -> Result<Vec<Cause>, AllocError>
    ensures { IfOk result (λ list. list.items ≡ standing sig.now tables.now causes.now) }
{
    let mut list = Vec::new(alloc);
    for cause in causes {
        let there = is_there(sig, tables, cause.source);
        push_if(&mut list, there, *cause)?;
    }
    Ok(list)
}
