//! The classes whose methods a method can override or hide (JLS 8.4.8).
ghost use Rattle.std.specs.Prelude.{◌≡◌, ◌++◌, flat_map, IfOk, OnOk};
ghost use Rattle.jn_member_tables.specs.Numbers.{list_at};
ghost use Rattle.jn_declaration_rules.specs.Listed.{candidates};

use jn_base::{ClassNo, Seq};
use jn_index::index::Index as Members;
use std::alloc::{AllocError, Global};

fn push_all(classes: &mut Seq<u32>, more: &[u32]) -> Result<(), AllocError>
    ensures { OnOk result (classes.new ≡ classes.old ++ more.now) }
{
    for class in more {
        classes.push(*class)?;
    }
    Ok(())
}

fn push_walks(index: &Members, classes: &mut Seq<u32>, users: &[u32]) -> Result<(), AllocError>
    ensures { OnOk result
        (classes.new ≡ classes.old ++ flat_map (list_at index.now.walks) users.now) }
{
    for class in users {
        push_all(classes, index.walk(*class))?;
    }
    Ok(())
}

/// Object, and the busy classes along the walks of the owner and of the users.
pub fn candidates(
    alloc: Global,
    index: &Members,
    owner: ClassNo,
    users: &[u32],
) -> Result<Seq<u32>, AllocError>
    ensures { IfOk result (λ classes. classes ≡ candidates index.now owner.0 users.now) }
{
    let mut classes = Seq::new(alloc);
    classes.push(0)?;
    push_all(&mut classes, index.walk(owner.0))?;
    push_walks(index, &mut classes, users)?;
    Ok(classes)
}
