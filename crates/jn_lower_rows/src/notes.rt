//! The annotations among modifiers.
ghost use Rattle.std.specs.Prelude.{◌≡◌, IfOk};
ghost use Rattle.jn_lowering.specs.FileRows.{notes_of, without_override};
ghost use Rattle.jn_lowering.specs.Locals.{annotations_of};

use jn_known::OVERRIDE;
use jn_trees::{Annotation, LocalModifier, Modifier};
use std::alloc::{AllocError, Global};

/// The annotations among the modifiers of a type or a member.
pub fn notes(alloc: Global, modifiers: &[Modifier]) -> Result<Vec<Annotation>, AllocError>
    ensures { IfOk result (λ found. found.items ≡ notes_of modifiers.now) }
{
    let mut found = Vec::new(alloc);
    for modifier in modifiers {
        if let Modifier::Annotation(annotation) = modifier {
            found.push(*annotation)?;
        }
    }
    Ok(found)
}

/// The same without `@Override`, which may stand on a method (JLS 9.6.4.4).
pub fn notes_but_override(
    alloc: Global,
    modifiers: &[Modifier],
) -> Result<Vec<Annotation>, AllocError>
    ensures { IfOk result (λ found. found.items ≡ without_override (notes_of modifiers.now)) }
{
    let mut found = Vec::new(alloc);
    for modifier in modifiers {
        if let Modifier::Annotation(annotation) = modifier
            && annotation.name.0 != OVERRIDE.0
        {
            found.push(*annotation)?;
        }
    }
    Ok(found)
}

/// The annotations among the modifiers of a parameter or local.
pub fn local_notes(
    alloc: Global,
    modifiers: &[LocalModifier],
) -> Result<Vec<Annotation>, AllocError>
    ensures { IfOk result (λ found. found.items ≡ annotations_of modifiers.now) }
{
    let mut found = Vec::new(alloc);
    for modifier in modifiers {
        if let LocalModifier::Annotation(annotation) = modifier {
            found.push(*annotation)?;
        }
    }
    Ok(found)
}
