//! Uses of types and declarations of locals.
ghost use Rattle.std.specs.Prelude.{◌≡◌};
ghost use Rattle.jn_places.specs.PlacedView.{placed_brackets, placed_declarator, placed_declarators, placed_local, placed_optional, placed_type_use};
ghost use Rattle.jn_renumber.specs.Renumbered.{renumbered_brackets, renumbered_declarator, renumbered_declarators, renumbered_local, renumbered_local_mark, renumbered_local_marks, renumbered_optional, renumbered_type_use};

use crate::expressions::renumber;
use crate::names::{renumber_annotation, renumber_annotations, renumber_base, renumber_name};
use jn_base::NameNo;
use jn_trees::{Annotation, Declarator, Expr, LocalDeclaration, LocalModifier, TypeUse};

/// Renumbers the names of an expression, where there is one.
pub fn renumber_optional(numbers: &[NameNo], expression: &mut Option<Box<Expr>>)
    ensures { placed_optional expression.new
        ≡ renumbered_optional numbers.now (placed_optional expression.old) }
{
    match expression {
        None => (),
        Some(expression) => renumber(numbers, expression),
    }
}

/// Renumbers a modifier of a local or parameter.
fn renumber_local_mark(numbers: &[NameNo], modifier: &mut LocalModifier)
    ensures { modifier.new ≡ renumbered_local_mark numbers.now modifier.old }
{
    match modifier {
        LocalModifier::Annotation(annotation) => renumber_annotation(numbers, annotation),
        LocalModifier::Final(_span) => (),
    }
}

/// Renumbers the modifiers of a local or parameter.
pub fn renumber_local_marks(numbers: &[NameNo], modifiers: &mut Vec<LocalModifier>)
    ensures { modifiers.new.items ≡ renumbered_local_marks numbers.now modifiers.old.items }
{
    for at in 0..modifiers.len() {
        renumber_local_mark(numbers, &mut modifiers[at]);
    }
}

/// Renumbers the annotations before brackets, where there are brackets.
fn renumber_brackets(numbers: &[NameNo], array: &mut Option<Vec<Annotation>>)
    ensures { placed_brackets array.new
        ≡ renumbered_brackets numbers.now (placed_brackets array.old) }
{
    match array {
        None => (),
        Some(annotations) => renumber_annotations(numbers, annotations),
    }
}

/// Renumbers the names of a use of a type.
pub fn renumber_type_use(numbers: &[NameNo], type_use: &mut TypeUse)
    ensures { placed_type_use type_use.new
        ≡ renumbered_type_use numbers.now (placed_type_use type_use.old) }
{
    renumber_base(numbers, &mut type_use.base);
    renumber_brackets(numbers, &mut type_use.array);
}

/// Renumbers a declared name, with those of its value if it has one.
pub fn renumber_declarator(numbers: &[NameNo], declarator: &mut Declarator)
    ensures { placed_declarator declarator.new
        ≡ renumbered_declarator numbers.now (placed_declarator declarator.old) }
{
    renumber_name(numbers, &mut declarator.name);
    renumber_optional(numbers, &mut declarator.value);
}

/// Renumbers declared names.
pub fn renumber_declarators(numbers: &[NameNo], declarators: &mut Vec<Declarator>)
    ensures { placed_declarators declarators.new.items
        ≡ renumbered_declarators numbers.now (placed_declarators declarators.old.items) }
{
    for at in 0..declarators.len() {
        renumber_declarator(numbers, &mut declarators[at]);
    }
}

/// Renumbers the names of a declaration of locals.
pub fn renumber_local(numbers: &[NameNo], declaration: &mut LocalDeclaration)
    ensures { placed_local declaration.new
        ≡ renumbered_local numbers.now (placed_local declaration.old) }
{
    renumber_local_marks(numbers, &mut declaration.modifiers);
    renumber_type_use(numbers, &mut declaration.type_use);
    renumber_declarator(numbers, &mut declaration.first);
    renumber_declarators(numbers, &mut declaration.more);
}
