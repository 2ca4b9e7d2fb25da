//! Names, annotations, types and literals.
ghost use Rattle.std.specs.Prelude.{◌≡◌};
ghost use Rattle.jn_renumber.specs.Names.{entry as spec_entry, renumbered_literal};
ghost use Rattle.jn_renumber.specs.Renumbered.{renumbered_name, renumbered_names, renumbered_annotation, renumbered_annotations, renumbered_base};

use jn_base::NameNo;
use jn_trees::{Annotation, Base, Identifier, Literal};

/// The entry of a number; one that has none stays as it is.
pub fn entry(numbers: &[NameNo], name: NameNo) -> NameNo
    ensures { result ≡ spec_entry numbers.now name }
{
    let at = name.0 as usize;
    if at < numbers.len() {
        numbers[at]
    } else {
        name
    }
}

/// Renumbers a name.
pub fn renumber_name(numbers: &[NameNo], name: &mut Identifier)
    ensures { name.new ≡ renumbered_name numbers.now name.old }
{
    name.name = entry(numbers, name.name);
}

/// Renumbers names.
pub fn renumber_names(numbers: &[NameNo], names: &mut Vec<Identifier>)
    ensures { names.new.items ≡ renumbered_names numbers.now names.old.items }
{
    for at in 0..names.len() {
        renumber_name(numbers, &mut names[at]);
    }
}

/// Renumbers an annotation.
pub fn renumber_annotation(numbers: &[NameNo], annotation: &mut Annotation)
    ensures { annotation.new ≡ renumbered_annotation numbers.now annotation.old }
{
    annotation.name = entry(numbers, annotation.name);
}

/// Renumbers annotations.
pub fn renumber_annotations(numbers: &[NameNo], annotations: &mut Vec<Annotation>)
    ensures { annotations.new.items ≡ renumbered_annotations numbers.now annotations.old.items }
{
    for at in 0..annotations.len() {
        renumber_annotation(numbers, &mut annotations[at]);
    }
}

/// Renumbers a type without brackets.
pub fn renumber_base(numbers: &[NameNo], base: &mut Base)
    ensures { base.new ≡ renumbered_base numbers.now base.old }
{
    match base {
        Base::Class(name) => renumber_name(numbers, name),
        Base::Int(_span) => (),
        Base::Boolean(_span) => (),
    }
}

/// Renumbers a literal.
pub fn renumber_literal(numbers: &[NameNo], literal: &mut Literal)
    ensures { literal.new ≡ renumbered_literal numbers.now literal.old }
{
    match literal {
        Literal::Str(name) => {
            *name = entry(numbers, *name);
        }
        Literal::Number(_value) => (),
        Literal::True => (),
        Literal::False => (),
        Literal::Null => (),
    }
}
