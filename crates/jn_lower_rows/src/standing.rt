//! The names that are in scope where a statement stands (JLS 6.3).
ghost use Rattle.std.specs.Prelude.{◌≡◌, ◌++◌, ◌∷◌, ◌≤◌, [], cond, length, take, IfOk, OnOk, Option};
ghost use Rattle.jn_quals.specs.Qualifier.{Qualifier};
ghost use Rattle.jn_lowering.specs.Annotations as annotated;
ghost use Rattle.jn_lowering.specs.Locals.{declares, is_some};
ghost use Rattle.jn_lowering.specs.Scopes.{local_in as found_in};
ghost use Rattle.jn_places.specs.PlacedView.{placed_type_use};
ghost use Rattle.jn_lowering.specs.StatementRows as spec;
ghost use Rattle.jn_scopes.specs.Views.{faults_of, scope_of};
ghost use Rattle.jn_lower_rows.specs.Standing.{Walks, WellKept};

use crate::annotations::{BOTH_KINDS, name_row, type_rows};
use crate::names::base_rows;
use crate::row::push_if;
use crate::setting::Setting;
use jn_base::{ClassNo, Code, RegNo, Row, Seq};
use jn_index::indexed::IndexedProgram;
use jn_points::BaseType;
use jn_scopes::lookup::local_in;
use jn_scopes::members::class_named;
use jn_scopes::{Context, Faults, Variable, Variables};
use jn_trees::{Annotation, Base, Identifier, TypeUse};
use std::alloc::{AllocError, Global};

/// What is the same in a whole body.
#[derive(Clone, Copy)]
pub struct Place<'a> {
    pub program: &'a IndexedProgram,
    pub class: ClassNo,
    pub at: Setting,
    pub alloc: Global,
}

/// The names in scope, the last declared one last, and the rows of their declared types.
#[derive(Drop)]
pub struct Names {
    pub scope: Variables,
    pub faults: Vec<Row>,
}

/// How many names and rows there were.
#[derive(Clone, Copy)]
pub struct Mark {
    pub scope: usize,
    pub faults: usize,
}

/// Where the expressions of a statement stand. Rows have no use for registers.
pub fn context<'a>(place: &Place<'a>, names: &'a Names) -> Context<'a>
    ensures { (result.program.now ≡ place.now.program.now) × (result.class ≡ place.now.class)
        × (result.scope.now ≡ names.now.scope)
        × (result.faults.now ≡ names.now.faults.items) }
{
    Context {
        program: place.program,
        scope: &names.scope,
        faults: &names.faults,
        class: place.class,
        first: 0,
        alloc: place.alloc,
    }
}

/// Where the names end.
pub fn mark_of(names: &Names) -> Mark
    ensures { (result.scope ≡ length names.now.scope)
        × (result.faults ≡ length names.now.faults.items) }
{
    Mark {
        scope: names.scope.len(),
        faults: names.faults.len(),
    }
}

/// The names that were declared since then are in scope no more.
pub fn back_to(names: &mut Names, mark: Mark)
    ensures { (names.new.scope ≡ take mark.scope names.old.scope)
        × (names.new.faults.items ≡ take mark.faults names.old.faults.items) }
{
    names.scope.truncate(mark.scope);
    names.faults.truncate(mark.faults);
}

fn add_faults(
    faults: &mut Vec<Row>,
    program: &IndexedProgram,
    base: Base,
) -> Result<Faults, AllocError>
    ensures { IfOk result (λ f. (faults.new.items
        ≡ faults.old.items ++ annotated.base_rows program.now base)
        × (f.from ≡ length faults.old.items) × (f.to ≡ length faults.new.items)) }
{
    let from = faults.len();
    if let Base::Class(name) = base
        && class_named(program, name.name).is_none()
    {
        faults.push(Row {
            span: name.span,
            code: Code::J1,
        })?;
    }
    Ok(Faults {
        from,
        to: faults.len(),
    })
}

/// Whether a local of the name is in scope.
fn is_known(place: &Place, names: &Names, name: Identifier) -> bool
    ensures { result
        ≡ is_some (found_in (scope_of names.now.faults.items names.now.scope) name.name.0) }
{
    local_in(&context(place, names), name.name).is_some()
}

/// Brings a local into scope.
pub(crate) fn put(scope: &mut Variables, variable: Variable) -> Result<(), AllocError>
    ensures { OnOk result (scope.new ≡ scope.old ++ variable ∷ []) }
{
    match scope.push(variable) {
        Ok(()) => Ok(()),
        Err(_) => Err(AllocError),
    }
}

fn add(names: &mut Names, known: bool, variable: Variable) -> Result<(), AllocError>
    ensures { OnOk result ((names.new.faults.items ≡ names.old.faults.items)
        × (names.new.scope ≡ names.old.scope ++ cond known [] (variable ∷ []))) }
{
    if !known {
        put(&mut names.scope, variable)?;
    }
    Ok(())
}

/// A local: a name that is in scope already is not declared anew (JLS 6.4).
pub fn declare(
    names: &mut Names,
    place: &Place,
    rows: &mut Seq<Row>,
    name: Identifier,
    base: BaseType,
    fixed: bool,
    faults: Faults,
) -> Result<(), AllocError>
    requires kept { WellKept names.old }
    requires within { faults.to ≤ length names.old.faults.items }
    ensures walks { OnOk result ((bound : Option Qualifier)
        → Walks (λ f st. spec.declared_rows st.scope name.name.0 name.span)
        (λ f st.
        declares st name.name.0 base bound fixed (faults_of names.old.faults.items faults))
        names.old names.new rows.old rows.new) }
    ensures kept { OnOk result (WellKept names.new) }
    ensures same { OnOk result (names.new.faults.items ≡ names.old.faults.items) }
{
    name_row(rows, name)?;
    let known = is_known(place, names, name);
    push_if(rows, known, Code::J1, name.span)?;
    let variable = Variable {
        name: name.name,
        reg: RegNo(0),
        base,
        bound: None,
        fixed,
        faults,
    };
    add(names, known, variable)?;
    Ok(())
}

fn unknown_rows(
    rows: &mut Seq<Row>,
    place: &Place,
    names: &Names,
    base: Base,
) -> Result<(), AllocError>
    ensures { OnOk result (rows.new ≡ rows.old ++ annotated.base_rows place.now.program.now base) }
{
    base_rows(rows, &context(place, names), base)
}

/// A declared type, and its rows for each use of what is declared.
pub fn declare_type(
    names: &mut Names,
    place: &Place,
    rows: &mut Seq<Row>,
    type_use: &TypeUse,
    notes: &[Annotation],
) -> Result<Faults, AllocError>
    requires kept { WellKept names.old }
    ensures walks { IfOk result (λ f. Walks
        (λ n st. annotated.type_rows (placed_type_use type_use.now) annotated.both_kinds notes.now
        ++ annotated.base_rows place.now.program.now type_use.now.base)
        (λ n st. st) names.old names.new rows.old rows.new) }
    ensures faults { IfOk result (λ f. (faults_of names.new.faults.items f
        ≡ annotated.base_rows place.now.program.now type_use.now.base)
        × (f.to ≤ length names.new.faults.items)) }
{
    type_rows(rows, type_use, BOTH_KINDS, notes)?;
    unknown_rows(rows, place, names, type_use.base)?;
    let faults = add_faults(&mut names.faults, place.program, type_use.base)?;
    Ok(faults)
}
