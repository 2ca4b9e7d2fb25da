//! Laws over the definitions.
ghost use Rattle.std.specs.Prelude.{ℕ, ◌<◌, length};
ghost use Rattle.jn_points.specs.declared.program.Program.{Program as ProgramOf};
ghost use Rattle.jn_points.specs.BaseRows.{NoBaseRows};
ghost use Rattle.jn_points.specs.BaseTyping.{BaseTyped};
ghost use Rattle.jn_points.specs.Regular.{Regular};
ghost use Rattle.jn_points.specs.Shaped.{Shaped};
ghost use Rattle.jn_transfer.specs.Contributions.{FieldSlots};
ghost use Rattle.jn_transfer.specs.Sized.{StaysInside};
ghost use Rattle.jn_soundness.specs.ChainExample.{chain_program};
ghost use Rattle.jn_regular_law.specs.DispatchExample.{dispatch_program};

/// What soundness asks of a program holds of each regular one without a row of base typing.
pub fn regular_programs_are_typed()
    ensures shaped { (P : ProgramOf) → Regular P → Shaped P }
    ensures slots { (P : ProgramOf) → Regular P → FieldSlots P }
    ensures inside { (P : ProgramOf) → Regular P → (b : ℕ) → b < length P.bodies → StaysInside P b }
    ensures typed { (P : ProgramOf) → Regular P → NoBaseRows P → BaseTyped P }
{}

/// The law on regular programs is of use: two examples are regular and have no row of base typing.
/// One has a chain of constructors, a cycle of objects and an array; the other has an interface,
/// overriding, virtual calls, a call of an own constructor, a null test of a field, a static field
/// and points that no path reaches.
pub fn regular_programs_exist()
    ensures chain { Regular chain_program }
    ensures chain_untouched { NoBaseRows chain_program }
    ensures dispatch { Regular dispatch_program }
    ensures dispatch_untouched { NoBaseRows dispatch_program }
{}
