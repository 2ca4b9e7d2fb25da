//! An index looks at classes, fields and methods alone.
ghost use Rattle.std.specs.Prelude.{◌≡◌};
ghost use Rattle.jn_index.specs.Index.{Lists, IsIndex};

use crate::index::Index;
use jn_base::Seq;
use jn_points::{Body, Program, SlotInfo};

/// An index of a program is one of each program with the same classes, fields and methods, whatever
/// its bodies and slots.
#[tactic(auto, using(crate::proofs::Same::same_index))]
pub fn index_of_other_bodies(program: &Program, other: &Program, index: &Index)
    requires is { IsIndex program.now index.now }
    requires classes { program.now.classes ≡ other.now.classes }
    requires fields { program.now.fields ≡ other.now.fields }
    requires methods { program.now.methods ≡ other.now.methods }
    ensures { IsIndex other.now index.now }
{}

/// The program with other bodies; what was its index is the result's.
#[tactic(auto, using(crate::proofs::Same::same_index))]
pub fn with_bodies(program: Program, bodies: Seq<Body>) -> Program
    ensures bodies { result.bodies ≡ bodies }
    ensures classes { result.classes ≡ program.classes }
    ensures fields { result.fields ≡ program.fields }
    ensures methods { result.methods ≡ program.methods }
    ensures slots { result.slots ≡ program.slots }
    ensures index { (x : Lists) → IsIndex program x → IsIndex result x }
{
    Program {
        classes: program.classes,
        fields: program.fields,
        methods: program.methods,
        bodies,
        slots: program.slots,
    }
}

/// The program with other slots; what was its index is the result's.
#[tactic(auto, using(crate::proofs::Same::same_index))]
pub fn with_slots(program: Program, slots: Seq<SlotInfo>) -> Program
    ensures bodies { result.bodies ≡ program.bodies }
    ensures classes { result.classes ≡ program.classes }
    ensures fields { result.fields ≡ program.fields }
    ensures methods { result.methods ≡ program.methods }
    ensures slots { result.slots ≡ slots }
    ensures index { (x : Lists) → IsIndex program x → IsIndex result x }
{
    Program {
        classes: program.classes,
        fields: program.fields,
        methods: program.methods,
        bodies: program.bodies,
        slots,
    }
}
