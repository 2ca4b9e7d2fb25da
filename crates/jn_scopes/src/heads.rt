//! What a program says of a method, and of the class that declares it, by their numbers.
ghost use Rattle.std.specs.Prelude.{◌≡◌, MatchOption, None, Some};
ghost use Rattle.jn_points.specs.Lookup.{class_info, ctor_of, method_at, params_of, parent_of};
ghost use Rattle.jn_lowering.specs.Bodies as bodies;

use jn_base::{ClassNo, FileNo, MethodNo, Span};
use jn_index::indexed::IndexedProgram;
use jn_points::{BaseType, Class, Method, lookup};

/// The method of a number.
pub fn method_at(program: &IndexedProgram, method: MethodNo) -> Option<&Method>
    ensures { MatchOption result (method_at program.now method.0 ≡ None)
        (λ m. method_at program.now method.0 ≡ Some m.now) }
{
    lookup::method_at(program.program(), method.0 as usize)
}

/// The class of a number.
pub fn class_at(program: &IndexedProgram, class: ClassNo) -> Option<&Class>
    ensures { MatchOption result (class_info program.now class.0 ≡ None)
        (λ c. class_info program.now class.0 ≡ Some c.now) }
{
    lookup::class_info(program.program(), class)
}

/// The class that declares the method.
pub fn class_of(program: &IndexedProgram, method: MethodNo) -> ClassNo
    ensures { result.0 ≡ bodies.class program.now method.0 }
{
    lookup::class_of(program.program(), method)
}

/// Where the method's name stands.
pub fn name_span(program: &IndexedProgram, method: MethodNo) -> Span
    ensures { result ≡ bodies.name_span program.now method.0 }
{
    match method_at(program, method) {
        None => Span {
            file: FileNo(0),
            from: 0,
            to: 0,
        },
        Some(head) => head.span,
    }
}

/// Whether the method is a constructor.
pub fn is_ctor(program: &IndexedProgram, method: MethodNo) -> bool
    ensures { result ≡ ctor_of (method_at program.now method.0) }
{
    match method_at(program, method) {
        None => false,
        Some(head) => head.ctor,
    }
}

/// The types of the method's parameters; none where there is no such method.
pub fn params_of(program: &IndexedProgram, method: MethodNo) -> &[BaseType]
    ensures { result.now ≡ params_of (method_at program.now method.0) }
{
    lookup::params_of(program.program(), method)
}

/// Whether the class is Object or stands right under it: its constructors call no other class's (JLS 8.8.7).
pub fn is_under_object(program: &IndexedProgram, class: ClassNo) -> bool
    ensures { result ≡ bodies.is_under_object (parent_of (class_info program.now class.0)) }
{
    match class_at(program, class) {
        None => true,
        Some(info) => match info.parent {
            None => true,
            Some(parent) => parent.0 == 0,
        },
    }
}
