//! What base typing looks up in a program.
ghost use Rattle.std.specs.Prelude.{◌≡◌, ◌<◌, length, MatchOption, None, Some};
ghost use Rattle.jn_points.specs.Lookup as spec;

use jn_points::lookup::method_in;
use jn_points::{BaseType, Body, Point, Program};

/// The body at a place.
pub fn body_of(program: &Program, body: usize) -> &Body
    requires { body < length program.now.bodies }
    ensures { spec.body_at program.now body ≡ Some result.now }
{
    &program.bodies.as_slice()[body]
}

/// The point at a place of the body at a place.
pub fn point_of(program: &Program, body: usize, point: usize) -> Option<&Point>
    ensures { MatchOption result (spec.point_at program.now body point ≡ None)
        (λ p. spec.point_at program.now body point ≡ Some p.now) }
{
    match program.bodies.as_slice().get(body) {
        None => None,
        Some(info) => info.points.as_slice().get(point),
    }
}

/// The base type of what the body at a place returns; Void where it returns no value.
pub fn result_base(program: &Program, body: usize) -> BaseType
    ensures { result ≡ spec.result_base_of (spec.method_in program.now body) }
{
    match method_in(program, body) {
        None => BaseType::Void,
        Some(method) => method.result,
    }
}
