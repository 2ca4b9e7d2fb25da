//! What makes the values of registers.
ghost use Rattle.std.specs.Prelude.{◌≡◌, ◌<◌, IfSome, MatchOption, None, Some};
ghost use Rattle.jn_unkept.specs.Making as spec;

use jn_base::RegNo;
use jn_points::{Body, Point, writes};

/// The point of a number, where the body has it.
pub(crate) fn point_of(body: &Body, point: usize) -> Option<&Point>
    ensures { MatchOption result (spec.point_of body.now point ≡ None)
        (λ p. spec.point_of body.now point ≡ Some p.now) }
{
    body.points.as_slice().get(point)
}

/// Whether the register is that of `this`, a parameter or a local.
pub(crate) fn is_local(body: &Body, reg: u32) -> bool
    ensures { result ≡ spec.is_local body.now reg }
{
    reg < body.locals
}

fn is_reg(reg: u32, written: Option<RegNo>) -> bool
    ensures none { written ≡ None → result ≡ spec.is_reg reg None }
    ensures some { IfSome written (λ r. result ≡ spec.is_reg reg (Some r.0)) }
{
    match written {
        None => false,
        Some(written) => written.0 == reg,
    }
}

fn is_written(body: &Body, reg: u32, point: u32) -> bool
    ensures { result ≡ spec.is_written reg (spec.point_of body.now point) }
{
    match point_of(body, point as usize) {
        None => false,
        Some(info) => is_reg(reg, writes(&info.kind)),
    }
}

/// The last point before that writes the register.
pub(crate) fn maker(body: &Body, before: u32, reg: u32) -> Option<u32>
    ensures { result ≡ spec.maker body.now before reg }
{
    let mut at = before;
    while at > 0 {
        at -= 1;
        if is_written(body, reg, at) {
            return Some(at);
        }
    }
    None
}
