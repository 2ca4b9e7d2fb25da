//! Programs as points: classes, members and slots, and bodies of one operation a point; what is regular, and base typing (JLS 8, 4 to 15).
//!
//! A [`Program`] has classes, fields, methods and slots, and bodies whose [`Point`]s are one operation on registers each; [`edges`] gives
//! where a point leads, [`writes`] what it writes. [`method_of`], [`field_of`], [`dispatch`] and [`is_pair`] are the look-ups of members (JLS 8), each equal to its
//! definition in `specs/Members.antt`. `specs/Regular.antt` says which programs are regular, `specs/BaseTyping.antt` which are base-typed.
#![tactic(auto)]

ghost use Rattle.std.specs.Prelude.{◌≡◌, ◌<◌, ◌^◌, ◌-◌, length, slice_get, MatchOption, None, Some};
ghost use Rattle.jn_points.specs.Edges.{edges_at, two};
ghost use Rattle.jn_points.specs.Shaped.{writes};

pub mod leads;
pub mod lookup;
pub mod members;
pub mod pairs;
pub mod point;
pub mod program;

use jn_base::{PointNo, RegNo};
pub use leads::Edges;
pub use members::{dispatch, field_of, has_field, is_sub, is_subclass, method_of};
pub use pairs::is_pair;
pub use point::{
    BaseType, Elem, Literal, Operand, Operator, Origin, Point, PointKind, StrOperation,
};
pub use program::{Body, Class, Field, Method, Program, SlotInfo};

/// The edges of the body's point.
pub fn edges(body: &Body, at: PointNo) -> Edges
    requires inside { at.0 < length body.now.points }
    requires small { at.0 < 2 ^ 32 - 1 }
    ensures { result ≡ edges_at (slice_get body.now.points at.0) at.0 }
{
    let PointNo(place) = at;
    let points = body.points.as_slice();
    let next = Edges {
        first: Some(PointNo(place + 1)),
        second: None,
    };
    match &points[place as usize].kind {
        PointKind::TestInst { yes, no, .. } => two(*yes, *no),
        PointKind::TestNull { null, non_null, .. } => two(*null, *non_null),
        PointKind::Branch { yes, no, .. } => two(*yes, *no),
        PointKind::Goto { to } => Edges {
            first: Some(*to),
            second: None,
        },
        PointKind::Return { .. } => Edges {
            first: None,
            second: None,
        },
        _ => next,
    }
}

fn two(first: PointNo, second: PointNo) -> Edges
    ensures { result ≡ two first second }
{
    Edges {
        first: Some(first),
        second: Some(second),
    }
}

/// The register that a point writes, if any.
pub fn writes(kind: &PointKind) -> Option<RegNo>
    ensures { MatchOption result (writes kind.now ≡ None) (λ r. writes kind.now ≡ Some r.0) }
{
    match kind {
        PointKind::Const { dst, .. } => Some(*dst),
        PointKind::Move { dst, .. } => Some(*dst),
        PointKind::Unary { dst, .. } => Some(*dst),
        PointKind::Binary { dst, .. } => Some(*dst),
        PointKind::Concat { dst, .. } => Some(*dst),
        PointKind::SameRef { dst, .. } => Some(*dst),
        PointKind::FieldRead { dst, .. } => Some(*dst),
        PointKind::StaticRead { dst, .. } => Some(*dst),
        PointKind::ElemRead { dst, .. } => Some(*dst),
        PointKind::ArrayLen { dst, .. } => Some(*dst),
        PointKind::NewArray { dst, .. } => Some(*dst),
        PointKind::ArrayOf { dst, .. } => Some(*dst),
        PointKind::New { dst, .. } => Some(*dst),
        PointKind::Call { dst, .. } => *dst,
        PointKind::StrOp { dst, .. } => Some(*dst),
        PointKind::Cast { dst, .. } => Some(*dst),
        PointKind::FieldWrite { .. } => None,
        PointKind::StaticWrite { .. } => None,
        PointKind::ElemWrite { .. } => None,
        PointKind::CtorCall { .. } => None,
        PointKind::Print { .. } => None,
        PointKind::TestInst { .. } => None,
        PointKind::TestNull { .. } => None,
        PointKind::Branch { .. } => None,
        PointKind::Goto { .. } => None,
        PointKind::Return { .. } => None,
    }
}
