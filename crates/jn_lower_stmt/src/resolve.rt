//! The points of a body with the places of their labels.
ghost use Rattle.std.specs.Prelude.{◌≡◌, IfOk};
ghost use Rattle.jn_lower_expr.specs.Labels.{given, moved, resolved, resolved_kind};

use jn_base::{OutOfMemory, PointNo};
use jn_points::{Point, PointKind};
use std::alloc::Global;

/// The place of a label; the first point, where it has none.
fn place_of(labels: &[Option<PointNo>], label: PointNo) -> PointNo
    ensures { result ≡ moved (given labels.now) label }
{
    let PointNo(number) = label;
    match labels.get(number as usize) {
        Some(Some(at)) => *at,
        _ => PointNo(0),
    }
}

fn resolve_kind(labels: &[Option<PointNo>], kind: PointKind) -> PointKind
    ensures { result ≡ resolved_kind (given labels.now) kind }
{
    match kind {
        PointKind::TestInst {
            of,
            class,
            origin,
            yes,
            no,
        } => PointKind::TestInst {
            of,
            class,
            origin,
            yes: place_of(labels, yes),
            no: place_of(labels, no),
        },
        PointKind::TestNull {
            of,
            origin,
            null,
            non_null,
        } => PointKind::TestNull {
            of,
            origin,
            null: place_of(labels, null),
            non_null: place_of(labels, non_null),
        },
        PointKind::Branch { of, yes, no } => PointKind::Branch {
            of,
            yes: place_of(labels, yes),
            no: place_of(labels, no),
        },
        PointKind::Goto { to } => PointKind::Goto {
            to: place_of(labels, to),
        },
        other => other,
    }
}

/// The points with each label's place as their targets.
#[tactic(auto, using(jn_lower_expr::proofs::Emitting::resolved_append))]
pub fn resolve(
    alloc: Global,
    points: Vec<Point>,
    labels: &[Option<PointNo>],
) -> Result<Vec<Point>, OutOfMemory>
    ensures { IfOk result (λ out. out.items ≡ resolved (given labels.now) points.items) }
{
    let mut out = Vec::new(alloc);
    for point in points {
        let Point { kind, span } = point;
        match out.push(Point {
            kind: resolve_kind(labels, kind),
            span,
        }) {
            Ok(()) => {}
            Err(_) => return Err(OutOfMemory),
        }
    }
    Ok(out)
}
