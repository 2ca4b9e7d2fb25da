//! The narrowest text at a byte that a point reads or makes.
ghost use Rattle.std.specs.Prelude.{◌≡◌, ◌<◌, ◌^◌, ◌∷◌, ◌++◌, [], filter, length, map, None, Some};
ghost use Rattle.jn_points.specs.Lookup.{body_at, points_of};
ghost use Rattle.jn_points.specs.Operands.{operand_if, operands};
ghost use Rattle.jn_points.specs.Shaped.{writes};
ghost use Rattle.jn_tables_law.specs.Inferable.{IsInferable};
ghost use Rattle.jn_lsp_hover.specs.Searched as found;
ghost use Rattle.jn_lsp_hover.specs.Spots as spec;

use crate::sought::{Sought, passes};
use crate::spot::Spot;
use jn_annotate::parts::less;
use jn_base::{RegNo, Span};
use jn_points::{Operand, Point, PointKind, writes};

/// How many bytes the text has.
fn width(spot: Spot) -> u32
    ensures { result ≡ spec.width spot }
{
    less(spot.span.to, spot.span.from)
}

/// The one that is narrower; the first where they are as narrow.
fn narrower(best: Option<Spot>, spot: Spot) -> Spot
    ensures { result ≡ found.narrower best spot }
{
    match best {
        None => spot,
        Some(best) => {
            if width(spot) < width(best) {
                spot
            } else {
                best
            }
        }
    }
}

/// The best so far and one more, where the byte is in it.
fn better(sought: &Sought, best: Option<Spot>, spot: Spot) -> Option<Spot>
    ensures { result ≡ found.better sought.now best spot }
{
    if passes(sought, spot) {
        Some(narrower(best, spot))
    } else {
        best
    }
}

/// A point of a body, by their numbers.
#[derive(Clone, Copy)]
struct Place {
    body: u32,
    point: u32,
}

fn read(place: Place, operand: Operand) -> Spot
    ensures { result ≡ spec.read place.body place.point operand }
{
    Spot {
        body: place.body,
        point: place.point,
        reg: operand.reg.0,
        span: operand.span,
        is_made: false,
    }
}

// ---- what a point reads

fn over_one(sought: &Sought, best: Option<Spot>, place: Place, operand: Operand) -> Option<Spot>
    ensures { result
        ≡ found.searched sought.now best
        (map (spec.read place.body place.point) (operand ∷ [])) }
{
    better(sought, best, read(place, operand))
}

fn over_two(
    sought: &Sought,
    best: Option<Spot>,
    place: Place,
    first: Operand,
    second: Operand,
) -> Option<Spot>
    ensures { result
        ≡ found.searched sought.now best
        (map (spec.read place.body place.point) (first ∷ second ∷ [])) }
{
    let best = better(sought, best, read(place, first));
    better(sought, best, read(place, second))
}

fn over_three(
    sought: &Sought,
    best: Option<Spot>,
    place: Place,
    first: Operand,
    second: Operand,
    third: Operand,
) -> Option<Spot>
    ensures { result
        ≡ found.searched sought.now best
        (map (spec.read place.body place.point) (first ∷ second ∷ third ∷ [])) }
{
    let best = better(sought, best, read(place, first));
    over_two(sought, best, place, second, third)
}

/// Over an operand that may be missing.
fn over_maybe(
    sought: &Sought,
    best: Option<Spot>,
    place: Place,
    operand: Option<Operand>,
) -> Option<Spot>
    ensures { result
        ≡ found.searched sought.now best
        (map (spec.read place.body place.point) (operand_if operand)) }
{
    match operand {
        None => best,
        Some(operand) => over_one(sought, best, place, operand),
    }
}

/// Over these operands.
fn over_each(
    sought: &Sought,
    best: Option<Spot>,
    place: Place,
    operands: &[Operand],
) -> Option<Spot>
    ensures { result
        ≡ found.searched sought.now best
        (map (spec.read place.body place.point) operands.now) }
{
    let mut found = best;
    for operand in operands {
        found = better(sought, found, read(place, *operand));
    }
    found
}

/// Over a receiver that may be missing, and arguments.
#[tactic(auto, using(crate::proofs::Searching::two_parts))]
fn over_call(
    sought: &Sought,
    best: Option<Spot>,
    place: Place,
    receiver: Option<Operand>,
    args: &[Operand],
) -> Option<Spot>
    ensures { result
        ≡ found.searched sought.now best
        (map (spec.read place.body place.point) (operand_if receiver ++ args.now)) }
{
    let best = over_maybe(sought, best, place, receiver);
    over_each(sought, best, place, args)
}

/// Over what an operation on a String reads.
fn over_string(
    sought: &Sought,
    best: Option<Spot>,
    place: Place,
    of: Operand,
    other: Option<Operand>,
) -> Option<Spot>
    ensures { result
        ≡ found.searched sought.now best
        (map (spec.read place.body place.point) (of ∷ operand_if other)) }
{
    let best = better(sought, best, read(place, of));
    over_maybe(sought, best, place, other)
}

/// Over all operands of a point.
fn over_operands(
    sought: &Sought,
    best: Option<Spot>,
    place: Place,
    kind: &PointKind,
) -> Option<Spot>
    ensures { result
        ≡ found.searched sought.now best
        (map (spec.read place.body place.point) (operands kind.now)) }
{
    match kind {
        PointKind::Move { from, .. } => over_one(sought, best, place, *from),
        PointKind::Unary { of, .. } => over_one(sought, best, place, *of),
        PointKind::Binary { left, right, .. } => over_two(sought, best, place, *left, *right),
        PointKind::Concat { left, right, .. } => over_two(sought, best, place, *left, *right),
        PointKind::SameRef { left, right, .. } => over_two(sought, best, place, *left, *right),
        PointKind::FieldRead { object, .. } => over_one(sought, best, place, *object),
        PointKind::FieldWrite { object, value, .. } => {
            over_two(sought, best, place, *object, *value)
        }
        PointKind::StaticWrite { value, .. } => over_one(sought, best, place, *value),
        PointKind::ElemRead { array, index, .. } => over_two(sought, best, place, *array, *index),
        PointKind::ElemWrite {
            array,
            index,
            value,
        } => over_three(sought, best, place, *array, *index, *value),
        PointKind::ArrayLen { array, .. } => over_one(sought, best, place, *array),
        PointKind::NewArray { length, .. } => over_one(sought, best, place, *length),
        PointKind::ArrayOf { values, .. } => over_each(sought, best, place, values.as_slice()),
        PointKind::New { args, .. } => over_each(sought, best, place, args.as_slice()),
        PointKind::CtorCall { args, .. } => over_each(sought, best, place, args.as_slice()),
        PointKind::Call { receiver, args, .. } => {
            over_call(sought, best, place, *receiver, args.as_slice())
        }
        PointKind::StrOp { of, other, .. } => over_string(sought, best, place, *of, *other),
        PointKind::Print { of } => over_one(sought, best, place, *of),
        PointKind::Cast { of, .. } => over_one(sought, best, place, *of),
        PointKind::TestInst { of, .. } => over_one(sought, best, place, *of),
        PointKind::TestNull { of, .. } => over_one(sought, best, place, *of),
        PointKind::Branch { of, .. } => over_one(sought, best, place, *of),
        PointKind::Return { value } => over_maybe(sought, best, place, *value),
        PointKind::Const { .. } => best,
        PointKind::StaticRead { .. } => best,
        PointKind::Goto { .. } => best,
    }
}

// ---- what a point makes

fn over_made(
    sought: &Sought,
    best: Option<Spot>,
    place: Place,
    span: Span,
    reg: RegNo,
) -> Option<Spot>
    ensures { result
        ≡ found.searched sought.now best (spec.made place.body place.point span (Some reg.0)) }
{
    let spot = Spot {
        body: place.body,
        point: place.point,
        reg: reg.0,
        span,
        is_made: true,
    };
    better(sought, best, spot)
}

fn over_result(sought: &Sought, best: Option<Spot>, place: Place, point: &Point) -> Option<Spot>
    ensures { result
        ≡ found.searched sought.now best
        (spec.made place.body place.point point.now.span (writes point.now.kind)) }
{
    match writes(&point.kind) {
        None => best,
        Some(reg) => over_made(sought, best, place, point.span, reg),
    }
}

// ---- all points

#[tactic(auto, using(crate::proofs::Searching::searched_both))]
fn over_point(sought: &Sought, best: Option<Spot>, place: Place, point: &Point) -> Option<Spot>
    ensures { result
        ≡ found.searched sought.now best
        (spec.spots_of_point place.body place.point point.now) }
{
    let best = over_operands(sought, best, place, &point.kind);
    over_result(sought, best, place, point)
}

fn over_points(sought: &Sought, best: Option<Spot>, body: u32, points: &[Point]) -> Option<Spot>
    requires short { length points.now < 2 ^ 32 }
    ensures { result
        ≡ found.searched sought.now best (spec.spots_of_points body 0 points.now) }
{
    let mut found = best;
    for at in 0..points.len() {
        let place = Place {
            body,
            point: at as u32,
        };
        found = over_point(sought, found, place, &points[at]);
    }
    found
}

fn over_body(sought: &Sought, best: Option<Spot>, body: u32) -> Option<Spot>
    requires inside { body < length sought.now.program.now.bodies }
    requires short { length (points_of (body_at sought.now.program.now body)) < 2 ^ 32 }
    ensures { result
        ≡ found.searched sought.now best
        (spec.spots_of_points body 0 (points_of (body_at sought.now.program.now body))) }
{
    let info = &sought.program.bodies.as_slice()[body as usize];
    over_points(sought, best, body, info.points.as_slice())
}

fn over_bodies(sought: &Sought) -> Option<Spot>
    requires inferable { IsInferable sought.now.program.now }
    ensures { result
        ≡ found.searched sought.now None (spec.spots_of sought.now.program.now) }
{
    let mut found = None;
    for body in 0..sought.program.bodies.len() {
        found = over_body(sought, found, body as u32);
    }
    found
}

/// The narrowest text at the byte that a point reads or makes: the first by body, point and operand of those that are as narrow. None where no such
/// text has the byte.
pub fn narrowest(sought: &Sought) -> Option<Spot>
    requires inferable { IsInferable sought.now.program.now }
    ensures { spec.IsNarrowestOf
        (filter (spec.is_there sought.now.program.now sought.now.file sought.now.text.now
        sought.now.offset) (spec.spots_of sought.now.program.now)) result }
{
    over_bodies(sought)
}
