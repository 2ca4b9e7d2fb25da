//! Whether inference takes a program.
ghost use Rattle.std.specs.Prelude.{◌≡◌, ℕ, ◌-◌, ◌<◌, ◌^◌, length, true};
ghost use Rattle.jn_points.specs.Lookup.{body_at, points_of};
ghost use Rattle.jn_transfer.specs.Sized.{StaysInside};
ghost use Rattle.jn_tables_law.specs.Inferable.{IsInferable};

use jn_base::BodyNo;
use jn_flow::stays_inside;
use jn_points::Program;

fn is_few(count: usize) -> bool
    ensures few { result ≡ true → count < 2 ^ 32 }
    ensures taken { count < 2 ^ 32 → result ≡ true }
{
    count <= u32::MAX as usize
}

fn all_inside(program: &Program) -> bool
    requires { length program.now.bodies < 2 ^ 32 }
    ensures inside { result ≡ true → (b : ℕ) → b < length program.now.bodies
        → StaysInside program.now b × (length (points_of (body_at program.now b)) < 2 ^ 32 - 1) }
    ensures taken { ((b : ℕ) → b < length program.now.bodies
        → StaysInside program.now b × (length (points_of (body_at program.now b)) < 2 ^ 32 - 1))
        → result ≡ true }
{
    for body in 0..program.bodies.len() {
        if !stays_inside(program, BodyNo(body as u32)) {
            return false;
        }
    }
    true
}

/// Whether inference takes the program: its lists have fewer than 2^32 items, and each body has a point, fewer than 2^32 - 1 of them, and
/// edges that stay in it. A body of a regular program may have one point more; a caller that knows of a regular program needs no test.
#[tactic(auto, using(jn_tables_law::proofs::Inferring::tested_inferable))]
pub fn is_inferable(program: &Program) -> bool
    ensures inferable { result ≡ true → IsInferable program.now }
    ensures taken { IsInferable program.now
        → ((b : ℕ) → b < length program.now.bodies
        → length (points_of (body_at program.now b)) < 2 ^ 32 - 1)
        → result ≡ true }
{
    let few = is_few(program.classes.len())
        && is_few(program.fields.len())
        && is_few(program.methods.len())
        && is_few(program.bodies.len())
        && is_few(program.slots.len());
    if !few {
        return false;
    }
    all_inside(program)
}
