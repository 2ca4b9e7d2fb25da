//! Bodies of methods and constructors (JLS 8.4.7, 8.8.7 and 12.5).
ghost use Rattle.std.specs.Prelude.{◌≡◌, ◌∷◌, [], ℕ};
ghost use Rattle.jn_heap.specs.Values.{usual_limits};
ghost use Rattle.jn_lowering.specs.Bodies as bodies;
ghost use Rattle.jn_lowering.specs.Bodies.{calls_own};
ghost use Rattle.jn_meaning.specs.Bodies as spec;
ghost use Rattle.jn_meaning.specs.Expressions.{Caller};
ghost use Rattle.jn_places.specs.PlacedView.{placed_members, placed_parameters, placed_statements};
ghost use Rattle.jn_points.specs.Lookup.{ctor_of, method_at};
ghost use Rattle.jn_tree_world.specs.Outcomes.{MeansAs};
ghost use Rattle.jn_tree_world.specs.Worlds.{world_of};
ghost use Rattle.jn_tree_simple.specs.Standings.{flow_of, onward_of};

use crate::construction::{construct, initializers};
use crate::entry::at_entry;
use jn_base::MethodNo;
use jn_lower_stmt::body::Source;
use jn_machine::Value;
use jn_scopes::heads::is_ctor;
use jn_tree_expr::{Calling, Enters};
use jn_tree_simple::{Flow, Site, Standing};
use jn_tree_stmt::execute_all;
use jn_tree_world::{Halt, World};
use jn_trees::{Names, Stmt};

fn is_own_call(tree: &Stmt) -> bool
    ensures { result ≡ calls_own (placed_statements (tree.now ∷ [])) }
{
    match tree {
        Stmt::ThisCall { .. } => true,
        _ => false,
    }
}

/// A written `this(..)` at the beginning (JLS 8.8.7.1).
fn begins_with_own(body: &[Stmt]) -> bool
    ensures { result ≡ calls_own (placed_statements body.now) }
{
    match body {
        [first, ..] => is_own_call(first),
        [] => false,
    }
}

/// A constructor begins with another one's call, then come the initializers, unless that one is of its class (JLS 12.5).
fn begin<F: Enters>(
    source: &Source,
    method: MethodNo,
    b: &Site,
    names: &Names,
    call: &Calling<F>,
    st: &Standing,
    w: &mut World,
) -> Result<(), Halt>
    requires class { b.now.class.0 ≡ bodies.class b.now.program.now method.0 }
    ensures { (turns : ℕ) (m : Caller) → F.keeps call.now m
        → MeansAs onward_of (spec.begins b.now.program.now names.now usual_limits.longest m turns
        method.0 (ctor_of (method_at b.now.program.now method.0)) st.now.scope
        (placed_statements source.now.body.now) (placed_members source.now.members.now)
        (world_of w.old)) result (world_of w.new) }
{
    if !is_ctor(b.program, method) {
        return Ok(());
    }
    construct(source.body, &b.context(&st.scope), names, call, w)?;
    if begins_with_own(source.body) {
        return Ok(());
    }
    initializers(source.members, b, names, call, w)
}

/// What a method's body does, whose loops make at most so many turns.
pub fn execute<F: Enters>(
    source: &Source,
    method: MethodNo,
    turns: u64,
    b: &Site,
    names: &Names,
    call: &Calling<F>,
    w: &mut World,
) -> Result<Flow, Halt>
    requires class { b.now.class.0 ≡ bodies.class b.now.program.now method.0 }
    ensures { (m : Caller) → F.keeps call.now m
        → MeansAs flow_of (spec.body b.now.program.now names.now usual_limits.longest m turns
        method.0 (placed_parameters source.now.parameters.now)
        (placed_statements source.now.body.now) (placed_members source.now.members.now)
        (world_of w.old)) result (world_of w.new) }
{
    let mut st = at_entry(b.alloc, b.program, method, source.parameters)?;
    begin(source, method, b, names, call, &st, w)?;
    execute_all(source.body, b, turns, names, call, &mut st, w)
}

/// What a body gives: a returned value, or none where it falls off its end.
pub fn given(flow: Flow) -> Option<Value>
    ensures { result ≡ spec.given (flow_of flow) }
{
    match flow {
        Flow::Returns(value) => value,
        Flow::Onward | Flow::Breaks | Flow::Continues => None,
    }
}
