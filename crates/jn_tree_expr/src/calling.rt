//! What calls do: code that enters methods and constructors.
ghost use Rattle.std.specs.Prelude.{◌≡◌};
ghost use Rattle.jn_meaning.specs.Expressions.{Caller};
ghost use Rattle.jn_tree_expr.specs.Meaning.{Calls};
ghost use Rattle.jn_tree_world.specs.Outcomes.{Means};
ghost use Rattle.jn_tree_world.specs.Worlds.{world_of};

use jn_machine::Value;
use jn_tree_world::{Halt, World};
use std::marker::Model;

/// Code that enters methods, where it may be called.
pub trait Enters: Drop {
    /// That it may be called with any arguments.
    ghost callable: { Self → Type 0 };

    /// That what it does is what a call means.
    ghost keeps: { Self → Caller → Type 0 };

    /// Enters the method of this number with these values as its first locals, and gives what its body gives.
    fn run(&self, method: usize, values: Vec<Value>, w: &mut World) -> Result<Option<Value>, Halt>
        requires { callable self.now }
        ensures { (m : Caller) → keeps self.now m
            → Means (m method values.items (world_of w.old)) result (world_of w.new) };
}

impl<F: Fn(usize, Vec<Value>, &mut World) -> Result<Option<Value>, Halt>> Enters for F {
    ghost callable = { λ f. F.IsAlwaysCallable f };

    ghost keeps = { λ f m. Calls F.post f m };

    fn run(&self, method: usize, values: Vec<Value>, w: &mut World) -> Result<Option<Value>, Halt> {
        self(method, values, w)
    }
}

/// Code that enters methods, and may be called with any arguments. Contracts see the code.
#[derive(Drop)]
pub struct Calling<F: Enters> {
    code: F,
}

impl<F: Enters> Model for Calling<F> {
    ghost Value = { F };

    ghost view = { λ calling. calling.code };

    ghost invariant = { λ calling. F.callable calling.code };
}

impl<F: Enters> Calling<F> {
    /// Keeps code that may be called with any arguments.
    pub fn new(code: F) -> Self
        requires { F.callable code }
        ensures { result ≡ code }
    {
        Calling { code }
    }

    /// Enters the method of this number with these values as its first locals, and gives what its body gives.
    pub fn enter(
        &self,
        method: usize,
        values: Vec<Value>,
        w: &mut World,
    ) -> Result<Option<Value>, Halt>
        ensures { (m : Caller) → F.keeps self.now m
            → Means (m method values.items (world_of w.old)) result (world_of w.new) }
    {
        self.code.run(method, values, w)
    }
}
