//! Laws of environments.
ghost use Rattle.std.specs.Prelude.{◌≡◌};
ghost use Rattle.jn_env.specs.Environment.{Env};
ghost use Rattle.jn_env.specs.Order.{EnvWithin, join_env};
ghost use Rattle.jn_env.specs.Size.{SameSize};

/// Environments are in a partial order.
pub fn within_is_an_order()
    ensures reflexive { (a : Env) → EnvWithin a a }
    ensures antisymmetric { (a b : Env) → EnvWithin a b → EnvWithin b a → a ≡ b }
    ensures transitive { (a b c : Env) → EnvWithin a b → EnvWithin b c → EnvWithin a c }
{}

/// The join of two environments of one size is the least that both are within.
pub fn join_is_least()
    ensures left { (a b : Env) → SameSize a b → EnvWithin a (join_env a b) }
    ensures right { (a b : Env) → SameSize a b → EnvWithin b (join_env a b) }
    ensures least { (a b c : Env) → SameSize a b → EnvWithin a c → EnvWithin b c
        → EnvWithin (join_env a b) c }
{}
