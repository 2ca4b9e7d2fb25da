//! Laws of the transfer.
ghost use Rattle.std.specs.Prelude.{ℕ, List};
ghost use Rattle.jn_quals.specs.Qualifier.{Qualifier};
ghost use Rattle.jn_points.specs.declared.point.PointKind.{PointKind};
ghost use Rattle.jn_points.specs.declared.program.Program.{Program};
ghost use Rattle.jn_env.specs.Environment.{Env};
ghost use Rattle.jn_env.specs.Order.{EnvWithin};
ghost use Rattle.jn_transfer.specs.Transfer.{transfer, IsAmong};
ghost use Rattle.jn_transfer.specs.Covered.{Covered};

/// At each kind of point each edge of an environment is covered by one of each greater environment.
pub fn transfer_is_monotone()
    ensures { (P : Program) (s : List Qualifier) (b : ℕ) (kind : PointKind) (p : ℕ) (e f : Env)
        (x : ℕ × Env)
        → EnvWithin e f → IsAmong x (transfer P s b kind p e)
        → Covered x (transfer P s b kind p f) }
{}
