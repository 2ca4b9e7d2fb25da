//! Accepting a program.
ghost use Rattle.std.specs.Prelude.{◌≡◌, [], IfOk, IfErr};
ghost use Rattle.jn_accept.specs.Accepting.{AreRowsOf};
ghost use Rattle.jn_transfer.specs.Closing.{IsClosed, IsNotBelowStart};

use crate::accepted::Accepted;
use jn_base::Row;
use jn_index::BaseTyped;
use jn_sigs::Sig;

/// Accepts a base-typed program under a signature exactly where there is no row; else gives both back. The rows are those
/// of the rules under the least tables, in any order; the signature has all that the bodies send under them and that overriding methods send, and is not
/// below the start signature. Takes no memory.
///
/// # Errors
///
/// The program and its signature, where a rule is broken.
pub fn accept(base: BaseTyped, sig: Sig, rows: &[Row]) -> Result<Accepted, (BaseTyped, Sig)>
    requires closed { IsClosed base sig }
    requires starts { IsNotBelowStart base sig }
    requires broken { AreRowsOf base sig rows.now }
    ensures accepted { IfOk result (λ a. (rows.now ≡ []) × (a ≡ (base, sig))) }
    ensures refused { IfErr result (λ r. (rows.now ≡ [] → ⊥) × (r.0 ≡ base) × (r.1 ≡ sig)) }
{
    match rows {
        [] => Ok(Accepted::of(base, sig)),
        _ => Err((base, sig)),
    }
}
