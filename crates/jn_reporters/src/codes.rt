//! All codes of rows, and their order.
ghost use Rattle.std.specs.Prelude.{◌≡◌, ◌<◌};
ghost use Rattle.jn_diag.specs.Order.{code_place};
ghost use Rattle.jn_reporters.specs.Reports.{all_codes};

use jn_base::Code;

/// All codes, in the order of reports.
pub const CODES: [Code; 49] = [
    Code::B1,
    Code::B2,
    Code::B3,
    Code::L1,
    Code::L2,
    Code::L3,
    Code::L4,
    Code::L5,
    Code::L6,
    Code::L7,
    Code::S1,
    Code::S2,
    Code::T1,
    Code::T2,
    Code::T3,
    Code::T4,
    Code::T5,
    Code::T6,
    Code::T7,
    Code::T8,
    Code::T9,
    Code::T10,
    Code::J1,
    Code::J2,
    Code::J3,
    Code::J4,
    Code::J5,
    Code::J6,
    Code::J7,
    Code::J8,
    Code::J9,
    Code::J10,
    Code::Deref,
    Code::Field,
    Code::FieldInit,
    Code::Arg,
    Code::ArgInit,
    Code::RecvInit,
    Code::Return,
    Code::ReturnInit,
    Code::Local,
    Code::LocalInit,
    Code::Elem,
    Code::ElemInit,
    Code::NewArray,
    Code::CtorFields,
    Code::OvrParam,
    Code::OvrReceiver,
    Code::OvrResult,
];

/// All codes, in the order of reports.
#[tactic(auto, unfolding(crate::specs::Reports::all_codes))]
pub fn all() -> [Code; 49]
    ensures { result ≡ all_codes }
{
    CODES
}

/// How many codes stand before this one.
#[tactic(auto, unfolding(jn_diag::specs::Order::code_place))]
pub fn place(code: Code) -> usize
    ensures place { result ≡ code_place code }
    ensures bound { result < 49 }
{
    code as usize
}
