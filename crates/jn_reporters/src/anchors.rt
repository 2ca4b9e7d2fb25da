//! Where the text of a code stands.
ghost use Rattle.std.specs.Prelude.{◌≡◌};
ghost use Rattle.jn_reporters.specs.Anchors.{code_anchor};

use jn_base::Code;

/// The anchor of the code's heading in docs/CODES.md.
pub fn code_anchor(code: Code) -> &'static str
    ensures { result.now ≡ code_anchor code }
{
    match code {
        Code::B1 => "b1-b2-b3-limits",
        Code::B2 => "b1-b2-b3-limits",
        Code::B3 => "b1-b2-b3-limits",
        Code::L1 => "l1-to-l7-tokens",
        Code::L2 => "l1-to-l7-tokens",
        Code::L3 => "l1-to-l7-tokens",
        Code::L4 => "l1-to-l7-tokens",
        Code::L5 => "l1-to-l7-tokens",
        Code::L6 => "l1-to-l7-tokens",
        Code::L7 => "l1-to-l7-tokens",
        Code::S1 => "s1-syntax",
        Code::S2 => "s2-too-deep",
        Code::T1 => "t1",
        Code::T2 => "t2",
        Code::T3 => "t3",
        Code::T4 => "t4",
        Code::T5 => "t5",
        Code::T6 => "t6",
        Code::T7 => "t7",
        Code::T8 => "t8",
        Code::T9 => "t9",
        Code::T10 => "t10",
        Code::J1 => "j1",
        Code::J2 => "j2",
        Code::J3 => "j3",
        Code::J4 => "j4",
        Code::J5 => "j5",
        Code::J6 => "j6",
        Code::J7 => "j7-to-j10-base-types",
        Code::J8 => "j7-to-j10-base-types",
        Code::J9 => "j7-to-j10-base-types",
        Code::J10 => "j7-to-j10-base-types",
        Code::Deref => "deref",
        Code::Field => "field",
        Code::FieldInit => "field-init",
        Code::Arg => "arg",
        Code::ArgInit => "arg-init",
        Code::RecvInit => "recv-init",
        Code::Return => "return-return-init",
        Code::ReturnInit => "return-return-init",
        Code::Local => "local-local-init",
        Code::LocalInit => "local-local-init",
        Code::Elem => "elem-elem-init",
        Code::ElemInit => "elem-elem-init",
        Code::NewArray => "new-array",
        Code::CtorFields => "ctor-fields",
        Code::OvrParam => "ovr-param-ovr-receiver-ovr-result",
        Code::OvrReceiver => "ovr-param-ovr-receiver-ovr-result",
        Code::OvrResult => "ovr-param-ovr-receiver-ovr-result",
    }
}
