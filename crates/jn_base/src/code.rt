//! The codes of report rows.
ghost use Rattle.std.specs.Prelude.{◌≡◌};
ghost use Rattle.jn_base.specs.Codes.{code_name, code_text};

/// A code of a report row, in the order of reports.
#[derive(Clone, Copy, Debug, PartialEq, Eq, PartialOrd, Ord)]
pub enum Code {
    /// `B1`: too many files.
    B1,
    /// `B2`: file too large.
    B2,
    /// `B3`: files too large.
    B3,
    /// `L1`: not UTF-8.
    L1,
    /// `L2`: Unicode escape.
    L2,
    /// `L3`: bad character.
    L3,
    /// `L4`: open comment.
    L4,
    /// `L5`: open string.
    L5,
    /// `L6`: bad escape.
    L6,
    /// `L7`: bad number.
    L7,
    /// `S1`: syntax.
    S1,
    /// `S2`: too deep.
    S2,
    /// `T1`: duplicate name.
    T1,
    /// `T2`: unknown type.
    T2,
    /// `T3`: inheritance circle.
    T3,
    /// `T4`: equal arity.
    T4,
    /// `T5`: bad override.
    T5,
    /// `T6`: abstract member.
    T6,
    /// `T7`: hidden field.
    T7,
    /// `T8`: constructor circle.
    T8,
    /// `T9`: final class.
    T9,
    /// `T10`: too many members.
    T10,
    /// `J1`: unknown name.
    J1,
    /// `J2`: no such member.
    J2,
    /// `J3`: private member.
    J3,
    /// `J4`: not assignable.
    J4,
    /// `J5`: not in this subset.
    J5,
    /// `J6`: body too large.
    J6,
    /// `J7`: types do not fit.
    J7,
    /// `J8`: local not assigned.
    J8,
    /// `J9`: result missing.
    J9,
    /// `J10`: element nullity.
    J10,
    /// `DEREF`: deref.
    Deref,
    /// `FIELD`: field.
    Field,
    /// `FIELD-INIT`: field-init.
    FieldInit,
    /// `ARG`: arg.
    Arg,
    /// `ARG-INIT`: arg-init.
    ArgInit,
    /// `RECV-INIT`: recv-init.
    RecvInit,
    /// `RETURN`: return.
    Return,
    /// `RETURN-INIT`: return-init.
    ReturnInit,
    /// `LOCAL`: local.
    Local,
    /// `LOCAL-INIT`: local-init.
    LocalInit,
    /// `ELEM`: elem.
    Elem,
    /// `ELEM-INIT`: elem-init.
    ElemInit,
    /// `NEW-ARRAY`: new-array.
    NewArray,
    /// `CTOR-FIELDS`: ctor-fields.
    CtorFields,
    /// `OVR-PARAM`: ovr-param.
    OvrParam,
    /// `OVR-RECEIVER`: ovr-receiver.
    OvrReceiver,
    /// `OVR-RESULT`: ovr-result.
    OvrResult,
}

impl Code {
    /// The code as reports print it.
    pub fn name(self) -> &'static str
        ensures { result.now ≡ code_name self }
    {
        match self {
            Code::B1 => "B1",
            Code::B2 => "B2",
            Code::B3 => "B3",
            Code::L1 => "L1",
            Code::L2 => "L2",
            Code::L3 => "L3",
            Code::L4 => "L4",
            Code::L5 => "L5",
            Code::L6 => "L6",
            Code::L7 => "L7",
            Code::S1 => "S1",
            Code::S2 => "S2",
            Code::T1 => "T1",
            Code::T2 => "T2",
            Code::T3 => "T3",
            Code::T4 => "T4",
            Code::T5 => "T5",
            Code::T6 => "T6",
            Code::T7 => "T7",
            Code::T8 => "T8",
            Code::T9 => "T9",
            Code::T10 => "T10",
            Code::J1 => "J1",
            Code::J2 => "J2",
            Code::J3 => "J3",
            Code::J4 => "J4",
            Code::J5 => "J5",
            Code::J6 => "J6",
            Code::J7 => "J7",
            Code::J8 => "J8",
            Code::J9 => "J9",
            Code::J10 => "J10",
            Code::Deref => "DEREF",
            Code::Field => "FIELD",
            Code::FieldInit => "FIELD-INIT",
            Code::Arg => "ARG",
            Code::ArgInit => "ARG-INIT",
            Code::RecvInit => "RECV-INIT",
            Code::Return => "RETURN",
            Code::ReturnInit => "RETURN-INIT",
            Code::Local => "LOCAL",
            Code::LocalInit => "LOCAL-INIT",
            Code::Elem => "ELEM",
            Code::ElemInit => "ELEM-INIT",
            Code::NewArray => "NEW-ARRAY",
            Code::CtorFields => "CTOR-FIELDS",
            Code::OvrParam => "OVR-PARAM",
            Code::OvrReceiver => "OVR-RECEIVER",
            Code::OvrResult => "OVR-RESULT",
        }
    }

    /// What the code says, in a few words.
    pub fn text(self) -> &'static str
        ensures { result.now ≡ code_text self }
    {
        match self {
            Code::B1 => "too many files",
            Code::B2 => "file too large",
            Code::B3 => "files too large",
            Code::L1 => "not UTF-8",
            Code::L2 => "Unicode escape",
            Code::L3 => "bad character",
            Code::L4 => "open comment",
            Code::L5 => "open string",
            Code::L6 => "bad escape",
            Code::L7 => "bad number",
            Code::S1 => "syntax",
            Code::S2 => "too deep",
            Code::T1 => "duplicate name",
            Code::T2 => "unknown type",
            Code::T3 => "inheritance circle",
            Code::T4 => "equal arity",
            Code::T5 => "bad override",
            Code::T6 => "abstract member",
            Code::T7 => "hidden field",
            Code::T8 => "constructor circle",
            Code::T9 => "final class",
            Code::T10 => "too many members",
            Code::J1 => "unknown name",
            Code::J2 => "no such member",
            Code::J3 => "private member",
            Code::J4 => "not assignable",
            Code::J5 => "not in this subset",
            Code::J6 => "body too large",
            Code::J7 => "types do not fit",
            Code::J8 => "local not assigned",
            Code::J9 => "result missing",
            Code::J10 => "element nullity",
            Code::Deref => "deref",
            Code::Field => "field",
            Code::FieldInit => "field-init",
            Code::Arg => "arg",
            Code::ArgInit => "arg-init",
            Code::RecvInit => "recv-init",
            Code::Return => "return",
            Code::ReturnInit => "return-init",
            Code::Local => "local",
            Code::LocalInit => "local-init",
            Code::Elem => "elem",
            Code::ElemInit => "elem-init",
            Code::NewArray => "new-array",
            Code::CtorFields => "ctor-fields",
            Code::OvrParam => "ovr-param",
            Code::OvrReceiver => "ovr-receiver",
            Code::OvrResult => "ovr-result",
        }
    }
}
