//! The rules one by one. Each pushes the rows of what is broken.
ghost use Rattle.std.specs.Prelude.{◌≡◌, ◌++◌, ◌&&◌, OnOk};
ghost use Rattle.jn_points.specs.Lookup.{method_at, method_in, slots_of};
ghost use Rattle.jn_sigs.specs.Signature.{slot_quals, result_of, receiver_of};
ghost use Rattle.jn_transfer.specs.Rules.{row_if, lacks_null, lacks_init, pass_rows, arg_rows, bound_rows, return_rows, receiver_rows, equals_rows, elem_rows, elems_rows, new_array_rows, deref_rows, writes_null, write_rows};

use jn_base::{BodyNo, Code, FieldNo, MethodNo, Row, SlotNo, Span, least};
use jn_env::Env;
use jn_points::lookup::is_monotonic;
use jn_points::{BaseType, Elem, Operand, Program, StrOperation};
use jn_quals::Qual;
use jn_sigs::Sig;
use jn_transfer::lookup::{elem_qual, field_qual, result_qual, slot_qual};
use std::alloc::AllocError;

/// The row, where the rule is broken.
pub fn push_if(rows: &mut Vec<Row>, broken: bool, span: Span, code: Code) -> Result<(), AllocError>
    ensures { OnOk result (rows.new.items ≡ rows.old.items ++ row_if broken span code) }
{
    if broken {
        rows.push(Row { span, code })?;
    }
    Ok(())
}

/// Whether a value may be null and its slot may not.
fn lacks_null(qual: Qual, slot: Qual) -> bool
    ensures { result ≡ lacks_null qual slot }
{
    qual.has_null() && !slot.has_null()
}

/// Whether a value may be initialized, or not, in a way that its slot may not.
fn lacks_init(qual: Qual, slot: Qual) -> bool
    ensures { result ≡ lacks_init qual slot }
{
    (qual.has_committed() && !slot.has_committed()) || (qual.has_free() && !slot.has_free())
}

/// A value is passed to a slot.
fn push_pass(
    rows: &mut Vec<Row>,
    env: &Env,
    value: Operand,
    slot: Qual,
    code: Code,
    init: Code,
) -> Result<(), AllocError>
    ensures { OnOk result
        (rows.new.items ≡ rows.old.items ++ pass_rows code init env.now value slot) }
{
    let qual = env.qual(value.reg);
    push_if(rows, lacks_null(qual, slot), value.span, code)?;
    push_if(rows, lacks_init(qual, slot), value.span, init)
}

/// A dereference of what may be null.
pub fn push_deref(rows: &mut Vec<Row>, env: &Env, object: Option<Operand>) -> Result<(), AllocError>
    ensures { OnOk result (rows.new.items ≡ rows.old.items ++ deref_rows env.now object) }
{
    match object {
        None => Ok(()),
        Some(object) => push_if(
            rows,
            env.qual(object.reg).has_null(),
            object.span,
            Code::Deref,
        ),
    }
}

/// A local is given a value, where its type says what it takes.
pub fn push_bound(
    rows: &mut Vec<Row>,
    env: &Env,
    from: Operand,
    bound: Option<Qual>,
) -> Result<(), AllocError>
    ensures { OnOk result (rows.new.items ≡ rows.old.items ++ bound_rows env.now from bound) }
{
    match bound {
        None => Ok(()),
        Some(slot) => push_pass(rows, env, from, slot, Code::Local, Code::LocalInit),
    }
}

/// Whether null is written where the slot has none, or to a monotonic field.
fn writes_null(program: &Program, sig: &Sig, value: Qual, field: FieldNo) -> bool
    ensures { result ≡ writes_null program.now sig.now value field.0 }
{
    let is_wrong = !field_qual(program, sig, field.0).has_null() || is_monotonic(program, field.0);
    value.has_null() && is_wrong
}

/// A field is given a value.
pub fn push_write(
    rows: &mut Vec<Row>,
    program: &Program,
    sig: &Sig,
    env: &Env,
    object: Operand,
    field: FieldNo,
    value: Operand,
) -> Result<(), AllocError>
    ensures { OnOk result (rows.new.items
        ≡ rows.old.items ++ write_rows program.now sig.now env.now object field.0 value) }
{
    let qual = env.qual(value.reg);
    push_if(
        rows,
        writes_null(program, sig, qual, field),
        value.span,
        Code::Field,
    )?;
    push_if(
        rows,
        is_early(qual, env.qual(object.reg)),
        value.span,
        Code::FieldInit,
    )
}

/// Whether what may be uninitialized is stored in what may be initialized.
fn is_early(value: Qual, object: Qual) -> bool
    ensures { result ≡ (value.free && object.committed) }
{
    value.has_free() && object.has_committed()
}

/// A value is stored in an array of the type.
pub fn push_elem(
    rows: &mut Vec<Row>,
    env: &Env,
    base: BaseType,
    value: Operand,
) -> Result<(), AllocError>
    ensures { OnOk result (rows.new.items ≡ rows.old.items ++ elem_rows env.now base value) }
{
    let qual = env.qual(value.reg);
    push_if(
        rows,
        lacks_null(qual, elem_qual(base)),
        value.span,
        Code::Elem,
    )?;
    push_if(rows, qual.has_free(), value.span, Code::ElemInit)
}

/// Values are stored in a new array of the type.
pub fn push_elems(
    rows: &mut Vec<Row>,
    env: &Env,
    base: BaseType,
    values: &[Operand],
) -> Result<(), AllocError>
    ensures { OnOk result (rows.new.items ≡ rows.old.items ++ elems_rows env.now base values.now) }
{
    for value in values {
        push_elem(rows, env, base, *value)?;
    }
    Ok(())
}

/// A new array's elements are null at first.
pub fn push_new_array(rows: &mut Vec<Row>, span: Span, base: BaseType) -> Result<(), AllocError>
    ensures { OnOk result (rows.new.items ≡ rows.old.items ++ new_array_rows span base) }
{
    match base {
        BaseType::Array(Elem::Ref(_), false) => push_if(rows, true, span, Code::NewArray),
        BaseType::Array(Elem::Ref(_), true) => Ok(()),
        BaseType::Array(Elem::Int, _) => Ok(()),
        BaseType::Array(Elem::Bool, _) => Ok(()),
        BaseType::Int => Ok(()),
        BaseType::Bool => Ok(()),
        BaseType::Void => Ok(()),
        BaseType::Null => Ok(()),
        BaseType::Ref(_) => Ok(()),
    }
}

/// Arguments are passed to a method's parameters.
pub fn push_call_args(
    rows: &mut Vec<Row>,
    program: &Program,
    sig: &Sig,
    env: &Env,
    method: MethodNo,
    args: &[Operand],
) -> Result<(), AllocError>
    ensures { OnOk result (rows.new.items
        ≡ rows.old.items
        ++ arg_rows env.now (slot_quals sig.now (slots_of (method_at program.now method.0)))
        args.now) }
{
    match program.methods.as_slice().get(method.0 as usize) {
        None => Ok(()),
        Some(info) => push_args(rows, sig, env, info.param_slots.as_slice(), args),
    }
}

fn push_args(
    rows: &mut Vec<Row>,
    sig: &Sig,
    env: &Env,
    slots: &[Option<SlotNo>],
    args: &[Operand],
) -> Result<(), AllocError>
    ensures { OnOk result (rows.new.items
        ≡ rows.old.items ++ arg_rows env.now (slot_quals sig.now slots.now) args.now) }
{
    for i in 0..least(slots.len(), args.len()) {
        push_pass(
            rows,
            env,
            args[i],
            slot_qual(sig, slots[i]),
            Code::Arg,
            Code::ArgInit,
        )?;
    }
    Ok(())
}

/// A method is called on a receiver.
pub fn push_receiver(
    rows: &mut Vec<Row>,
    program: &Program,
    sig: &Sig,
    env: &Env,
    receiver: Option<Operand>,
    method: MethodNo,
) -> Result<(), AllocError>
    ensures { OnOk result (rows.new.items
        ≡ rows.old.items
        ++ receiver_rows env.now receiver
        (receiver_of sig.now (method_at program.now method.0))) }
{
    match receiver {
        None => Ok(()),
        Some(object) => push_if(
            rows,
            lacks_init(env.qual(object.reg), receiver_qual(program, sig, method)),
            object.span,
            Code::RecvInit,
        ),
    }
}

/// The qualifier of a method's receiver; empty where there is none.
fn receiver_qual(program: &Program, sig: &Sig, method: MethodNo) -> Qual
    ensures { result ≡ receiver_of sig.now (method_at program.now method.0) }
{
    match program.methods.as_slice().get(method.0 as usize) {
        None => Qual::none(),
        Some(info) => slot_qual(sig, info.receiver),
    }
}

/// A string is compared with an object.
pub fn push_equals(
    rows: &mut Vec<Row>,
    env: &Env,
    op: StrOperation,
    other: Option<Operand>,
) -> Result<(), AllocError>
    ensures { OnOk result (rows.new.items ≡ rows.old.items ++ equals_rows env.now op other) }
{
    match op {
        StrOperation::Length => Ok(()),
        StrOperation::IsEmpty => Ok(()),
        StrOperation::Equals => match other {
            None => Ok(()),
            Some(object) => push_if(
                rows,
                env.qual(object.reg).has_free(),
                object.span,
                Code::ArgInit,
            ),
        },
    }
}

/// The body gives a result.
pub fn push_return(
    rows: &mut Vec<Row>,
    program: &Program,
    sig: &Sig,
    body: BodyNo,
    env: &Env,
    value: Option<Operand>,
) -> Result<(), AllocError>
    ensures { OnOk result (rows.new.items
        ≡ rows.old.items
        ++ return_rows env.now value (result_of sig.now (method_in program.now body.0))) }
{
    match value {
        None => Ok(()),
        Some(value) => push_pass(
            rows,
            env,
            value,
            body_result(program, sig, body),
            Code::Return,
            Code::ReturnInit,
        ),
    }
}

/// The qualifier of the result of the body's method; empty where there is none.
fn body_result(program: &Program, sig: &Sig, body: BodyNo) -> Qual
    ensures { result ≡ result_of sig.now (method_in program.now body.0) }
{
    match program.bodies.as_slice().get(body.0 as usize) {
        None => Qual::none(),
        Some(info) => result_qual(program, sig, info.method),
    }
}
