//! The type of an expression (JLS 15).
ghost use Rattle.std.specs.Prelude.{◌≡◌};
ghost use Rattle.jn_points.specs.Members as members;
ghost use Rattle.jn_points.specs.Regular as regular;
ghost use Rattle.jn_lowering.specs.Bases as spec;
ghost use Rattle.jn_lowering.specs.Locals.{has_final};
ghost use Rattle.jn_lowering.specs.Scopes as scopes;
ghost use Rattle.jn_known.specs.Known.{nullable_name};
ghost use Rattle.jn_places.specs.PlacedView.{placed_type_use, placed_view};
ghost use Rattle.jn_scopes.specs.Views.{access_of, callee_of, meaning_of, scope_in, type_in};

use crate::context::{Access, Callee, Context, Meaning};
use crate::lookup::{access, callee, meaning};
use crate::members::{class_or_object, field_base, method_of, result_base, super_method};
use jn_base::{ClassNo, NameNo};
use jn_index::indexed::IndexedProgram;
use jn_known::NULLABLE;
use jn_points::lookup::{elem_base, is_string};
use jn_points::{BaseType, Elem, Operator, StrOperation};
use jn_trees::{
    Annotation, AssignOperator, Base, BinaryOperator, Expr, Literal, LocalModifier, TypeUse,
    UnaryOperator,
};

/// The type of a literal (JLS 15.8.1).
pub fn literal_type(literal: Literal) -> BaseType
    ensures { result ≡ spec.literal_type literal }
{
    match literal {
        Literal::Number(_) => BaseType::Int,
        Literal::Str(_) => BaseType::Ref(ClassNo(1)),
        Literal::Null => BaseType::Null,
        _ => BaseType::Bool,
    }
}

/// Whether the operator is `==` or `!=` (JLS 15.21).
pub fn is_equality(operator: BinaryOperator) -> bool
    ensures { result ≡ spec.is_equality operator }
{
    match operator {
        BinaryOperator::Equal => true,
        BinaryOperator::NotEqual => true,
        _ => false,
    }
}

/// The operator of a point for a tree's; `&&` and `||` are in no point.
pub fn operator_of(operator: BinaryOperator) -> Operator
    ensures { result ≡ spec.operator_of operator }
{
    match operator {
        BinaryOperator::Multiply => Operator::Mul,
        BinaryOperator::Divide => Operator::Div,
        BinaryOperator::Remainder => Operator::Rem,
        BinaryOperator::Add => Operator::Add,
        BinaryOperator::Subtract => Operator::Sub,
        BinaryOperator::Less => Operator::Less,
        BinaryOperator::Greater => Operator::Greater,
        BinaryOperator::LessEqual => Operator::LessEqual,
        BinaryOperator::GreaterEqual => Operator::GreaterEqual,
        BinaryOperator::NotEqual => Operator::NotEqual,
        BinaryOperator::Equal => Operator::Equal,
        BinaryOperator::And => Operator::Equal,
        BinaryOperator::Or => Operator::Equal,
    }
}

/// The operator of a compound assignment.
pub fn compound_of(operator: AssignOperator) -> Operator
    ensures { result ≡ spec.compound_of operator }
{
    match operator {
        AssignOperator::Subtract => Operator::Sub,
        AssignOperator::Multiply => Operator::Mul,
        AssignOperator::Divide => Operator::Div,
        AssignOperator::Remainder => Operator::Rem,
        _ => Operator::Add,
    }
}

fn is_join(operator: Operator) -> bool
    ensures { result ≡ spec.is_join operator }
{
    match operator {
        Operator::Add => true,
        _ => false,
    }
}

fn is_sum(operator: Operator) -> bool
    ensures { result ≡ regular.is_sum operator }
{
    match operator {
        Operator::Add => true,
        Operator::Sub => true,
        Operator::Mul => true,
        Operator::Div => true,
        Operator::Rem => true,
        _ => false,
    }
}

/// Whether `+` joins texts, since a side is a String (JLS 15.18.1).
pub fn joins(operator: Operator, left: BaseType, right: BaseType) -> bool
    ensures { result ≡ spec.joins operator left right }
{
    is_join(operator) && (is_string(left) || is_string(right))
}

/// The type of what an operator gives.
pub fn binary_type(operator: Operator, left: BaseType, right: BaseType) -> BaseType
    ensures { result ≡ spec.binary_type operator left right }
{
    if joins(operator, left, right) {
        BaseType::Ref(ClassNo(1))
    } else if is_sum(operator) {
        BaseType::Int
    } else {
        BaseType::Bool
    }
}

/// The wider of two types, or the first where neither is within the other.
pub fn wider(c: &Context, left: BaseType, right: BaseType) -> BaseType
    ensures { result ≡ spec.wider c.now.program.now left right }
{
    if c.program.is_sub(left, right) {
        right
    } else {
        left
    }
}

/// The type of what an identifier means.
pub fn meaning_type(c: &Context, meaning: Meaning) -> BaseType
    ensures { result ≡ spec.meaning_type c.now.program.now (meaning_of c.now.faults.now meaning) }
{
    match meaning {
        Meaning::Local(variable) => variable.base,
        Meaning::Field(field) => field_base(c.program, field),
        _ => BaseType::Void,
    }
}

/// The type of what a field access names.
pub fn access_type(c: &Context, access: Access) -> BaseType
    ensures { result ≡ spec.access_type c.now.program.now (access_of access) }
{
    match access {
        Access::Class(field) => field_base(c.program, field),
        Access::Object(field) => field_base(c.program, field),
        Access::Length => BaseType::Int,
        Access::Nothing => BaseType::Void,
    }
}

/// Whether an assignment has no operator of its own.
pub fn is_simple(operator: AssignOperator) -> bool
    ensures { result ≡ spec.is_simple operator }
{
    match operator {
        AssignOperator::Assign => true,
        _ => false,
    }
}

/// The type of what a unary operator gives.
pub fn unary_type(operator: UnaryOperator) -> BaseType
    ensures { result ≡ spec.unary_type operator }
{
    match operator {
        UnaryOperator::Not => BaseType::Bool,
        _ => BaseType::Int,
    }
}

/// The type of what a String's method gives.
pub fn operation_base(operation: StrOperation) -> BaseType
    ensures { result ≡ regular.operation_base operation }
{
    match operation {
        StrOperation::Length => BaseType::Int,
        _ => BaseType::Bool,
    }
}

/// The type of what a call with a dot names.
pub fn callee_type(c: &Context, callee: Callee) -> BaseType
    ensures { result ≡ spec.callee_type c.now.program.now (callee_of callee) }
{
    match callee {
        Callee::Text(operation) => operation_base(operation),
        Callee::Class(method) => result_base(c.program, method),
        Callee::Object(method) => result_base(c.program, method),
        _ => BaseType::Void,
    }
}

/// The type of a call of the class's method by its name alone.
pub fn own_type(c: &Context, name: NameNo, arity: usize) -> BaseType
    ensures { result
        ≡ spec.result_type c.now.program.now
        (members.method_of c.now.program.now c.now.class.0 name.0 arity) }
{
    match method_of(c.program, c.class, name, arity) {
        None => BaseType::Void,
        Some(method) => result_base(c.program, method),
    }
}

/// The type of a call of the superclass's method.
pub fn super_type(c: &Context, name: NameNo, arity: usize) -> BaseType
    ensures { result
        ≡ spec.result_type c.now.program.now
        (scopes.super_method c.now.program.now c.now.class.0 name.0 arity) }
{
    match super_method(c.program, c.class, name, arity) {
        None => BaseType::Void,
        Some(method) => result_base(c.program, method),
    }
}

fn is_nullable(annotations: &[Annotation]) -> bool
    ensures { result ≡ spec.has_annotation nullable_name annotations.now }
{
    for annotation in annotations {
        if annotation.name.0 == NULLABLE.0 {
            return true;
        }
    }
    false
}

/// Whether `final` stands among the modifiers (JLS 4.12.4).
pub fn has_final(modifiers: &[LocalModifier]) -> bool
    ensures { result ≡ has_final modifiers.now }
{
    for modifier in modifiers {
        if let LocalModifier::Final(_) = modifier {
            return true;
        }
    }
    false
}

/// Whether a type without brackets is a class's (JLS 4.3).
pub fn is_class_use(base: Base) -> bool
    ensures { result ≡ spec.is_class_use base }
{
    match base {
        Base::Class(_) => true,
        _ => false,
    }
}

fn elem_type(program: &IndexedProgram, base: Base, annotations: &[Annotation]) -> Elem
    ensures { result ≡ spec.elem_type program.now base annotations.now }
{
    match base {
        Base::Class(name) => Elem::Ref(class_or_object(program, name.name)),
        Base::Int(_) => Elem::Int,
        Base::Boolean(_) => Elem::Bool,
    }
}

/// The type of an array whose elements have the annotations (JLS 9.7.4).
pub fn array_type(program: &IndexedProgram, base: Base, annotations: &[Annotation]) -> BaseType
    ensures { result ≡ spec.array_type program.now base annotations.now }
{
    BaseType::Array(
        elem_type(program, base, annotations),
        is_class_use(base) && is_nullable(annotations),
    )
}

/// The type without brackets that is written (JLS 4).
pub fn simple_type(program: &IndexedProgram, base: Base) -> BaseType
    ensures { result ≡ spec.simple_type program.now base }
{
    match base {
        Base::Class(name) => BaseType::Ref(class_or_object(program, name.name)),
        Base::Int(_) => BaseType::Int,
        Base::Boolean(_) => BaseType::Bool,
    }
}

/// The type that is written by a use with the annotations before it.
pub fn type_of_use(
    program: &IndexedProgram,
    type_use: &TypeUse,
    annotations: &[Annotation],
) -> BaseType
    ensures { result ≡ spec.type_of_use program.now (placed_type_use type_use.now) annotations.now }
{
    match &type_use.array {
        None => simple_type(program, type_use.base),
        Some(_) => array_type(program, type_use.base, annotations),
    }
}

/// Whether the expression is the name of a local.
pub fn is_local(c: &Context, tree: &Expr) -> bool
    ensures { result
        ≡ spec.is_local c.now.program.now c.now.class.0 (scope_in c.now) (placed_view tree.now) }
{
    match tree {
        Expr::Name { name } => match meaning(c, name.name) {
            Meaning::Local(_) => true,
            _ => false,
        },
        _ => false,
    }
}

/// The type of an assignment: a simple one has the local's type where a local is assigned, else the value's; another one that
/// of what its operator gives.
pub fn assign_type(
    c: &Context,
    operator: AssignOperator,
    local: bool,
    target: BaseType,
    value: BaseType,
) -> BaseType
    ensures { result
        ≡ spec.assign_type c.now.program.now c.now.class.0 operator local target value }
{
    if is_simple(operator) {
        if local { target } else { value }
    } else {
        binary_type(compound_of(operator), target, value)
    }
}

#[tactic(auto, using(crate::proofs::Typing::typed_call, crate::proofs::Typing::typed_own_call, crate::proofs::Typing::typed_super_call))]
/// The type of the register in which the expression's value stands.
pub fn type_of(tree: &Expr, c: &Context) -> BaseType
    ensures { result ≡ type_in c.now (placed_view tree.now) }
{
    match tree {
        Expr::Literal { literal, .. } => literal_type(*literal),
        Expr::Name { name } => meaning_type(c, meaning(c, name.name)),
        Expr::This { .. } => BaseType::Ref(c.class),
        Expr::Paren { inner, .. } => type_of(inner, c),
        Expr::Field { target, name, .. } => {
            let base = type_of(target, c);
            access_type(c, access(c, target, base, name.name))
        }
        Expr::Call {
            target,
            name,
            arguments,
            ..
        } => {
            let base = type_of(target, c);
            callee_type(c, callee(c, target, base, name.name, arguments.len()))
        }
        Expr::OwnCall {
            name,
            arguments,
            ..
        } => own_type(c, name.name, arguments.len()),
        Expr::SuperCall {
            name,
            arguments,
            ..
        } => super_type(c, name.name, arguments.len()),
        Expr::Index { array, .. } => elem_base(type_of(array, c)),
        Expr::New { class, .. } => BaseType::Ref(class_or_object(c.program, class.name)),
        Expr::NewArray { element, .. } => array_type(c.program, element.base, &element.annotations),
        Expr::ArrayOf { element, .. } => array_type(c.program, element.base, &element.annotations),
        Expr::Postfix { target, .. } => type_of(target, c),
        Expr::Prefix { .. } => BaseType::Int,
        Expr::Unary { operator, .. } => unary_type(*operator),
        Expr::Cast { class, .. } => BaseType::Ref(class_or_object(c.program, class.name)),
        Expr::Binary {
            left,
            operator,
            right,
            ..
        } => binary_type(operator_of(*operator), type_of(left, c), type_of(right, c)),
        Expr::InstanceOf { .. } => BaseType::Bool,
        Expr::Conditional {
            then,
            otherwise,
            ..
        } => wider(c, type_of(then, c), type_of(otherwise, c)),
        Expr::Assign {
            target,
            operator,
            value,
            ..
        } => {
            assign_type(
                c,
                *operator,
                is_local(c, target),
                type_of(target, c),
                type_of(value, c),
            )
        }
    }
}
