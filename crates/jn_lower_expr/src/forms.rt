//! Groups of forms.
ghost use Rattle.std.specs.Prelude.{◌≡◌};
ghost use Rattle.jn_places.specs.PlacedView.{placed_view};
ghost use Rattle.jn_scopes.specs.Views.{meaning_of};
ghost use Rattle.jn_lower_expr.specs.Lowering as spec;

use jn_base::{FieldNo, MethodNo, NameNo};
use jn_scopes::forms::is_null;
use jn_scopes::members::{field_of, method_of};
use jn_scopes::types::is_equality;
use jn_scopes::{Context, Meaning};
use jn_trees::{BinaryOperator, Expr, Literal, UnaryOperator};

fn is_logical(operator: BinaryOperator) -> bool
    ensures { result ≡ spec.is_logical operator }
{
    match operator {
        BinaryOperator::And => true,
        BinaryOperator::Or => true,
        _ => false,
    }
}

fn is_not(operator: UnaryOperator) -> bool
    ensures { result ≡ spec.is_not operator }
{
    match operator {
        UnaryOperator::Not => true,
        _ => false,
    }
}

/// Whether the form is lowered as a condition, and as a value from it.
pub fn is_connective(tree: &Expr) -> bool
    ensures { result ≡ spec.is_connective (placed_view tree.now) }
{
    match tree {
        Expr::Unary { operator, .. } => is_not(*operator),
        Expr::Binary {
            left,
            operator,
            right,
            ..
        } => {
            is_logical(*operator) || (is_equality(*operator) && (is_null(left) || is_null(right)))
        }
        Expr::InstanceOf { .. } => true,
        _ => false,
    }
}

fn is_constant(literal: Literal) -> bool
    ensures { result ≡ spec.is_constant literal }
{
    match literal {
        Literal::True => true,
        Literal::False => true,
        _ => false,
    }
}

/// Whether the form as a condition is its value, tested.
pub fn is_tested(tree: &Expr) -> bool
    ensures { result ≡ spec.is_tested (placed_view tree.now) }
{
    match tree {
        Expr::Literal { literal, .. } => !is_constant(*literal),
        Expr::Paren { .. } => false,
        _ => !is_connective(tree),
    }
}

/// Whether the operator is `&&`.
pub fn is_and(operator: BinaryOperator) -> bool
    ensures { result ≡ spec.is_and operator }
{
    match operator {
        BinaryOperator::And => true,
        _ => false,
    }
}

/// Whether the sign changes its operand's.
pub fn is_minus(operator: UnaryOperator) -> bool
    ensures { result ≡ spec.is_minus operator }
{
    match operator {
        UnaryOperator::Minus => true,
        _ => false,
    }
}

/// Whether the literal is `true`.
pub fn is_true(literal: Literal) -> bool
    ensures { result ≡ spec.is_true literal }
{
    match literal {
        Literal::True => true,
        _ => false,
    }
}

/// The method that a class before a dot has.
#[tactic(auto, using(crate::proofs::Naming::numbered))]
pub fn class_method(c: &Context, before: Meaning, name: NameNo, arity: usize) -> Option<MethodNo>
    ensures { spec.number_of result
        ≡ spec.class_method c.now.program.now (meaning_of c.now.faults.now before) name.0 arity }
{
    match before {
        Meaning::Class(class) => method_of(c.program, class, name, arity),
        _ => None,
    }
}

/// The field that a class before a dot has.
#[tactic(auto, using(crate::proofs::Naming::field_numbered))]
pub fn class_field(c: &Context, before: Meaning, name: NameNo) -> Option<FieldNo>
    ensures { spec.field_number result
        ≡ spec.class_field c.now.program.now (meaning_of c.now.faults.now before) name.0 }
{
    match before {
        Meaning::Class(class) => field_of(c.program, class, name),
        _ => None,
    }
}

/// Whether the form can't be assigned: it is no identifier, field or element, also not in parentheses.
pub fn lacks_place(tree: &Expr) -> bool
    ensures { result ≡ spec.lacks_place (placed_view tree.now) }
{
    match tree {
        Expr::Name { .. } => false,
        Expr::Paren { .. } => false,
        Expr::Field { .. } => false,
        Expr::Index { .. } => false,
        _ => true,
    }
}
