//! The tokens of literals, operators and types without brackets.
ghost use Rattle.std.specs.Prelude.{◌≡◌};
ghost use Rattle.jn_trees.specs.Spelling.{literal_token as spec_literal, sign_token as spec_sign, step_token as spec_step, operator_token as spec_operator, assign_token as spec_assign, base_token as spec_base};
ghost use Rattle.jn_trees.specs.View.{base_view};

use jn_trees::{AssignOperator, Base, BinaryOperator, Literal, Step, TokenKind, UnaryOperator};

/// The token of a literal.
pub fn literal_token(literal: Literal) -> TokenKind
    ensures { result ≡ spec_literal literal }
{
    match literal {
        Literal::Number(value) => TokenKind::Number(value),
        Literal::Str(text) => TokenKind::Str(text),
        Literal::True => TokenKind::True,
        Literal::False => TokenKind::False,
        Literal::Null => TokenKind::Null,
    }
}

/// The token of a sign.
pub fn sign_token(operator: UnaryOperator) -> TokenKind
    ensures { result ≡ spec_sign operator }
{
    match operator {
        UnaryOperator::Plus => TokenKind::Plus,
        UnaryOperator::Minus => TokenKind::Minus,
        UnaryOperator::Not => TokenKind::Not,
    }
}

/// The token of a step.
pub fn step_token(step: Step) -> TokenKind
    ensures { result ≡ spec_step step }
{
    match step {
        Step::Increment => TokenKind::PlusPlus,
        Step::Decrement => TokenKind::MinusMinus,
    }
}

/// The token of an operator between operands.
pub fn operator_token(operator: BinaryOperator) -> TokenKind
    ensures { result ≡ spec_operator operator }
{
    match operator {
        BinaryOperator::Multiply => TokenKind::Star,
        BinaryOperator::Divide => TokenKind::Slash,
        BinaryOperator::Remainder => TokenKind::Percent,
        BinaryOperator::Add => TokenKind::Plus,
        BinaryOperator::Subtract => TokenKind::Minus,
        BinaryOperator::Less => TokenKind::Less,
        BinaryOperator::Greater => TokenKind::Greater,
        BinaryOperator::LessEqual => TokenKind::LessEqual,
        BinaryOperator::GreaterEqual => TokenKind::GreaterEqual,
        BinaryOperator::Equal => TokenKind::EqualEqual,
        BinaryOperator::NotEqual => TokenKind::NotEqual,
        BinaryOperator::And => TokenKind::AndAnd,
        BinaryOperator::Or => TokenKind::OrOr,
    }
}

/// The token of an assignment.
pub fn assign_token(operator: AssignOperator) -> TokenKind
    ensures { result ≡ spec_assign operator }
{
    match operator {
        AssignOperator::Assign => TokenKind::Assign,
        AssignOperator::Add => TokenKind::PlusAssign,
        AssignOperator::Subtract => TokenKind::MinusAssign,
        AssignOperator::Multiply => TokenKind::StarAssign,
        AssignOperator::Divide => TokenKind::SlashAssign,
        AssignOperator::Remainder => TokenKind::PercentAssign,
    }
}

/// The token of a type without brackets.
pub fn base_token(base: Base) -> TokenKind
    ensures { result ≡ spec_base (base_view base) }
{
    match base {
        Base::Class(name) => TokenKind::Id(name.name),
        Base::Int(_) => TokenKind::Int,
        Base::Boolean(_) => TokenKind::Boolean,
    }
}
