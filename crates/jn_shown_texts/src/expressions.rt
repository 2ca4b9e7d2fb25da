//! The shape of an expression as text, with each node in parentheses.
use crate::outcome::LIMIT;
use crate::page::{Page, Shown};
use jn_base::{NameNo, OutOfMemory};
use jn_parse_expr::parse_expr;
use jn_scopes::forms::span_of;
use jn_trees::{
    AssignOperator, Base, BinaryOperator, Expr, Identifier, Literal, Names, Step, Token,
    UnaryOperator,
};
use std::alloc::Global;

/// The longest expression of this depth from a place on, and how many tokens are left.
pub fn expression_text(
    alloc: Global,
    names: &Names,
    tokens: &[Token],
    at: u32,
    depth: u32,
    shown: Shown,
) -> Result<String, OutOfMemory> {
    if tokens.len() > LIMIT || at as usize > tokens.len() {
        return Ok(String::from_str(alloc, "no place")?);
    }
    match parse_expr(alloc, tokens, at, depth)? {
        None => Ok(String::from_str(alloc, "none")?),
        Some((tree, behind)) => {
            let shape = shape_of_expression(alloc, names, &tree, shown)?;
            let left = tokens.len().saturating_sub(behind as usize);
            Ok(format!(in alloc; "{shape}, {left} left")?)
        }
    }
}

/// The shape of an expression.
fn shape_of_expression(
    alloc: Global,
    names: &Names,
    tree: &Expr,
    shown: Shown,
) -> Result<String, OutOfMemory> {
    let mut page = Page::new(alloc, shown);
    write_expression(&mut page, names, tree);
    page.finish()
}

pub fn write_name(page: &mut Page, names: &Names, name: NameNo) {
    if (name.0 as usize) < names.len() {
        page.put(&[names.text(name)]);
    }
}

pub fn write_identifier(page: &mut Page, names: &Names, name: Identifier) {
    page.place(name.span);
    write_name(page, names, name.name)
}

pub fn write_base(page: &mut Page, names: &Names, base: &Base) {
    match base {
        Base::Class(name) => write_identifier(page, names, *name),
        Base::Int(span) => {
            page.place(*span);
            page.put(&["int"])
        }
        Base::Boolean(span) => {
            page.place(*span);
            page.put(&["boolean"])
        }
    }
}

#[cycle(expressions)]
pub fn write_list(page: &mut Page, names: &Names, expressions: &[Expr]) {
    for (place, expression) in expressions.iter().enumerate() {
        if place > 0 {
            page.put(&[", "]);
        }
        write_expression(page, names, expression);
    }
}

#[cycle(expressions)]
pub fn write_expression(page: &mut Page, names: &Names, expression: &Expr) {
    page.place(span_of(expression));
    match expression {
        Expr::Literal { literal, .. } => write_literal(page, names, *literal),
        Expr::Name { name } => write_name(page, names, name.name),
        Expr::This { .. } => page.put(&["this"]),
        Expr::Paren { inner, .. } => {
            page.put(&["(paren "]);
            write_expression(page, names, inner);
            page.put(&[")"])
        }
        Expr::Field { target, name, .. } => {
            page.put(&["("]);
            write_expression(page, names, target);
            page.put(&[" . "]);
            write_identifier(page, names, *name);
            page.put(&[")"])
        }
        Expr::Call {
            target,
            name,
            arguments,
            ..
        } => {
            page.put(&["("]);
            write_expression(page, names, target);
            page.put(&[" . "]);
            write_called(page, names, *name);
            write_list(page, names, arguments);
            page.put(&["))"])
        }
        Expr::OwnCall {
            name,
            arguments,
            ..
        } => {
            page.put(&["("]);
            write_called(page, names, *name);
            write_list(page, names, arguments);
            page.put(&["))"])
        }
        Expr::SuperCall {
            name,
            arguments,
            ..
        } => {
            page.put(&["(super . "]);
            write_called(page, names, *name);
            write_list(page, names, arguments);
            page.put(&["))"])
        }
        Expr::Index { array, index, .. } => {
            page.put(&["("]);
            write_expression(page, names, array);
            page.put(&["["]);
            write_expression(page, names, index);
            page.put(&["])"])
        }
        Expr::New {
            class,
            arguments,
            ..
        } => {
            page.put(&["(new "]);
            write_called(page, names, *class);
            write_list(page, names, arguments);
            page.put(&["))"])
        }
        Expr::NewArray {
            element,
            length,
            ..
        } => {
            page.put(&["(new "]);
            write_base(page, names, &element.base);
            page.put(&["["]);
            write_expression(page, names, length);
            page.put(&["])"])
        }
        Expr::ArrayOf {
            element,
            elements,
            ..
        } => {
            page.put(&["(new "]);
            write_base(page, names, &element.base);
            page.put(&["[]{"]);
            write_list(page, names, elements);
            page.put(&["})"])
        }
        Expr::Postfix { target, step, .. } => {
            page.put(&["("]);
            write_expression(page, names, target);
            page.put(&[" ", step_text(*step), ")"])
        }
        Expr::Prefix { step, target, .. } => {
            page.put(&["(", step_text(*step), " "]);
            write_expression(page, names, target);
            page.put(&[")"])
        }
        Expr::Unary {
            operator,
            operand,
            ..
        } => {
            page.put(&["(", sign_text(*operator), " "]);
            write_expression(page, names, operand);
            page.put(&[")"])
        }
        Expr::Cast { class, operand, .. } => {
            page.put(&["(cast "]);
            write_identifier(page, names, *class);
            page.put(&[" "]);
            write_expression(page, names, operand);
            page.put(&[")"])
        }
        Expr::Binary {
            left,
            operator,
            right,
            ..
        } => {
            page.put(&["("]);
            write_expression(page, names, left);
            page.put(&[" ", operator_text(*operator), " "]);
            write_expression(page, names, right);
            page.put(&[")"])
        }
        Expr::InstanceOf { operand, class, .. } => {
            page.put(&["("]);
            write_expression(page, names, operand);
            page.put(&[" instanceof "]);
            write_identifier(page, names, *class);
            page.put(&[")"])
        }
        Expr::Conditional {
            condition,
            then,
            otherwise,
            ..
        } => {
            page.put(&["("]);
            write_expression(page, names, condition);
            page.put(&[" ? "]);
            write_expression(page, names, then);
            page.put(&[" : "]);
            write_expression(page, names, otherwise);
            page.put(&[")"])
        }
        Expr::Assign {
            target,
            operator,
            value,
            ..
        } => {
            page.put(&["("]);
            write_expression(page, names, target);
            page.put(&[" ", assign_text(*operator), " "]);
            write_expression(page, names, value);
            page.put(&[")"])
        }
    }
}

/// A name and the opening parenthesis after it.
fn write_called(page: &mut Page, names: &Names, name: Identifier) {
    write_identifier(page, names, name);
    page.put(&["("])
}

fn write_literal(page: &mut Page, names: &Names, literal: Literal) {
    match literal {
        Literal::Number(value) => page.number(value),
        Literal::Str(text) => {
            page.put(&["\""]);
            write_name(page, names, text);
            page.put(&["\""])
        }
        Literal::True => page.put(&["true"]),
        Literal::False => page.put(&["false"]),
        Literal::Null => page.put(&["null"]),
    }
}

fn step_text(step: Step) -> &'static str {
    match step {
        Step::Increment => "++",
        Step::Decrement => "--",
    }
}

fn sign_text(operator: UnaryOperator) -> &'static str {
    match operator {
        UnaryOperator::Plus => "+",
        UnaryOperator::Minus => "-",
        UnaryOperator::Not => "!",
    }
}

fn operator_text(operator: BinaryOperator) -> &'static str {
    match operator {
        BinaryOperator::Multiply => "*",
        BinaryOperator::Divide => "/",
        BinaryOperator::Remainder => "%",
        BinaryOperator::Add => "+",
        BinaryOperator::Subtract => "-",
        BinaryOperator::Less => "<",
        BinaryOperator::Greater => ">",
        BinaryOperator::LessEqual => "<=",
        BinaryOperator::GreaterEqual => ">=",
        BinaryOperator::Equal => "==",
        BinaryOperator::NotEqual => "!=",
        BinaryOperator::And => "&&",
        BinaryOperator::Or => "||",
    }
}

fn assign_text(operator: AssignOperator) -> &'static str {
    match operator {
        AssignOperator::Assign => "=",
        AssignOperator::Add => "+=",
        AssignOperator::Subtract => "-=",
        AssignOperator::Multiply => "*=",
        AssignOperator::Divide => "/=",
        AssignOperator::Remainder => "%=",
    }
}
