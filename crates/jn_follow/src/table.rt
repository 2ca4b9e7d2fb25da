//! The table: what stands in place of a frame after a token.
ghost use Rattle.std.specs.Prelude.{◌≡◌, IfOk};
ghost use Rattle.jn_follow.specs.Follow.{step as spec_step, passes as spec_passes, is_typed as spec_is_typed, is_end as spec_is_end, is_close as spec_is_close, is_effects_end as spec_is_effects_end, is_no_else as spec_is_no_else};
ghost use Rattle.jn_follow.specs.Moved.{Moved};

use crate::expressions::{
    array_created, class_created, closes, created, ends, inner, inner_named, items, more_items,
    operand, operator, size,
};
use crate::frame::Frame;
use crate::members::{
    array_marked, marked, member_declared, member_named, members, method_end, more_parameters,
    parameter, parameter_typed, parameters, type_end,
};
use crate::stack::Stack;
use crate::statements::{
    body, bracket_first, declared, for_condition, for_declared, for_init, for_update, local_marked,
    more_declared, more_effects, name_first, other, returned, statement, super_first, this_first,
};
use crate::types::{
    class_named, class_word, dots, extended, import_dot, import_dotted, interface_named,
    interface_word, lines, listed, start, type_marked, types,
};
use crate::words::{
    a_colon, a_name, a_point, again, an_end, close_bracket, close_paren, open_brace, open_bracket,
    open_paren,
};
use jn_trees::TokenKind;
use std::alloc::AllocError;

/// Takes the token in place of the frame, which is popped already. Where it can't stand there, or no memory is found, the stack is of no use any more.
pub fn step(stack: &mut Stack, frame: Frame, kind: TokenKind) -> Result<bool, AllocError>
    ensures { IfOk result (λ taken. Moved (spec_step frame kind) stack.old taken stack.new) }
{
    match frame {
        Frame::Start => start(stack, kind),
        Frame::Lines => lines(stack, kind),
        Frame::Types => types(stack, kind),
        Frame::TypeMarked => type_marked(stack, kind),
        Frame::ClassWord => class_word(stack, kind),
        Frame::InterfaceWord => interface_word(stack, kind),
        Frame::ClassNamed(class) => class_named(stack, class, kind),
        Frame::Extended(class) => extended(stack, class, kind),
        Frame::InterfaceNamed(name) => interface_named(stack, name, kind),
        Frame::Listed(owner) => listed(stack, owner, kind),
        Frame::Dotted => dots(stack, kind),
        Frame::ImportDotted => import_dotted(stack, kind),
        Frame::ImportDot => import_dot(stack, kind),
        Frame::Members(owner) => members(stack, owner, kind),
        Frame::Marked(owner) => marked(stack, owner, kind),
        Frame::MemberNamed(constructs, interface) => member_named(
            stack, constructs, interface, kind,
        ),
        Frame::MemberDeclared(interface) => member_declared(stack, interface, kind),
        Frame::MethodEnd(interface) => method_end(stack, interface, kind),
        Frame::Parameters(receiver) => parameters(stack, receiver, kind),
        Frame::Parameter(receiver) => parameter(stack, receiver, kind),
        Frame::ParameterTyped(receiver) => parameter_typed(stack, receiver, kind),
        Frame::MoreParameters => more_parameters(stack, kind),
        Frame::TypeEnd => type_end(stack, kind),
        Frame::ArrayMarked => array_marked(stack, kind),
        Frame::Declared => declared(stack, kind),
        Frame::MoreDeclared => more_declared(stack, kind),
        Frame::Body(context) => body(stack, context, kind),
        Frame::Statement(context) => statement(stack, context, kind),
        Frame::Else(context) => other(stack, context, kind),
        Frame::Returned => returned(stack, kind),
        Frame::ThisFirst(leading) => this_first(stack, leading, kind),
        Frame::SuperFirst(leading) => super_first(stack, leading, kind),
        Frame::LocalMarked(in_for) => local_marked(stack, in_for, kind),
        Frame::NameFirst(in_for) => name_first(stack, in_for, kind),
        Frame::BracketFirst(in_for) => bracket_first(stack, in_for, kind),
        Frame::ForInit => for_init(stack, kind),
        Frame::ForDeclared => for_declared(stack, kind),
        Frame::ForCondition => for_condition(stack, kind),
        Frame::ForUpdate => for_update(stack, kind),
        Frame::MoreEffects => more_effects(stack, kind),
        Frame::Operand(mode) => operand(stack, mode, kind),
        Frame::Operator(mode, stage) => operator(stack, mode, stage, kind),
        Frame::Inner(mode) => inner(stack, mode, kind),
        Frame::InnerNamed(mode) => inner_named(stack, mode, kind),
        Frame::Created(mode) => created(stack, mode, kind),
        Frame::ArrayCreated(mode) => array_created(stack, mode, kind),
        Frame::ClassCreated(mode) => class_created(stack, mode, kind),
        Frame::Size(mode) => size(stack, mode, kind),
        Frame::Items(braces) => items(stack, braces, kind),
        Frame::MoreItems(braces) => more_items(stack, braces, kind),
        Frame::Name => a_name(stack, kind),
        Frame::OpenParen => open_paren(stack, kind),
        Frame::CloseParen => close_paren(stack, kind),
        Frame::OpenBracket => open_bracket(stack, kind),
        Frame::CloseBracket => close_bracket(stack, kind),
        Frame::OpenBrace => open_brace(stack, kind),
        Frame::End => an_end(stack, kind),
        Frame::Other => a_colon(stack, kind),
        Frame::Point => a_point(stack, kind),
        Frame::Again => again(stack, kind),
    }
}

fn is_typed(kind: TokenKind) -> bool
    ensures { result ≡ spec_is_typed kind }
{
    match kind {
        TokenKind::Id(_) | TokenKind::This => true,
        _ => false,
    }
}

fn is_end(kind: TokenKind) -> bool
    ensures { result ≡ spec_is_end kind }
{
    match kind {
        TokenKind::Semicolon => true,
        _ => false,
    }
}

fn is_close(kind: TokenKind) -> bool
    ensures { result ≡ spec_is_close kind }
{
    match kind {
        TokenKind::RightParen => true,
        _ => false,
    }
}

fn is_effects_end(kind: TokenKind) -> bool
    ensures { result ≡ spec_is_effects_end kind }
{
    match kind {
        TokenKind::Semicolon | TokenKind::RightParen => true,
        _ => false,
    }
}

fn is_no_else(kind: TokenKind) -> bool
    ensures { result ≡ spec_is_no_else kind }
{
    match kind {
        TokenKind::Else => false,
        _ => true,
    }
}

/// May the frame be left out before this token?
pub fn passes(frame: Frame, kind: TokenKind) -> bool
    ensures { result ≡ spec_passes frame kind }
{
    match frame {
        Frame::Operator(mode, stage) => closes(kind) && ends(mode, stage),
        Frame::TypeEnd => is_typed(kind),
        Frame::Declared | Frame::MoreDeclared | Frame::Dotted | Frame::ImportDotted => is_end(kind),
        Frame::MoreEffects => is_effects_end(kind),
        Frame::ForUpdate => is_close(kind),
        Frame::Else(_) => is_no_else(kind),
        _ => false,
    }
}
