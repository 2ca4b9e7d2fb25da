//! The bytes that a node takes.
use jn_base::Span;
use jn_trees::{Member, Stmt, TypeTree};

pub fn statement_span(statement: &Stmt) -> Span {
    match statement {
        Stmt::Block { span, .. } => *span,
        Stmt::Empty { span } => *span,
        Stmt::Expression { span, .. } => *span,
        Stmt::Break { span } => *span,
        Stmt::Continue { span } => *span,
        Stmt::Return { span, .. } => *span,
        Stmt::Local { span, .. } => *span,
        Stmt::If { span, .. } => *span,
        Stmt::IfElse { span, .. } => *span,
        Stmt::While { span, .. } => *span,
        Stmt::Do { span, .. } => *span,
        Stmt::For { span, .. } => *span,
        Stmt::ForEach { span, .. } => *span,
        Stmt::ThisCall { span, .. } => *span,
        Stmt::SuperCall { span, .. } => *span,
    }
}

pub fn member_span(member: &Member) -> Span {
    match member {
        Member::Field { span, .. } => *span,
        Member::Method { span, .. } => *span,
        Member::Constructor { span, .. } => *span,
    }
}

pub fn type_span(declaration: &TypeTree) -> Span {
    match declaration {
        TypeTree::Class { span, .. } => *span,
        TypeTree::Interface { span, .. } => *span,
    }
}
