//! The shape of a file or of a statement as text.
use crate::expressions::{write_base, write_expression, write_identifier, write_list};
use crate::page::{Page, Shown};
use crate::places::{member_span, statement_span, type_span};
use jn_base::OutOfMemory;
use jn_parse_stmt::read_statement;
use jn_trees::{
    Context, Declarator, Expr, FileTree, ForInit, Identifier, LocalDeclaration, Member, Names,
    Parameter, Stmt, Token, TypeTree, TypeUse,
};
use std::alloc::Global;

/// The longest statement of this depth at the front, its bytes, and how many tokens are left.
pub fn statement_text(
    alloc: Global,
    names: &Names,
    tokens: &[Token],
    depth: u32,
    context: Context,
    shown: Shown,
) -> Result<String, OutOfMemory> {
    match read_statement(alloc, tokens, depth, context)? {
        None => Ok(String::from_str(alloc, "none")?),
        Some((tree, rest)) => {
            let shape = shape_of_statement(alloc, names, &tree, shown)?;
            let span = statement_span(&tree);
            let left = rest.len();
            Ok(format!(in alloc; "{shape}, {}..{}, {left} left", span.from, span.to)?)
        }
    }
}

/// The shape of a statement.
fn shape_of_statement(
    alloc: Global,
    names: &Names,
    tree: &Stmt,
    shown: Shown,
) -> Result<String, OutOfMemory> {
    let mut page = Page::new(alloc, shown);
    write_statement(&mut page, names, tree);
    page.finish()
}

/// The shape of a file's types.
pub fn shape_of(
    alloc: Global,
    names: &Names,
    tree: &FileTree,
    shown: Shown,
) -> Result<String, OutOfMemory> {
    let mut page = Page::new(alloc, shown);
    for declaration in &tree.types {
        write_type(&mut page, names, declaration);
    }
    page.finish()
}

fn write_type(page: &mut Page, names: &Names, declaration: &TypeTree) {
    page.place(type_span(declaration));
    match declaration {
        TypeTree::Class { name, members, .. } => {
            page.put(&["class "]);
            write_members(page, names, name, members)
        }
        TypeTree::Interface { name, members, .. } => {
            page.put(&["interface "]);
            write_members(page, names, name, members)
        }
    }
}

fn write_members(page: &mut Page, names: &Names, name: &Identifier, members: &[Member]) {
    write_identifier(page, names, *name);
    page.put(&[" {"]);
    for member in members {
        write_member(page, names, member);
    }
    page.put(&["}"])
}

fn write_member(page: &mut Page, names: &Names, member: &Member) {
    page.place(member_span(member));
    match member {
        Member::Field {
            type_use,
            first,
            more,
            ..
        } => {
            write_variables(page, names, type_use, first, more);
            page.put(&[";"])
        }
        Member::Method {
            name,
            parameters,
            body,
            ..
        } => {
            write_identifier(page, names, *name);
            write_parameters(page, names, parameters);
            match body {
                None => page.put(&[";"]),
                Some(statements) => write_block(page, names, statements),
            }
        }
        Member::Constructor {
            name,
            parameters,
            body,
            ..
        } => {
            write_identifier(page, names, *name);
            write_parameters(page, names, parameters);
            write_block(page, names, body)
        }
    }
}

fn write_parameters(page: &mut Page, names: &Names, parameters: &[Parameter]) {
    page.put(&["("]);
    for (place, parameter) in parameters.iter().enumerate() {
        if place > 0 {
            page.put(&[", "]);
        }
        write_identifier(page, names, parameter.name);
    }
    page.put(&[") "])
}

fn write_type_use(page: &mut Page, names: &Names, type_use: &TypeUse) {
    page.place(type_use.span);
    write_base(page, names, &type_use.base);
    if type_use.array.is_some() {
        page.put(&["[]"]);
    }
}

fn write_declarator(page: &mut Page, names: &Names, declarator: &Declarator) {
    write_identifier(page, names, declarator.name);
    match &declarator.value {
        None => (),
        Some(value) => {
            page.put(&[" = "]);
            write_expression(page, names, value)
        }
    }
}

fn write_variables(
    page: &mut Page,
    names: &Names,
    type_use: &TypeUse,
    first: &Declarator,
    more: &[Declarator],
) {
    write_type_use(page, names, type_use);
    page.put(&[" "]);
    write_declarator(page, names, first);
    for declarator in more {
        page.put(&[", "]);
        write_declarator(page, names, declarator);
    }
}

fn write_local(page: &mut Page, names: &Names, declaration: &LocalDeclaration) {
    write_variables(
        page,
        names,
        &declaration.type_use,
        &declaration.first,
        &declaration.more,
    )
}

fn write_optional(page: &mut Page, names: &Names, expression: &Option<Box<Expr>>) {
    match expression {
        None => (),
        Some(expression) => write_expression(page, names, expression),
    }
}

fn write_init(page: &mut Page, names: &Names, init: &ForInit) {
    match init {
        ForInit::Expressions(expressions) => write_list(page, names, expressions),
        ForInit::Declaration(declaration) => write_local(page, names, declaration),
    }
}

/// A word and an expression after it.
fn write_headed(page: &mut Page, names: &Names, word: &str, expression: &Expr) {
    page.put(&["(", word, " "]);
    write_expression(page, names, expression);
    page.put(&[" "])
}

#[cycle(blocks)]
fn write_block(page: &mut Page, names: &Names, statements: &[Stmt]) {
    page.put(&["{"]);
    for statement in statements {
        write_statement(page, names, statement);
    }
    page.put(&["}"])
}

#[cycle(blocks)]
fn write_statement(page: &mut Page, names: &Names, statement: &Stmt) {
    page.place(statement_span(statement));
    match statement {
        Stmt::Block { statements, .. } => write_block(page, names, statements),
        Stmt::Empty { .. } => page.put(&[";"]),
        Stmt::Expression { expression, .. } => {
            write_expression(page, names, expression);
            page.put(&[";"])
        }
        Stmt::Break { .. } => page.put(&["break;"]),
        Stmt::Continue { .. } => page.put(&["continue;"]),
        Stmt::Return { value, .. } => {
            page.put(&["return "]);
            write_optional(page, names, value);
            page.put(&[";"])
        }
        Stmt::Local { declaration, .. } => {
            write_local(page, names, declaration);
            page.put(&[";"])
        }
        Stmt::If {
            condition,
            then,
            ..
        } => {
            write_headed(page, names, "if", condition);
            write_statement(page, names, then);
            page.put(&[")"])
        }
        Stmt::IfElse {
            condition,
            then,
            otherwise,
            ..
        } => {
            write_headed(page, names, "if", condition);
            write_statement(page, names, then);
            page.put(&[" else "]);
            write_statement(page, names, otherwise);
            page.put(&[")"])
        }
        Stmt::While {
            condition,
            body,
            ..
        } => {
            write_headed(page, names, "while", condition);
            write_statement(page, names, body);
            page.put(&[")"])
        }
        Stmt::Do {
            body,
            condition,
            ..
        } => {
            write_headed(page, names, "do", condition);
            write_statement(page, names, body);
            page.put(&[")"])
        }
        Stmt::For { head, body, .. } => {
            page.put(&["(for "]);
            write_init(page, names, &head.init);
            page.put(&["; "]);
            write_optional(page, names, &head.condition);
            page.put(&["; "]);
            write_list(page, names, &head.update);
            page.put(&[" "]);
            write_statement(page, names, body);
            page.put(&[")"])
        }
        Stmt::ForEach {
            variable,
            array,
            body,
            ..
        } => {
            page.put(&["(each "]);
            write_identifier(page, names, variable.name);
            page.put(&[" "]);
            write_expression(page, names, array);
            page.put(&[" "]);
            write_statement(page, names, body);
            page.put(&[")"])
        }
        Stmt::ThisCall { arguments, .. } => {
            page.put(&["this("]);
            write_list(page, names, arguments);
            page.put(&[");"])
        }
        Stmt::SuperCall { arguments, .. } => {
            page.put(&["super("]);
            write_list(page, names, arguments);
            page.put(&[");"])
        }
    }
}
