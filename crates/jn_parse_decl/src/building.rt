//! What has been read of a file: what is closed, and the open type and member.
ghost use Rattle.std.specs.Prelude.{◌≡◌, OnOk, Some, None, map, option_map};
ghost use Rattle.jn_trees.specs.View.{file_view, member_view, member_views, type_view, statement_view, marks, type_use_view, declarator_view, declarator_views, result_view, receiver_view, parameter_views};
ghost use Rattle.jn_trees.specs.Trees.{FieldMember, MethodMember};
ghost use Rattle.jn_trees.specs.Covered.{joined};
ghost use Rattle.jn_parse_decl_law.specs.Built as law;
ghost use Rattle.jn_parse_decl.specs.Seen.{piece_view, built_view, inside_of, body_of, opening, member_opening};

use crate::piece::{ConstructorHead, FieldParts, MethodHead, Piece, TypeHead};
use jn_base::lists::put;
use jn_base::{OutOfMemory, Span};
use jn_trees::{FileTree, Import, Member, PackageLine, Stmt, TypeTree};
use std::alloc::Global;

/// What stands before the brace of a body.
#[derive(Drop)]
pub enum MemberHead {
    Method(MethodHead),
    Constructor(ConstructorHead),
}

/// A member whose body is open, and the place of its head.
#[derive(Drop)]
pub struct OpenMember {
    pub head: MemberHead,
    pub statements: Vec<Stmt>,
    pub from: Span,
}

/// A type that is open, with its closed members and the one that is open, and the place of its head.
#[derive(Drop)]
pub struct OpenType {
    pub head: TypeHead,
    pub members: Vec<Member>,
    pub body: Option<OpenMember>,
    pub from: Span,
}

/// What has been read.
#[derive(Drop)]
pub struct Built {
    pub package: Option<PackageLine>,
    pub imports: Vec<Import>,
    pub types: Vec<TypeTree>,
    pub inside: Option<OpenType>,
}

/// Nothing yet.
pub fn nothing(alloc: Global) -> Built
    ensures { built_view result ≡ law.nothing }
{
    Built {
        package: None,
        imports: Vec::new(alloc),
        types: Vec::new(alloc),
        inside: None,
    }
}

/// The file, where nothing is open.
pub fn finished(built: Built) -> Option<FileTree>
    ensures { option_map file_view result ≡ law.finished (built_view built) }
{
    let Built {
        package,
        imports,
        types,
        inside,
    } = built;
    match inside {
        Some(_) => None,
        None => Some(FileTree {
            package,
            imports,
            types,
        }),
    }
}

/// Puts one piece more, which stands at this place, after what has been read.
pub fn add(alloc: Global, built: &mut Built, piece: Piece, place: Span) -> Result<(), OutOfMemory>
    ensures { OnOk result (built_view built.new ≡ law.add (built_view built.old) (piece_view piece)) }
{
    match piece {
        Piece::Package(line) => {
            built.package = Some(line);
            Ok(())
        }
        Piece::Import(import) => {
            put(&mut built.imports, import)?;
            Ok(())
        }
        Piece::TypeHead(head) => {
            built.inside = Some(open_type(alloc, head, place));
            Ok(())
        }
        Piece::Field(field) => put_member(&mut built.inside, field_of(field, place)),
        Piece::Method(head) => put_member(&mut built.inside, method_of(head, place)),
        Piece::MethodHead(head) => {
            open_body(alloc, &mut built.inside, MemberHead::Method(head), place);
            Ok(())
        }
        Piece::ConstructorHead(head) => {
            open_body(
                alloc,
                &mut built.inside,
                MemberHead::Constructor(head),
                place,
            );
            Ok(())
        }
        Piece::Statement(statement) => put_statement(&mut built.inside, statement),
        Piece::BodyEnd => close_body(&mut built.inside, place),
        Piece::TypeEnd => close_type(&mut built.types, &mut built.inside, place),
    }
}

/// From the first place through the last.
fn through(first: Span, last: Span) -> Span
    ensures { result ≡ joined first last }
{
    Span {
        file: first.file,
        from: first.from,
        to: last.to,
    }
}

fn open_type(alloc: Global, head: TypeHead, from: Span) -> OpenType
    ensures { inside_of (Some result) ≡ law.open_type (opening head) }
{
    OpenType {
        head,
        members: Vec::new(alloc),
        body: None,
        from,
    }
}

pub fn field_of(field: FieldParts, span: Span) -> Member
    ensures { member_view result
        ≡ FieldMember (marks field.modifiers.items) (type_use_view field.type_use)
        (declarator_view field.first) (declarator_views field.more.items) }
{
    let FieldParts {
        modifiers,
        type_use,
        first,
        more,
    } = field;
    Member::Field {
        modifiers,
        type_use,
        first,
        more,
        span,
    }
}

/// A method without body.
pub fn method_of(head: MethodHead, span: Span) -> Member
    ensures { member_view result
        ≡ MethodMember (marks head.modifiers.items) (result_view head.result) head.name.name
        (receiver_view head.receiver) (parameter_views head.parameters.items) None }
{
    let MethodHead {
        modifiers,
        result,
        name,
        receiver,
        parameters,
    } = head;
    Member::Method {
        modifiers,
        result,
        name,
        receiver,
        parameters,
        body: None,
        span,
    }
}

/// Puts the member after those of the open type.
fn put_member(inside: &mut Option<OpenType>, member: Member) -> Result<(), OutOfMemory>
    ensures { OnOk result (inside_of inside.new
        ≡ law.with_member (member_view member) (inside_of inside.old)) }
{
    match inside {
        None => Ok(()),
        Some(open) => {
            put(&mut open.members, member)?;
            Ok(())
        }
    }
}

/// Opens the body of a member of the open type.
fn open_body(alloc: Global, inside: &mut Option<OpenType>, head: MemberHead, from: Span)
    ensures { inside_of inside.new ≡ law.open_body (member_opening head) (inside_of inside.old) }
{
    match inside {
        None => {}
        Some(open) => {
            open.body = Some(OpenMember {
                head,
                statements: Vec::new(alloc),
                from,
            });
        }
    }
}

/// Puts the statement after those of the open member of the open type. Where none is open it is dropped by a call,
/// since a drop written out here would set up its locals for each statement.
fn put_statement(inside: &mut Option<OpenType>, statement: Stmt) -> Result<(), OutOfMemory>
    ensures { OnOk result (inside_of inside.new
        ≡ law.with_statement (statement_view statement) (inside_of inside.old)) }
{
    match inside {
        None => {
            drop(statement);
            Ok(())
        }
        Some(open) => lengthen(&mut open.body, statement),
    }
}

/// Puts the statement after those of the open member.
fn lengthen(body: &mut Option<OpenMember>, statement: Stmt) -> Result<(), OutOfMemory>
    ensures { OnOk result (body_of body.new
        ≡ law.longer_body (statement_view statement) (body_of body.old)) }
{
    match body {
        None => {
            drop(statement);
            Ok(())
        }
        Some(member) => {
            put(&mut member.statements, statement)?;
            Ok(())
        }
    }
}

/// Closes the open member of the open type.
fn close_body(inside: &mut Option<OpenType>, end: Span) -> Result<(), OutOfMemory>
    ensures { OnOk result (inside_of inside.new ≡ law.close_body (inside_of inside.old)) }
{
    match inside {
        None => Ok(()),
        Some(open) => close_member(&mut open.members, open.body.take(), end),
    }
}

/// Puts the member whose body ends here after the others.
fn close_member(
    members: &mut Vec<Member>,
    body: Option<OpenMember>,
    end: Span,
) -> Result<(), OutOfMemory>
    ensures { OnOk result (member_views members.new.items
        ≡ law.members_with (member_views members.old.items) (body_of body)) }
{
    match body {
        None => Ok(()),
        Some(
            OpenMember {
                head,
                statements,
                from,
            },
        ) => {
            put(members, member_of(head, statements, through(from, end)))?;
            Ok(())
        }
    }
}

#[tactic(auto, using(crate::proofs::Views::same_statements))]
pub fn member_of(head: MemberHead, body: Vec<Stmt>, span: Span) -> Member
    ensures { member_view result
        ≡ law.member_of (member_opening head) (map statement_view body.items) }
{
    match head {
        MemberHead::Method(
            MethodHead {
                modifiers,
                result,
                name,
                receiver,
                parameters,
            },
        ) => Member::Method {
            modifiers,
            result,
            name,
            receiver,
            parameters,
            body: Some(body),
            span,
        },
        MemberHead::Constructor(
            ConstructorHead {
                modifiers,
                name,
                parameters,
            },
        ) => Member::Constructor {
            modifiers,
            name,
            parameters,
            body,
            span,
        },
    }
}

/// Puts the type that ends here after the others.
fn close_type(
    types: &mut Vec<TypeTree>,
    inside: &mut Option<OpenType>,
    end: Span,
) -> Result<(), OutOfMemory>
    ensures types { OnOk result (map type_view types.new.items
        ≡ law.types_with (map type_view types.old.items) (inside_of inside.old)) }
    ensures inside { inside.new ≡ None }
{
    match inside.take() {
        None => Ok(()),
        Some(
            OpenType {
                head,
                members,
                body,
                from,
            },
        ) => {
            drop(body);
            put(types, type_of(head, members, through(from, end)))?;
            Ok(())
        }
    }
}

fn type_of(head: TypeHead, members: Vec<Member>, span: Span) -> TypeTree
    ensures { type_view result ≡ law.type_of (opening head) (member_views members.items) }
{
    match head {
        TypeHead::Class {
            modifiers,
            name,
            parent,
            interfaces,
        } => TypeTree::Class {
            modifiers,
            name,
            parent,
            interfaces,
            members,
            span,
        },
        TypeHead::Interface {
            modifiers,
            name,
            parents,
        } => TypeTree::Interface {
            modifiers,
            name,
            parents,
            members,
            span,
        },
    }
}
