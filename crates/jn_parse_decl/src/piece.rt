//! The pieces of a file, and what stands around each.
ghost use Rattle.std.specs.Prelude.{◌≡◌};
ghost use Rattle.jn_trees.specs.Pieces as trees;
ghost use Rattle.jn_parse_decl.specs.Seen.{piece_view, around_view, head_piece};

use jn_trees::{
    Declarator, Identifier, Import, Modifier, Owner, PackageLine, Parameter, Receiver, ResultUse,
    Stmt, TypeUse,
};

/// What stands before the members of a type.
#[derive(Drop)]
pub enum TypeHead {
    Class {
        modifiers: Vec<Modifier>,
        name: Identifier,
        parent: Option<Identifier>,
        interfaces: Vec<Identifier>,
    },
    Interface {
        modifiers: Vec<Modifier>,
        name: Identifier,
        parents: Vec<Identifier>,
    },
}

/// A declaration of fields.
#[derive(Drop)]
pub struct FieldParts {
    pub modifiers: Vec<Modifier>,
    pub type_use: TypeUse,
    pub first: Declarator,
    pub more: Vec<Declarator>,
}

/// A method but for its body.
#[derive(Drop)]
pub struct MethodHead {
    pub modifiers: Vec<Modifier>,
    pub result: ResultUse,
    pub name: Identifier,
    pub receiver: Option<Receiver>,
    pub parameters: Vec<Parameter>,
}

/// A constructor but for its body.
#[derive(Drop)]
pub struct ConstructorHead {
    pub modifiers: Vec<Modifier>,
    pub name: Identifier,
    pub parameters: Vec<Parameter>,
}

/// A piece of a file: a line, a head through its opening brace, a member without body, a top statement of a body, or the brace that ends a body or a type.
#[derive(Drop)]
pub enum Piece {
    Package(PackageLine),
    Import(Import),
    TypeHead(TypeHead),
    Field(FieldParts),
    /// A method that has no body.
    Method(MethodHead),
    /// A method that has one.
    MethodHead(MethodHead),
    ConstructorHead(ConstructorHead),
    Statement(Stmt),
    BodyEnd,
    TypeEnd,
}

/// Where a piece stands: first in a file, after a line, after a type, in a type, or in a body, where the next statement may be the first of a constructor.
#[derive(Clone, Copy)]
pub enum Around {
    AtStart,
    BehindLines,
    BehindTypes,
    InType(Owner),
    InBody { owner: Owner, leading: bool },
}

/// What stands around the piece after this one.
pub fn behind(around: Around, piece: &Piece) -> Around
    ensures { around_view result ≡ trees.behind (around_view around) (piece_view piece.now) }
{
    match around {
        Around::InType(owner) => behind_member(owner, piece),
        Around::InBody { owner, .. } => behind_statement(owner, piece),
        _ => behind_outer(piece),
    }
}

fn behind_member(owner: Owner, piece: &Piece) -> Around
    ensures { around_view result ≡ trees.behind_member owner (piece_view piece.now) }
{
    match piece {
        Piece::MethodHead(_) => Around::InBody {
            owner,
            leading: false,
        },
        Piece::ConstructorHead(_) => Around::InBody {
            owner,
            leading: true,
        },
        Piece::TypeEnd => Around::BehindTypes,
        _ => Around::InType(owner),
    }
}

fn behind_statement(owner: Owner, piece: &Piece) -> Around
    ensures { around_view result ≡ trees.behind_statement owner (piece_view piece.now) }
{
    match piece {
        Piece::BodyEnd => Around::InType(owner),
        _ => Around::InBody {
            owner,
            leading: false,
        },
    }
}

fn behind_outer(piece: &Piece) -> Around
    ensures { around_view result ≡ trees.behind_outer (piece_view piece.now) }
{
    match piece {
        Piece::TypeHead(head) => in_type(head),
        _ => Around::BehindLines,
    }
}

fn in_type(head: &TypeHead) -> Around
    ensures { around_view result ≡ trees.behind_outer (head_piece head.now) }
{
    match head {
        TypeHead::Class { name, .. } => Around::InType(Owner {
            interface: false,
            name: name.name,
        }),
        TypeHead::Interface { name, .. } => Around::InType(Owner {
            interface: true,
            name: name.name,
        }),
    }
}
