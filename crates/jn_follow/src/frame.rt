//! What may stand next.
use jn_base::NameNo;
use jn_trees::{Context, Owner};

/// Where an expression stands: as a statement or an update, where anything may stand, or as an operand, which is no assignment.
#[derive(Clone, Copy)]
pub enum Mode {
    /// a statement or an update
    Effect,
    /// any expression
    Whole,
    /// an operand
    Part,
}

/// What an expression ends with.
#[derive(Clone, Copy)]
pub enum Stage {
    /// a name, alone or after a dot
    Named,
    /// an element of an array
    Element,
    /// a literal, `this`, or parentheses
    Primary,
    /// a name in parentheses: perhaps a cast
    Casting,
    /// arguments of a call or of `new C(..)`
    Called,
    /// a new array
    Array,
    /// a step, or the name after `instanceof`
    Done,
}

/// One of the things that may stand next. Of a stack of them the top one is looked at; what is below it may follow where it ends.
#[derive(Clone, Copy)]
pub enum Frame {
    /// the package line, and what follows it
    Start,
    /// imports and types
    Lines,
    /// types
    Types,
    /// after an annotation or a modifier of a type
    TypeMarked,
    /// after `class`
    ClassWord,
    /// after `interface`
    InterfaceWord,
    /// after the name of a class, which this is
    ClassNamed(NameNo),
    /// after the superclass
    Extended(NameNo),
    /// after the name of an interface
    InterfaceNamed(NameNo),
    /// after a name of a list in a head of this type
    Listed(Owner),
    /// after a name of a package line
    Dotted,
    /// after a name of an import
    ImportDotted,
    /// after a dot of an import
    ImportDot,
    /// members of this type
    Members(Owner),
    /// after an annotation or a modifier of a member
    Marked(Owner),
    /// after a name that begins a member: may it be a constructor's; in an interface or not
    MemberNamed(bool, bool),
    /// after the type and name of a member; in an interface or not
    MemberDeclared(bool),
    /// after the parameters of a method
    MethodEnd(bool),
    /// parameters through `)`, or `)`; a receiver may be the first or not
    Parameters(bool),
    /// one parameter
    Parameter(bool),
    /// after the type of a parameter
    ParameterTyped(bool),
    /// after a parameter
    MoreParameters,
    /// after a type without brackets
    TypeEnd,
    /// after an annotation of an array
    ArrayMarked,
    /// after the name of a declarator
    Declared,
    /// after a declarator
    MoreDeclared,
    /// statements through `}`
    Body(Context),
    /// one statement
    Statement(Context),
    /// after a statement under `if`
    Else(Context),
    /// after `return`
    Returned,
    /// after `this` that begins a statement; the first of a constructor or not
    ThisFirst(bool),
    /// the same after `super`
    SuperFirst(bool),
    /// after an annotation or `final` of a local; of a `for` or not
    LocalMarked(bool),
    /// after a name that begins a local or an expression
    NameFirst(bool),
    /// after such a name and `[`
    BracketFirst(bool),
    /// after `for (`
    ForInit,
    /// after type and name in a `for`
    ForDeclared,
    /// after the first `;` of a `for`
    ForCondition,
    /// after the second
    ForUpdate,
    /// after an expression of a `for`
    MoreEffects,
    /// an expression or an operand
    Operand(Mode),
    /// after one
    Operator(Mode, Stage),
    /// after `(`
    Inner(Mode),
    /// after `(` and a name
    InnerNamed(Mode),
    /// after `new`
    Created(Mode),
    /// after `new` and an annotation
    ArrayCreated(Mode),
    /// after `new` and a name
    ClassCreated(Mode),
    /// after the `[` of a new array
    Size(Mode),
    /// expressions through `)`, or `}` of an array
    Items(bool),
    /// after one of them
    MoreItems(bool),
    /// a name
    Name,
    /// `(`
    OpenParen,
    /// `)`
    CloseParen,
    /// `[`
    OpenBracket,
    /// `]`
    CloseBracket,
    /// `{`
    OpenBrace,
    /// `;`
    End,
    /// `:`
    Other,
    /// `.`
    Point,
    /// `while`
    Again,
}
