//! What `specs/WellFormed.antt` says of single trees, as code: contexts of statements, modifiers, operators, and which expressions and
//! statements may stand where.
ghost use Rattle.std.specs.Prelude.{◌≡◌, ◌∷◌, List};
ghost use Rattle.jn_trees.specs.Bearers.{may};
ghost use Rattle.jn_trees.specs.Clear.{clear, clear_behind};
ghost use Rattle.jn_trees.specs.Trees.{Mark, PublicMark};
ghost use Rattle.jn_trees.specs.View.{local_mark, local_marks, mark, marks, statement_view, view};
ghost use Rattle.jn_trees.specs.WellFormed as good;

use crate::context::Context;
use crate::declaration::{Bearer, Modifier};
use crate::expression::{BinaryOperator, Expr};
use crate::statement::{LocalModifier, Stmt};

/// The greatest nesting of a statement or an initializer.
pub const DEEPEST: u32 = 500;

/// The power of `*`, `/` and `%`, which bind most strongly (JLS 15.17).
pub const MULTIPLICATIVE: u32 = 1;

/// The power of `+` and `-` between operands (JLS 15.18).
pub const ADDITIVE: u32 = MULTIPLICATIVE + 1;

/// The power of `<`, `>`, `<=`, `>=` and `instanceof` (JLS 15.20).
pub const RELATIONAL: u32 = ADDITIVE + 1;

/// The power of `==` and `!=` (JLS 15.21).
pub const EQUALITY: u32 = RELATIONAL + 1;

/// The power of `&&` (JLS 15.23).
pub const CONJUNCTION: u32 = EQUALITY + 1;

/// The power of `||` (JLS 15.24).
pub const DISJUNCTION: u32 = CONJUNCTION + 1;

/// The power of the operators that bind least strongly.
pub const LOOSEST_POWER: u32 = DISJUNCTION;

impl Context {
    /// Where a statement of a body stands, which leads where it is a constructor's first (JLS 8.8.7).
    pub fn of_body(leading: bool) -> Context
        ensures { result ≡ good.body_context leading }
    {
        Context {
            in_loop: false,
            direct: true,
            leading,
        }
    }

    /// Where the parts of an `if` stand that itself stands here (JLS 14.9).
    pub fn under(self) -> Context
        ensures { result ≡ good.under self }
    {
        Context {
            in_loop: self.in_loop,
            direct: false,
            leading: false,
        }
    }

    /// Where the statements of a block stand that itself stands here (JLS 14.2).
    pub fn in_block(self) -> Context
        ensures { result ≡ good.in_block self }
    {
        Context {
            in_loop: self.in_loop,
            direct: true,
            leading: false,
        }
    }

    /// Where the body of a loop stands (JLS 14.12 to 14.14).
    pub fn loop_body() -> Context
        ensures { result ≡ good.loop_body }
    {
        Context {
            in_loop: true,
            direct: false,
            leading: false,
        }
    }
}

impl BinaryOperator {
    /// How weakly the operator binds (JLS 15.17 to 15.24).
    pub fn power(self) -> u32
        ensures { result ≡ good.power self }
    {
        match self {
            BinaryOperator::Multiply | BinaryOperator::Divide | BinaryOperator::Remainder =>
                MULTIPLICATIVE,
            BinaryOperator::Add | BinaryOperator::Subtract => ADDITIVE,
            BinaryOperator::Less
            | BinaryOperator::Greater
            | BinaryOperator::LessEqual
            | BinaryOperator::GreaterEqual => RELATIONAL,
            BinaryOperator::Equal | BinaryOperator::NotEqual => EQUALITY,
            BinaryOperator::And => CONJUNCTION,
            BinaryOperator::Or => DISJUNCTION,
        }
    }
}

impl Expr {
    /// Whether the expression can be assigned: a name, a field, an element (JLS 15.26).
    pub fn is_left_side(&self) -> bool
        ensures { result ≡ good.is_left_side (view self.now) }
    {
        match self {
            Expr::Name { .. } => true,
            Expr::Field { .. } => true,
            Expr::Index { .. } => true,
            _ => false,
        }
    }

    /// Whether an index may stand after the expression: not after a new array (JLS 15.10.3).
    pub fn is_indexable(&self) -> bool
        ensures { result ≡ good.is_indexable (view self.now) }
    {
        match self {
            Expr::NewArray { .. } => false,
            Expr::ArrayOf { .. } => false,
            _ => true,
        }
    }

    /// Whether the expression can stand as a statement: a call, a new object, a step or an assignment (JLS 14.8).
    pub fn is_effect(&self) -> bool
        ensures { result ≡ good.is_effect (view self.now) }
    {
        match self {
            Expr::Call { .. } => true,
            Expr::OwnCall { .. } => true,
            Expr::SuperCall { .. } => true,
            Expr::New { .. } => true,
            Expr::Postfix { .. } => true,
            Expr::Prefix { .. } => true,
            Expr::Assign { .. } => true,
            _ => false,
        }
    }
}

impl Stmt {
    /// Whether the statement ends with an `if` that has no `else` (JLS 14.5).
    pub fn ends_open(&self) -> bool
        ensures { result ≡ good.ends_open (statement_view self.now) }
    {
        match self {
            Stmt::If { .. } => true,
            Stmt::IfElse { otherwise, .. } => otherwise.ends_open(),
            Stmt::While { body, .. } => body.ends_open(),
            Stmt::For { body, .. } => body.ends_open(),
            Stmt::ForEach { body, .. } => body.ends_open(),
            _ => false,
        }
    }
}

impl LocalModifier {
    /// Whether this is `final` (JLS 4.12.4).
    pub fn is_final(&self) -> bool
        ensures { result ≡ good.is_final_mark (local_mark self.now) }
    {
        match self {
            LocalModifier::Annotation(_) => false,
            LocalModifier::Final(_) => true,
        }
    }
}

/// Whether `final` stands at most once (JLS 8.4.1, 14.4).
pub fn final_once(modifiers: &[LocalModifier]) -> bool
    ensures { result ≡ good.final_once (local_marks modifiers.now) }
{
    let mut seen = false;
    for modifier in modifiers {
        if modifier.is_final() {
            if seen {
                return false;
            }
            seen = true;
        }
    }
    true
}

impl Modifier {
    /// Whether this is a word of access (JLS 6.6).
    pub fn is_access(&self) -> bool
        ensures { result ≡ good.is_access (mark self.now) }
    {
        match self {
            Modifier::Public(_) => true,
            Modifier::Protected(_) => true,
            Modifier::Private(_) => true,
            _ => false,
        }
    }

    /// Whether this is `static` (JLS 8.3.1.1, 8.4.3.2).
    pub fn is_static(&self) -> bool
        ensures { result ≡ good.is_static_mark (mark self.now) }
    {
        match self {
            Modifier::Static(_) => true,
            _ => false,
        }
    }

    /// Whether this may stand before a class (JLS 8.1.1).
    pub fn marks_type(&self) -> bool
        ensures { result ≡ good.marks_type (mark self.now) }
    {
        match self {
            Modifier::Protected(_) => false,
            Modifier::Private(_) => false,
            Modifier::Static(_) => false,
            _ => true,
        }
    }

    /// Whether this may stand before an interface (JLS 9.1.1).
    pub fn marks_interface(&self) -> bool
        ensures { result ≡ good.marks_interface (mark self.now) }
    {
        match self {
            Modifier::Final(_) => false,
            _ => self.marks_type(),
        }
    }

    /// Whether this may stand before a field (JLS 8.3.1).
    pub fn marks_field(&self) -> bool
        ensures { result ≡ good.marks_field (mark self.now) }
    {
        match self {
            Modifier::Abstract(_) => false,
            _ => true,
        }
    }

    /// Whether this may stand before a method of an interface (JLS 9.4).
    pub fn marks_interface_method(&self) -> bool
        ensures { result ≡ good.marks_interface_method (mark self.now) }
    {
        match self {
            Modifier::Annotation(_) => true,
            Modifier::Public(_) => true,
            Modifier::Abstract(_) => true,
            _ => false,
        }
    }

    /// Whether this may stand before a constructor (JLS 8.8.3).
    pub fn marks_constructor(&self) -> bool
        ensures { result ≡ good.marks_constructor (mark self.now) }
    {
        match self {
            Modifier::Annotation(_) => true,
            _ => self.is_access(),
        }
    }

    /// Whether this may stand before that (JLS 8.1.1, 8.3.1, 8.4.3, 8.8.3, 9.1.1, 9.4).
    pub fn may_stand(&self, bearer: Bearer) -> bool
        ensures { result ≡ may bearer (mark self.now) }
    {
        match bearer {
            Bearer::Class => self.marks_type(),
            Bearer::Interface => self.marks_interface(),
            Bearer::Field => self.marks_field(),
            Bearer::Method => true,
            Bearer::InterfaceMethod => self.marks_interface_method(),
            Bearer::Constructor => self.marks_constructor(),
        }
    }
}

/// Whether each of these may stand before that.
pub fn every_may_stand(modifiers: &[Modifier], bearer: Bearer) -> bool
    ensures { result ≡ good.every (may bearer) (marks modifiers.now) }
{
    for modifier in modifiers {
        if !modifier.may_stand(bearer) {
            return false;
        }
    }
    true
}

/// Whether `static` is one of these (JLS 8.3.1.1, 8.4.3.2).
pub fn has_static(modifiers: &[Modifier]) -> bool
    ensures { result ≡ good.has_static (marks modifiers.now) }
{
    for modifier in modifiers {
        if modifier.is_static() {
            return true;
        }
    }
    false
}

/// The words that stand before others: one of access, `static`, `final`, `abstract`.
#[derive(Clone, Copy)]
struct Words {
    access: bool,
    fixed: bool,
    constant: bool,
    without_body: bool,
}

/// These words with one modifier more, where it clashes with none of them.
#[tactic(auto, using(crate::proofs::Marks::clear_note))]
fn with_modifier(words: Words, modifier: &Modifier) -> Option<Words>
    ensures { (ms : List Mark) → clear words (mark modifier.now ∷ ms) ≡ clear_behind result ms }
{
    match modifier {
        Modifier::Annotation(_) => Some(words),
        Modifier::Static(_) => {
            if words.fixed {
                None
            } else {
                Some(Words {
                    fixed: true,
                    ..words
                })
            }
        }
        Modifier::Final(_) => {
            if words.constant {
                None
            } else {
                Some(Words {
                    constant: true,
                    ..words
                })
            }
        }
        Modifier::Abstract(_) => {
            if words.without_body {
                None
            } else {
                Some(Words {
                    without_body: true,
                    ..words
                })
            }
        }
        Modifier::Public(_) => with_access(words),
        Modifier::Protected(_) => with_access(words),
        Modifier::Private(_) => with_access(words),
    }
}

/// These words with one of access more.
fn with_access(words: Words) -> Option<Words>
    ensures { (ms : List Mark) → clear words (PublicMark ∷ ms) ≡ clear_behind result ms }
{
    if words.access {
        None
    } else {
        Some(Words {
            access: true,
            ..words
        })
    }
}

/// Whether no modifier stands twice, and at most one word of access stands (JLS 8.1.1, 8.3.1, 8.4.3).
pub fn no_clash(modifiers: &[Modifier]) -> bool
    ensures { result ≡ good.no_clash (marks modifiers.now) }
{
    let mut words = Words {
        access: false,
        fixed: false,
        constant: false,
        without_body: false,
    };
    for modifier in modifiers {
        match with_modifier(words, modifier) {
            None => return false,
            Some(more) => words = more,
        }
    }
    true
}
