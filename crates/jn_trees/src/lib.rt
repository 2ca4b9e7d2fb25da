//! Tokens, names and trees.
//!
//! [`Token`] has its kind and span, and names stand in [`Names`] by number. [`Expr`], [`Stmt`] and [`FileTree`] are the trees (JLS 7 to 9,
//! 14 and 15). `specs/Trees.antt` has them without places, `specs/WellFormed.antt` what is well formed, and `specs/Spelling.antt` the
//! tokens that spell a tree, by which parsing is defined.
#![tactic(auto)]

pub mod brackets;
pub mod context;
pub mod declaration;
pub mod expression;
pub mod law;
pub mod names;
pub mod reading;
pub mod statement;
pub mod token;
pub mod well_formed;

pub use brackets::too_deep;
pub use context::{Context, Owner};
pub use declaration::{
    Bearer, FileTree, Import, Member, Modifier, PackageLine, Parameter, QualifiedName, Receiver,
    ResultUse, TypeTree,
};
pub use expression::{
    Annotation, AssignOperator, Base, BinaryOperator, ElementType, Expr, Identifier, Literal, Step,
    UnaryOperator,
};
pub use names::Names;
pub use statement::{Declarator, ForHead, ForInit, LocalDeclaration, LocalModifier, Stmt, TypeUse};
pub use token::{Token, TokenKind};
pub use well_formed::{
    DEEPEST, LOOSEST_POWER, RELATIONAL, every_may_stand, final_once, has_static, no_clash,
};
