//! Which declarations of locals are well formed.
ghost use Rattle.std.specs.Prelude.{◌≡◌, ◌↔◌, ◌-◌, ◌^◌, ◌∷◌, min, IsTrue};
ghost use Rattle.jn_trees.specs.WellFormed.{GoodOptional, GoodDeclarators, GoodLocal, GoodInit, GoodEffects, nesting_declarators as spec_declarators, nesting_local as spec_local, nesting_init as spec_init};
ghost use Rattle.jn_trees.specs.View.{views, optional_view, declarator_view, declarator_views, local_view, init_view};

use crate::good::good;
use crate::nesting::{nesting_all, nesting_optional};
use jn_base::number::larger;
use jn_trees::{Declarator, Expr, ForInit, LocalDeclaration, final_once};

/// Whether the expression, where there is one, is well formed.
pub fn good_optional(expression: &Option<Box<Expr>>) -> bool
    ensures { IsTrue result ↔ GoodOptional (optional_view expression.now) }
{
    match expression {
        None => true,
        Some(expression) => good(expression),
    }
}

/// Whether each of the expressions is well formed and can stand as a statement.
pub fn good_effects(expressions: &[Expr]) -> bool
    ensures { IsTrue result ↔ GoodEffects (views expressions.now) }
{
    for expression in expressions {
        if !(good(expression) && expression.is_effect()) {
            return false;
        }
    }
    true
}

/// Whether the initializers are well formed.
pub fn good_declarators(declarators: &[Declarator]) -> bool
    ensures { IsTrue result ↔ GoodDeclarators (declarator_views declarators.now) }
{
    for declarator in declarators {
        if !good_optional(&declarator.value) {
            return false;
        }
    }
    true
}

/// Whether the declaration of locals is well formed.
pub fn good_local(declaration: &LocalDeclaration) -> bool
    ensures { IsTrue result ↔ GoodLocal (local_view declaration.now) }
{
    final_once(&declaration.modifiers)
        && good_optional(&declaration.first.value)
        && good_declarators(&declaration.more)
}

/// Whether what a `for` begins with is well formed.
pub fn good_init(init: &ForInit) -> bool
    ensures { IsTrue result ↔ GoodInit (init_view init.now) }
{
    match init {
        ForInit::Expressions(expressions) => good_effects(expressions),
        ForInit::Declaration(declaration) => good_local(declaration),
    }
}

/// How deep the deepest initializer is nested.
pub fn nesting_declarators(declarators: &[Declarator]) -> u32
    ensures { result ≡ min (spec_declarators (declarator_views declarators.now)) (2 ^ 32 - 1) }
{
    let mut deepest: u32 = 0;
    for declarator in declarators {
        deepest = larger(deepest, nesting_optional(&declarator.value));
    }
    deepest
}

/// How deep the deepest initializer of a declaration is nested.
pub fn nesting_first(first: &Declarator, more: &[Declarator]) -> u32
    ensures { result
        ≡ min (spec_declarators (declarator_view first.now ∷ declarator_views more.now))
        (2 ^ 32 - 1) }
{
    larger(nesting_optional(&first.value), nesting_declarators(more))
}

/// How deep the deepest initializer of a declaration of locals is nested.
pub fn nesting_local(declaration: &LocalDeclaration) -> u32
    ensures { result ≡ min (spec_local (local_view declaration.now)) (2 ^ 32 - 1) }
{
    nesting_first(&declaration.first, &declaration.more)
}

/// How deep the deepest expression of what a `for` begins with is nested.
pub fn nesting_init(init: &ForInit) -> u32
    ensures { result ≡ min (spec_init (init_view init.now)) (2 ^ 32 - 1) }
{
    match init {
        ForInit::Expressions(expressions) => nesting_all(expressions),
        ForInit::Declaration(declaration) => nesting_local(declaration),
    }
}
