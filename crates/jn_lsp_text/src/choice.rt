//! Which members are inferred by the settings.
ghost use Rattle.std.specs.Prelude.{◌≡◌};
ghost use Rattle.jn_lsp_text.specs.Choices as spec;

use jn_base::Infer;

/// What is said of the members that are inferred.
#[derive(Clone, Copy, Debug, PartialEq, Eq)]
pub enum Choice {
    /// Nothing.
    Unsaid,
    /// They are these.
    Said(Infer),
    /// Something that says none.
    Wrong,
}

/// What this name says: `private` or `package`.
pub fn choice_named(name: &str) -> Choice
    ensures { result ≡ spec.choice_named name.now }
{
    if name == "private" {
        Choice::Said(Infer::Private)
    } else if name == "package" {
        Choice::Said(Infer::Package)
    } else {
        Choice::Wrong
    }
}

/// The members that are inferred by a choice, where it says so; else these.
pub fn chosen(choice: Choice, infer: Infer) -> Infer
    ensures { result ≡ spec.chosen choice infer }
{
    match choice {
        Choice::Said(said) => said,
        Choice::Unsaid => infer,
        Choice::Wrong => infer,
    }
}
