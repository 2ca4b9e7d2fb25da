//! Warnings about files that aren't checked.
ghost use Rattle.std.specs.Prelude.{◌≡◌, ◌++◌, ◌∷◌, [], IfOk, OnOk, map};
ghost use Rattle.nullcheck_lsp_top.specs.Reading as spec;

use jn_base::{Seq, Text};
use jn_folder::each_once;
use jn_lsp_text::Reply;
use std::alloc::{AllocError, Global};

/// What each warning begins with.
const PROGRAM: &str = "nullcheck: ";

const MANY: &str =
    "nullcheck: there are more than 64 files, so none is checked; name those that are wanted in initializationOptions.files";

/// The most files that are checked.
pub(crate) const MOST: usize = 64;

/// A text of three pieces.
fn sentence(alloc: Global, front: &str, name: &str, back: &str) -> Result<Text, AllocError>
    ensures { IfOk result (λ text. text ≡ front.now ++ name.now ++ back.now) }
{
    let mut text = String::from_str(alloc, front)?;
    text.push_str(name)?;
    text.push_str(back)?;
    Ok(Text::of_string(text))
}

/// Puts a warning for each of these folders after the others.
fn warn_unlisted(alloc: Global, paths: &[Text], warnings: &mut Seq<Text>) -> Result<(), AllocError>
    ensures { OnOk result (warnings.new ≡ warnings.old ++ map spec.unlisted_words paths.now) }
{
    for path in paths {
        let words = sentence(
            alloc,
            PROGRAM,
            path.as_str(),
            ": this folder can't be listed",
        )?;
        warnings.push(words)?;
    }
    Ok(())
}

/// Puts a warning for each of these folders after the others, in which a name is no text.
fn warn_unnamed(alloc: Global, paths: &[Text], warnings: &mut Seq<Text>) -> Result<(), AllocError>
    ensures { OnOk result (warnings.new ≡ warnings.old ++ map spec.unnamed_words paths.now) }
{
    for path in paths {
        let words = sentence(
            alloc,
            PROGRAM,
            path.as_str(),
            ": a name in this folder is no text (UTF-8), so it is left out",
        )?;
        warnings.push(words)?;
    }
    Ok(())
}

/// Puts a warning for each of these files after the others.
fn warn_unread(alloc: Global, paths: &[Text], warnings: &mut Seq<Text>) -> Result<(), AllocError>
    ensures { OnOk result (warnings.new ≡ warnings.old ++ map spec.unread_words paths.now) }
{
    for path in paths {
        let words = sentence(alloc, PROGRAM, path.as_str(), ": this file can't be read")?;
        warnings.push(words)?;
    }
    Ok(())
}

/// The warning of so many files, where they are too many.
fn warn_many(alloc: Global, count: usize) -> Result<Seq<Text>, AllocError>
    ensures { IfOk result (λ warnings. warnings ≡ spec.warned_many count) }
{
    let mut warnings = Seq::new(alloc);
    if count > MOST {
        warnings.push(Text::of_str(alloc, MANY)?)?;
    }
    Ok(warnings)
}

/// The warnings: where there are too many files, then of folders that can't be listed, or in which a name is no text, then of files that
/// can't be read.
pub(crate) fn warnings_of(
    alloc: Global,
    count: usize,
    missed: &[Text],
    unnamed: &[Text],
    lost: &[Text],
) -> Result<Seq<Text>, AllocError>
    ensures { IfOk result (λ warnings. warnings
        ≡ spec.warnings_of count missed.now unnamed.now lost.now) }
{
    let mut warnings = warn_many(alloc, count)?;
    warn_unlisted(alloc, missed, &mut warnings)?;
    let strange = each_once(alloc, unnamed)?;
    warn_unnamed(alloc, strange.as_slice(), &mut warnings)?;
    warn_unread(alloc, lost, &mut warnings)?;
    Ok(warnings)
}

/// Whether the text is one of these.
fn is_among(texts: &[Text], text: &Text) -> bool
    ensures { result ≡ spec.is_among texts.now text.now }
{
    texts.iter().any(|other| other.as_str() == text.as_str())
}

/// Puts a reply that shows the warning after the others, where it isn't among those that were shown last.
fn show_new(
    alloc: Global,
    shown: &[Text],
    warning: &Text,
    replies: &mut Vec<Reply>,
) -> Result<(), AllocError>
    ensures { OnOk result
        (replies.new.items ≡ replies.old.items ++ spec.shows shown.now (warning.now ∷ [])) }
{
    if is_among(shown, warning) {
        return Ok(());
    }
    let words = warning.copy(alloc)?;
    replies.push(Reply::Show { words })?;
    Ok(())
}

/// A reply that shows each of these warnings that wasn't among those that were shown last.
pub(crate) fn show(
    alloc: Global,
    shown: &[Text],
    warnings: &[Text],
) -> Result<Vec<Reply>, AllocError>
    ensures { IfOk result (λ replies. replies.items ≡ spec.shows shown.now warnings.now) }
{
    let mut replies = Vec::new(alloc);
    for warning in warnings {
        show_new(alloc, shown, warning, &mut replies)?;
    }
    Ok(replies)
}
