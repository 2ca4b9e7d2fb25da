//! How words are marked.

/// The form of words that a client shows (Language Server Protocol 3.17, `MarkupKind`).
#[derive(Clone, Copy, Debug, PartialEq, Eq)]
pub enum Markup {
    /// `plaintext`: as it stands.
    Plain,
    /// `markdown`: GitHub Flavored Markdown.
    Markdown,
}
