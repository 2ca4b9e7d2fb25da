//! The tokens of a text, and its names.
use jn_base::{NameNo, OutOfMemory};
use jn_trees::{Names, Token};
use std::alloc::{AllocError, Global};

fn push_token(alloc: Global, shown: &mut String, token: &Token) -> Result<(), AllocError> {
    let kind = token.kind;
    let from = token.span.from;
    let to = token.span.to;
    let text = format!(in alloc; " {kind:?} {from}..{to}")?;
    shown.push_str(&text)
}

/// The kinds of the tokens, each with its bytes.
pub fn tokens_text(alloc: Global, tokens: &[Token]) -> Result<String, OutOfMemory> {
    let mut shown = String::new(alloc);
    for token in tokens {
        push_token(alloc, &mut shown, token)?;
    }
    Ok(shown)
}

fn push_name(alloc: Global, shown: &mut String, name: &str) -> Result<(), AllocError> {
    let text = format!(in alloc; " {name:?}")?;
    shown.push_str(&text)
}

/// The texts of the names, in the order of their numbers.
pub fn names_text(alloc: Global, names: &Names) -> Result<String, OutOfMemory> {
    let mut shown = String::new(alloc);
    for number in 0..names.len().min(1000) {
        push_name(alloc, &mut shown, names.text(NameNo(number as u32)))?;
    }
    Ok(shown)
}
