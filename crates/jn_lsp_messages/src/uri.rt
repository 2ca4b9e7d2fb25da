//! URIs of files, and their names.
ghost use Rattle.std.specs.Prelude.{◌≡◌, Some, IfOk, option_map};
ghost use Rattle.percent_encoding.specs.Percent.{percent_decode};
ghost use Rattle.jn_lsp_messages.specs.Uris as spec;

use jn_base::{OutOfMemory, Text};
use percent_encoding::{AsciiSet, NON_ALPHANUMERIC, ascii_set, percent_decode, percent_encode};
use std::alloc::{AllocError, Global};

/// The ASCII bytes that are escaped in a path: all but those of unreserved characters (RFC 3986, section 2.3) and the slash.
pub const PATH: AsciiSet = ascii_set!(
    NON_ALPHANUMERIC
        .remove(b'-')
        .remove(b'.')
        .remove(b'_')
        .remove(b'~')
        .remove(b'/')
);

/// The name that a URI stands for: the path of a file's (RFC 8089), and the URI itself where it is no file's or its path is no text.
#[tactic(auto, unfolding(crate::specs::Uris::name_of))]
pub fn name_of(alloc: Global, uri: &str) -> Result<Text, OutOfMemory>
    ensures { IfOk result (λ name. name ≡ spec.name_of uri.now) }
{
    match path_in(uri) {
        None => Ok(Text::of_str(alloc, uri)?),
        Some(path) => name_at(alloc, uri, path),
    }
}

/// The name that a path in a URI stands for.
#[tactic(auto, using(crate::proofs::Finding::text_there, crate::proofs::Finding::no_text_there))]
fn name_at(alloc: Global, uri: &str, path: &[u8]) -> Result<Text, OutOfMemory>
    ensures { IfOk result (λ name. name ≡ spec.name_at uri.now (Some path.now)) }
{
    let bytes = decoded(alloc, path)?;
    match str::from_utf8(&bytes) {
        Ok(name) => Ok(Text::of_str(alloc, name)?),
        Err(_) => Ok(Text::of_str(alloc, uri)?),
    }
}

/// The URI of a name. A name that is no whole path is its own.
#[tactic(auto, unfolding(crate::specs::Uris::uri_of))]
pub fn uri_of(alloc: Global, name: &str) -> Result<Text, OutOfMemory>
    ensures { IfOk result (λ uri. uri ≡ spec.uri_of name.now) }
{
    if !is_path(name.as_bytes()) {
        return Ok(Text::of_str(alloc, name)?);
    }
    let mut uri = String::from_str(alloc, "file://")?;
    percent_encode(name.as_bytes(), PATH).append_to(&mut uri)?;
    Ok(Text::of_string(uri))
}

fn is_path(text: &[u8]) -> bool
    ensures { result ≡ spec.is_path text.now }
{
    match text {
        [] => false,
        [first, ..] => *first == b'/',
    }
}

fn path_in(uri: &str) -> Option<&[u8]>
    ensures { option_map (λ path. path.now) result ≡ spec.path_in uri.now }
{
    match path_behind("file://", uri) {
        Some(path) => Some(path),
        None => path_behind("file://localhost", uri),
    }
}

#[tactic(auto, using(crate::proofs::Finding::other_front, crate::proofs::Finding::path_there, crate::proofs::Finding::no_path_there))]
fn path_behind<'a>(front: &str, uri: &'a str) -> Option<&'a [u8]>
    ensures { option_map (λ path. path.now) result ≡ spec.path_behind front.now uri.entry.now }
{
    let path = uri.as_bytes().strip_prefix(front.as_bytes())?;
    if is_path(path) { Some(path) } else { None }
}

fn decoded(alloc: Global, path: &[u8]) -> Result<Vec<u8>, AllocError>
    ensures { IfOk result (λ bytes. bytes.items ≡ percent_decode path.now) }
{
    let mut bytes = Vec::new(alloc);
    percent_decode(path).append_to(&mut bytes)?;
    Ok(bytes)
}
