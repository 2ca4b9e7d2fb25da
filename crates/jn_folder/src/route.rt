//! Paths made plain, and whether they lie in a folder.
ghost use Rattle.std.specs.Prelude.{◌≡◌, ◌++◌, [], drop, length, IfOk, OnOk};
ghost use Rattle.std.specs.List.{list_any};
ghost use Rattle.jn_folder.specs.Listing.{is_skipped};
ghost use Rattle.jn_folder.specs.Plain as spec;

use crate::paths::{is_skipped, joined};
use jn_base::Text;
use std::alloc::{AllocError, Global};
use std::path::Path;

/// Whether the path begins with a slash.
pub fn is_whole(path: &str) -> bool
    ensures { result ≡ spec.is_whole path.now }
{
    match path.as_bytes() {
        [b'/', ..] => true,
        _ => false,
    }
}

/// Puts a part of a path after the names: `..` takes the last one away, the root and `.` add none.
fn put_part(alloc: Global, part: &str, names: &mut Vec<Text>) -> Result<(), AllocError>
    ensures { OnOk result (names.new.items ≡ spec.with_part names.old.items part.now) }
{
    if part == "/" || part == "." {
        return Ok(());
    }
    if part == ".." {
        names.pop();
        return Ok(());
    }
    names.push(Text::of_str(alloc, part)?)?;
    Ok(())
}

/// The names on the way that a path goes from the root.
fn names_on(alloc: Global, path: &str) -> Result<Vec<Text>, AllocError>
    ensures { IfOk result (λ names. names.items ≡ spec.names_on path.now) }
{
    let mut names = Vec::new(alloc);
    let mut parts = Path::new(path).components();
    while let Some(part) = parts.next() {
        put_part(alloc, part.as_os_str(), &mut names)?;
    }
    Ok(names)
}

/// The path of these names.
fn path_of(alloc: Global, names: &[Text]) -> Result<Text, AllocError>
    ensures { IfOk result (λ path. path ≡ spec.path_of names.now) }
{
    if names.len() == 0 {
        return Text::of_str(alloc, "/");
    }
    let mut path = String::new(alloc);
    for name in names {
        path.push_str("/")?;
        path.push_str(name.as_str())?;
    }
    Ok(Text::of_string(path))
}

/// The path made plain: a whole one without `.`, `..`, and doubled or trailing slashes.
pub fn plain(alloc: Global, path: &str) -> Result<Text, AllocError>
    ensures { IfOk result (λ made. made ≡ spec.plain path.now) }
{
    if !is_whole(path) {
        return Text::of_str(alloc, path);
    }
    let names = names_on(alloc, path)?;
    path_of(alloc, names.as_slice())
}

/// The names after so many.
fn names_behind(names: &[Text], count: usize) -> &[Text]
    ensures { result.now ≡ drop count names.now }
{
    names.get(count..).unwrap_or(&[])
}

/// Whether one of the names is left out.
fn has_skipped(skipped: &[Text], names: &[Text]) -> bool
    ensures { result ≡ list_any (is_skipped skipped.now) names.now }
{
    names.iter().any(|name| is_skipped(skipped, name.as_str()))
}

/// Whether a plain path lies in a folder of a plain path, and no name on the way from there is left out.
pub fn is_below(
    alloc: Global,
    skipped: &[Text],
    folder: &str,
    path: &str,
) -> Result<bool, AllocError>
    ensures { IfOk result (λ below. below ≡ spec.is_below skipped.now folder.now path.now) }
{
    let front = joined(alloc, folder, "")?;
    if !path.as_bytes().starts_with(front.as_str().as_bytes()) {
        return Ok(false);
    }
    let before = names_on(alloc, folder)?;
    let names = names_on(alloc, path)?;
    Ok(!has_skipped(skipped, names_behind(names.as_slice(), before.len())))
}

/// Whether a plain path lies in a folder of a plain path.
fn lies_in(alloc: Global, folder: &str, path: &str) -> Result<bool, AllocError>
    ensures { IfOk result (λ lies. lies ≡ spec.lies_in folder.now path.now) }
{
    let front = joined(alloc, folder, "")?;
    Ok(path.as_bytes().starts_with(front.as_str().as_bytes()))
}

/// The names, one list after the other.
fn both(alloc: Global, one: Vec<Text>, other: &[Text]) -> Result<Vec<Text>, AllocError>
    ensures { IfOk result (λ all. all.items ≡ one.items ++ other.now) }
{
    let mut all = one;
    for name in other {
        all.push(name.copy(alloc)?)?;
    }
    Ok(all)
}

/// The path of a folder's names, and of those of a path after as many as another folder has.
fn path_below(alloc: Global, folder: &str, real: &str, path: &str) -> Result<Text, AllocError>
    ensures { IfOk result (λ made. made ≡ spec.path_of
        (spec.names_on folder.now ++ drop (length (spec.names_on real.now)) (spec.names_on path.now))) }
{
    let front = names_on(alloc, folder)?;
    let before = names_on(alloc, real)?;
    let names = names_on(alloc, path)?;
    let all = both(alloc, front, names_behind(names.as_slice(), before.len()))?;
    path_of(alloc, all.as_slice())
}

/// A plain path as it is below the folder of a plain path, where it lies in the place where that folder really is; else the path itself.
pub fn rehomed(alloc: Global, folder: &str, real: &str, path: &str) -> Result<Text, AllocError>
    ensures { IfOk result (λ made. made ≡ spec.rehomed folder.now real.now path.now) }
{
    let stands = lies_in(alloc, folder, path)?;
    let lies = lies_in(alloc, real, path)?;
    if stands || !lies {
        Text::of_str(alloc, path)
    } else {
        path_below(alloc, folder, real, path)
    }
}
