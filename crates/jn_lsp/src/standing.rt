//! Files as they stand.
ghost use Rattle.std.specs.Prelude.{◌≡◌, ◌<◌, IfOk, OnOk};
ghost use Rattle.jn_lsp.specs.Serving.{files_of};
ghost use Rattle.jn_lsp.specs.Stand as spec;

use crate::documents::{Workspace, is_named, place_of};
use jn_base::{OutOfMemory, Seq, Text};
use jn_front::SourceFile;
use jn_recheck::FileSet;
use std::alloc::{AllocError, Global};

/// The greatest number of bytes of a file.
const LIMIT: usize = 1_048_576;

/// So many spaces.
#[tactic(auto, unfolding(crate::specs::Stand::spaces))]
fn spaces(alloc: Global, count: usize) -> Result<Vec<u8>, AllocError>
    ensures { IfOk result (λ text. text.items ≡ spec.spaces count) }
{
    Ok(vec![in alloc; b' '; count]?)
}

/// The text that stands for these bytes: of too many spaces, one more than a file may have, so that its row is that of the limit.
fn fitted(alloc: Global, bytes: &[u8]) -> Result<Seq<u8>, AllocError>
    ensures { IfOk result (λ text. text ≡ spec.fitted bytes.now) }
{
    let text = if bytes.len() <= LIMIT {
        Vec::from_slice(alloc, bytes)?
    } else {
        spaces(alloc, LIMIT + 1)?
    };
    Ok(Seq::of_vec(text))
}

/// The bytes of the document of this file's name that is open, else its own.
fn bytes_of<'a>(documents: &'a [SourceFile], file: &'a SourceFile) -> &'a [u8]
    ensures { result.now
        ≡ (spec.document_or (spec.document_of file.now.name documents.now) file.now).bytes }
{
    match place_of(documents, file.name.as_str()) {
        None => file.bytes.as_slice(),
        Some(at) => documents[at].bytes.as_slice(),
    }
}

/// The file with the text of its open document.
fn standing(
    alloc: Global,
    documents: &[SourceFile],
    file: &SourceFile,
) -> Result<SourceFile, AllocError>
    ensures { IfOk result (λ made. made ≡ spec.standing documents.now file.now) }
{
    Ok(SourceFile {
        name: Text::of_str(alloc, file.name.as_str())?,
        bytes: fitted(alloc, bytes_of(documents, file))?,
    })
}

fn has_name(files: &[SourceFile], name: &str) -> bool
    ensures { result ≡ spec.has_name name.now files.now }
{
    files.iter().any(|file| is_named(file, name))
}

/// Puts the file, as it stands, after the others, where none of them has its name.
fn put(
    alloc: Global,
    files: &mut Vec<SourceFile>,
    documents: &[SourceFile],
    file: &SourceFile,
) -> Result<(), AllocError>
    ensures { OnOk result (files.new.items
        ≡ spec.with_new files.old.items (spec.standing documents.now file.now)) }
{
    if has_name(files.as_slice(), file.name.as_str()) {
        return Ok(());
    }
    files.push(standing(alloc, documents, file)?)?;
    Ok(())
}

/// The folder's files and the documents as they stand.
fn stand_all(
    alloc: Global,
    disk: &[SourceFile],
    documents: &[SourceFile],
) -> Result<Vec<SourceFile>, AllocError>
    ensures { IfOk result (λ files. files.items ≡ spec.stand disk.now documents.now) }
{
    let mut files = Vec::new(alloc);
    for file in disk {
        put(alloc, &mut files, documents, file)?;
    }
    for document in documents {
        put(alloc, &mut files, documents, document)?;
    }
    Ok(files)
}

/// The files as they stand.
pub(crate) fn stand(alloc: Global, workspace: &Workspace) -> Result<FileSet, OutOfMemory>
    ensures { IfOk result (λ files. files ≡ files_of workspace.now) }
{
    let files = stand_all(
        alloc,
        workspace.disk.as_slice(),
        workspace.documents.as_slice(),
    )?;
    Ok(FileSet::of(files))
}
