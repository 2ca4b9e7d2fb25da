//! The texts of files that were read.
ghost use Rattle.std.specs.Prelude.{◌≡◌, IfOk};
ghost use Rattle.jn_front.specs.Files.{files_of_reads};
ghost use Rattle.nullcheck_annotate_top.specs.Study.{texts_of};

use jn_base::lists::put;
use jn_base::{OutOfMemory, Seq};
use jn_front::SourceRead;
use std::alloc::Global;

/// The texts of files that were read.
pub(crate) fn texts(alloc: Global, reads: &[SourceRead]) -> Result<Vec<Seq<u8>>, OutOfMemory>
    ensures { IfOk result (λ ts. ts.items ≡ texts_of (files_of_reads reads.now)) }
{
    let mut texts = Vec::new(alloc);
    for read in reads {
        put(&mut texts, read.file.bytes.copy(alloc)?)?;
    }
    Ok(texts)
}
