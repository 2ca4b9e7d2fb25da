//! The texts of files, whose places are asked for.
ghost use Rattle.std.specs.Prelude.{◌≡◌, slice_index_or};
ghost use Rattle.jn_lsp_solved.specs.Related.{no_file};

use jn_lsp_text::SmallText;
use jn_recheck::FileSet;

/// The text of the file of this number; empty where there is no such file.
pub fn text_at(files: &FileSet, file: usize) -> SmallText<'_>
    ensures { result ≡ (slice_index_or files.now file no_file).bytes }
{
    match files.as_slice().get(file) {
        None => SmallText::of(&[]),
        Some(file) => SmallText::of(file.bytes.as_slice()),
    }
}
