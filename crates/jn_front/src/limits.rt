//! The rows of the limits on files.
ghost use Rattle.std.specs.Prelude.{◌≡◌, ◌≤◌, ◌+◌, ◌++◌, length, IfOk, OnOk, List};
ghost use Rattle.jn_front.specs.declared.source.SourceFile.{SourceFile as SpecFile};
ghost use Rattle.jn_front.specs.Counted.{counted_read};
ghost use Rattle.jn_front.specs.Files.{AreReads};
ghost use Rattle.jn_front.specs.Limits.{row_at, large_row, passing_row, limit_rows};

use crate::source::SourceRead;
use jn_base::{Code, FileNo, Row, Span};
use std::alloc::{AllocError, Global};

/// The greatest number of bytes of a file.
const FILE_LIMIT: u32 = 1_048_576;

/// The greatest number of bytes of all files, where one that is too large counts one byte more than the limit.
const ALL_LIMIT: u32 = 4_194_304;

/// A row at the first byte of a file.
pub fn row_at(file: u32, code: Code) -> Row
    ensures { result ≡ row_at file code }
{
    Row {
        span: Span {
            file: FileNo(file),
            from: 0,
            to: 0,
        },
        code,
    }
}

#[tactic(auto, using(crate::proofs::Kept::read_fits))]
fn counted(read: &SourceRead) -> u32
    ensures { result ≡ counted_read read.now }
{
    if read.whole {
        read.file.bytes.len() as u32
    } else {
        FILE_LIMIT + 1
    }
}

fn put_large(rows: &mut Vec<Row>, file: u32, size: u32) -> Result<(), AllocError>
    ensures { OnOk result (rows.new.items ≡ rows.old.items ++ large_row file size) }
{
    if size > FILE_LIMIT {
        rows.push(row_at(file, Code::B2))?;
    }
    Ok(())
}

fn put_passing(rows: &mut Vec<Row>, file: u32, before: u32, size: u32) -> Result<(), AllocError>
    requires { before + size ≤ 67108928 }
    ensures { OnOk result (rows.new.items ≡ rows.old.items ++ passing_row file before size) }
{
    if before <= ALL_LIMIT && before + size > ALL_LIMIT {
        rows.push(row_at(file, Code::B3))?;
    }
    Ok(())
}

/// The rows of the limits on files of which these were read, at most 64.
pub fn limit_rows(alloc: Global, reads: &[SourceRead]) -> Result<Vec<Row>, AllocError>
    requires few { length reads.now ≤ 64 }
    ensures { IfOk result (λ rows.
        (files : List SpecFile) → AreReads reads.now files → rows.items ≡ limit_rows files) }
{
    let mut rows = Vec::new(alloc);
    let mut before = 0;
    let mut file = 0;
    'reads: for read in reads {
        let size = counted(read);
        put_large(&mut rows, file, size)?;
        put_passing(&mut rows, file, before, size)?;
        before += size;
        file += 1;
    }
    Ok(rows)
}
