//! From the texts of files to their names and trees, or their rows, by workers.
ghost use Rattle.std.specs.Prelude.{◌≡◌, ◌≤◌, ◌<◌, ◌+◌, ◌-◌, ◌*◌, ◌/◌, [], true, length, map, min, IfOk};
ghost use Rattle.jn_places.specs.PlacedView.{placed_file};
ghost use Rattle.jn_front.specs.Files.{files_of_reads};
ghost use Rattle.jn_front.specs.Outcomes.{AreOutcomes};
ghost use Rattle.jn_front.specs.Phases.{AreTreesOf, TextRows};

use crate::gathering::{join_all, lexical_rows, syntax_rows};
use crate::outcome::Outcome;
use crate::sharing::parse_by;
use crate::source::SourceRead;
use jn_base::{OutOfMemory, Row};
use jn_lex_shared::law::{own_names_can_be_merged, own_trees_can_be_renumbered};
use jn_lexer::law::{texts_have_few_tokens, texts_have_one_reading};
use jn_sharing::{Gate, Workers};
use jn_trees::{FileTree, Names};
use std::alloc::Global;
use std::thread::Threads;

/// What became of the texts of files: the tree of each, or the rows of those that have none.
#[derive(Drop)]
pub struct ParsedFiles {
    /// The tree of each file, in the files' order, each node where its tokens stand; none where there are rows.
    pub trees: Vec<FileTree>,
    /// The names in the order of their numbers, the known ones first; none where there are rows.
    pub names: Names,
    /// The first lexical fault of each file that has one; where none has, the one syntax row of each file that has no tree. In
    /// the files' order.
    pub rows: Vec<Row>,
}

/// Rows, and so no trees.
fn refused(alloc: Global, rows: Vec<Row>) -> ParsedFiles
    ensures rows { result.rows.items ≡ rows.items }
    ensures trees { result.trees.items ≡ [] }
    ensures names { result.names ≡ [] }
{
    ParsedFiles {
        trees: Vec::new(alloc),
        names: Names::new(alloc),
        rows,
    }
}

/// Whether there are no rows.
fn is_empty(rows: &[Row]) -> bool
    ensures none { result ≡ true → rows.now ≡ [] }
    ensures some { rows.now ≡ [] → result ≡ true }
{
    match rows {
        [] => true,
        _ => false,
    }
}

/// The rows, or the names and trees, of files with these outcomes; one worker and as many others as `more` number the trees' names
/// anew.
fn put_together<R: Threads + Sync>(
    rt: &R,
    alloc: Global,
    reads: &[SourceRead],
    outcomes: Vec<Outcome>,
    more: u32,
) -> Result<ParsedFiles, OutOfMemory>
    requires few { length reads.now ≤ 64 }
    requires found { AreOutcomes 0 (files_of_reads reads.now) outcomes.items }
    ensures rows { IfOk result
        (λ p. (p.rows.items ≡ [] → ⊥) → TextRows (files_of_reads reads.now) p.rows.items) }
    ensures trees { IfOk result (λ p. p.rows.items ≡ []
        → AreTreesOf (files_of_reads reads.now) p.names (map placed_file p.trees.items)) }
    ensures none { IfOk result
        (λ p. (p.rows.items ≡ [] → ⊥) → (p.trees.items ≡ []) × (p.names ≡ [])) }
{
    let _reads = reads;
    texts_have_one_reading();
    texts_have_few_tokens();
    own_names_can_be_merged();
    own_trees_can_be_renumbered();
    let faults = lexical_rows(alloc, outcomes.as_slice())?;
    if !is_empty(faults.as_slice()) {
        return Ok(refused(alloc, faults));
    }
    let rows = syntax_rows(alloc, outcomes.as_slice())?;
    if !is_empty(rows.as_slice()) {
        return Ok(refused(alloc, rows));
    }
    let parsed = join_all(rt, alloc, outcomes, more)?;
    Ok(parsed)
}

/// How many workers there are beside the first: together no more than there are files.
pub fn more_workers(files: usize, workers: u32) -> u32
    ensures { result ≡ min workers files - 1 }
{
    if files == 0 || workers == 0 {
        0
    } else if (workers as usize) < files {
        workers - 1
    } else {
        files as u32 - 1
    }
}

/// How many others take part in each file, where as many workers as `more` says share the files with the first one: equally many
/// in each, so that no more than all workers are at work at once.
pub fn others_of_each(workers: u32, more: u32) -> u32
    requires { more < workers }
    ensures share { result ≡ workers / (more + 1) - 1 }
    ensures within { (more + 1) * (result + 1) ≤ workers }
{
    workers / (more + 1) - 1
}

/// The tree of each file that was read (JLS 7.3) with its places and all names, or where some file has a lexical fault (JLS 3.3
/// to 3.12), the first fault of each, else the syntax row of each file that has no tree.
///
/// Names are numbered over all files, in the order in which they are first met, after those of `jn_known`. The files are
/// shared among as many workers as are asked for, at most one for a file, each of which takes one after the other, and so are
/// their trees, once the names have their numbers. Where there are more workers than files, the others take part in the text
/// and the tokens of each file, equally many in each, so that no more than all are at work at once. The worker that has taken a
/// file enters the gate with the file's number before the file is lexed; those that take part in it enter no gate. It goes by
/// `join`, and so may wait for its workers. Takes time in proportion to the bytes.
///
/// # Errors
///
/// [`OutOfMemory`] where tokens, names or trees found no memory.
pub fn parse_files<R: Threads + Sync, G: Gate + Sync>(
    rt: &R,
    alloc: Global,
    reads: &[SourceRead],
    workers: Workers,
    gate: &G,
) -> Result<ParsedFiles, OutOfMemory>
    requires few { length reads.now ≤ 64 }
    ensures rows { IfOk result
        (λ p. (p.rows.items ≡ [] → ⊥) → TextRows (files_of_reads reads.now) p.rows.items) }
    ensures trees { IfOk result (λ p. p.rows.items ≡ []
        → AreTreesOf (files_of_reads reads.now) p.names (map placed_file p.trees.items)) }
    ensures none { IfOk result
        (λ p. (p.rows.items ≡ [] → ⊥) → (p.trees.items ≡ []) × (p.names ≡ [])) }
{
    let more = more_workers(reads.len(), workers.count());
    let others = others_of_each(workers.count(), more);
    let outcomes = parse_by(rt, alloc, reads, more, others, gate)?;
    put_together(rt, alloc, reads, outcomes, more)
}
