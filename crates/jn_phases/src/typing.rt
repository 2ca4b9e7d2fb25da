//! From files that were read to their program, or to the rows of the first phase that has any.
ghost use Rattle.std.specs.Prelude.{◌≡◌, ◌≤◌, ◌<◌, ◌∷◌, [], List, None, Some, IsSome, true, false, length, map, IfOk};
ghost use Rattle.jn_base.specs.declared.infer.Infer.{Infer as SpecInfer};
ghost use Rattle.jn_base.specs.declared.place.Row.{Row as SpecRow};
ghost use Rattle.jn_base.specs.declared.code.Code.TheVariants.{B1};
ghost use Rattle.jn_trees.specs.declared.token.Token.{Token as SpecToken};
ghost use Rattle.jn_places.specs.PlacedView.{placed_file};
ghost use Rattle.jn_points.specs.declared.program.Program.{Program};
ghost use Rattle.jn_basecheck.specs.Rows.{AreTyped};
ghost use Rattle.jn_classtable.specs.Built.{IsRefused};
ghost use Rattle.jn_heads.specs.Extract.{heads};
ghost use Rattle.jn_heads.specs.Inferred.{tabled};
ghost use Rattle.jn_classtable.specs.Table as tables;
ghost use Rattle.jn_program.specs.Known.{AreKnown};
ghost use Rattle.jn_program.specs.Lowered.{IsProgram};
ghost use Rattle.jn_program_law.specs.FileSources.{sources};
ghost use Rattle.jn_command.specs.Stands.{StandIn};
ghost use Rattle.jn_diag.specs.Order.{IsOrderOf};
ghost use Rattle.jn_front.specs.declared.source.SourceFile.{SourceFile as SpecFile};
ghost use Rattle.jn_front.specs.Files.{files_of_reads, AreReads, most_files};
ghost use Rattle.jn_front.specs.Limits.{row_at};
ghost use Rattle.jn_front.specs.Phases.{AreParsed};
ghost use Rattle.jn_phases.specs.Phases.{AreDeclared, AreTreesOrNone, IsPhase, IsTypedOr, ProgramOf};
ghost use Rattle.jn_phases.specs.Typing.{IsTyping};

use jn_base::{Code, Fail, Infer, OutOfMemory, Row, Seq};
use jn_basecheck::base_check_others;
use jn_classtable::{ClassTable, build};
use jn_diag::order;
use jn_front::law::files_have_one_front;
use jn_front::{SourceRead, limit_rows, parse_files, row_at};
use jn_heads::ClassHead;
use jn_index::BaseTyped;
use jn_index::indexed::IndexedProgram;
use jn_points::Body;
use jn_program::lowering::{LoweredProgram, lower_others};
use jn_sharing::{Gate, Workers};
use jn_trees::{FileTree, Names};
use std::alloc::Global;
use std::thread::Threads;

/// What is found of files with trees.
#[derive(Drop)]
pub struct Typing {
    /// The rows of the first phase that has any, in order; none where there is a program.
    pub rows: Seq<Row>,
    /// The files' program, whose types fit.
    pub base: Option<BaseTyped>,
}

/// What files come to before their rules are looked at, and what was read off their texts on the way.
#[derive(Drop)]
pub struct TypedFiles {
    /// The rows of the first phase that has any, in order; none where the files have a program.
    pub rows: Seq<Row>,
    /// The files' program, whose types fit.
    pub base: Option<BaseTyped>,
    /// The texts of their names and strings, by number; none where the files have no trees.
    pub names: Names,
    /// The trees of the files; none where some file has none.
    pub trees: Vec<FileTree>,
}

/// What is found of files that are refused by these rows, of which the list may have more room than it needs.
fn refused(alloc: Global, rows: Vec<Row>) -> Result<Typing, OutOfMemory>
    ensures { IfOk result (λ typing. (sorted : List SpecRow) × IsOrderOf rows.items sorted
        × (typing ≡ record { rows = sorted; base = None })) }
{
    let mut rows = rows;
    order(&mut rows)?;
    let kept = Vec::from_slice(alloc, &rows)?;
    Ok(Typing {
        rows: Seq::of_vec(kept),
        base: None,
    })
}

/// What is found of files that are refused by these rows and have no trees, so that no names are known. The rows are put in order.
///
/// # Errors
/// No memory was found.
pub fn refused_texts(alloc: Global, rows: Vec<Row>) -> Result<TypedFiles, OutOfMemory>
    ensures rows { IfOk result
        (λ typed. (sorted : List SpecRow) × IsOrderOf rows.items sorted × (typed.rows ≡ sorted)) }
    ensures base { IfOk result (λ typed. typed.base ≡ None) }
    ensures names { IfOk result (λ typed. typed.names ≡ []) }
{
    let Typing { rows, .. } = refused(alloc, rows)?;
    Ok(TypedFiles {
        rows,
        base: None,
        names: Names::new(alloc),
        trees: Vec::new(alloc),
    })
}

/// What is found of files with this program, whose types fit.
fn typed(alloc: Global, base: BaseTyped) -> Typing
    ensures { result ≡ record { rows = []; base = Some base } }
{
    Typing {
        rows: Seq::new(alloc),
        base: Some(base),
    }
}

/// What is found of files with this program, of whose bodies those that are told (`known`) have no row.
fn find_program<R: Threads + Sync>(
    rt: &R,
    alloc: Global,
    workers: Workers,
    infer: Infer,
    reads: &[SourceRead],
    names: &Names,
    trees: &[FileTree],
    program: IndexedProgram,
    known: &[bool],
) -> Result<Typing, OutOfMemory>
    requires program { (of : ProgramOf infer (files_of_reads reads.now) names.now program)
        × (of.trees ≡ map placed_file trees.now) }
    requires known { AreTyped program known.now }
    ensures { IfOk result (λ typing.
        IsTyping infer (files_of_reads reads.now) names.now (map placed_file trees.now) typing) }
{
    let _infer = infer;
    let _reads = reads;
    let _names = names;
    let _trees = trees;
    match base_check_others(rt, alloc, program, known, workers) {
        Ok(base) => return Ok(typed(alloc, base)),
        Err(Fail::Refused(rows)) => return refused(alloc, rows),
        Err(Fail::OutOfMemory) => return Err(OutOfMemory),
    }
}

/// What is found of files with a class table, and what their types declare.
#[derive(Drop)]
pub struct TypedTable {
    /// The rows of the first phase that has any, or the files' program.
    pub typing: Typing,
    /// What the types declare, in the order of files and text, where there is a program.
    pub heads: Seq<ClassHead>,
}

/// What is found of files with this program, and what their types declare.
fn find_lowered<R: Threads + Sync>(
    rt: &R,
    alloc: Global,
    workers: Workers,
    infer: Infer,
    reads: &[SourceRead],
    names: &Names,
    trees: &[FileTree],
    lowered: LoweredProgram,
    known: &[bool],
) -> Result<TypedTable, OutOfMemory>
    requires program { (of : ProgramOf infer (files_of_reads reads.now) names.now lowered.program)
        × (of.trees ≡ map placed_file trees.now) }
    requires heads { lowered.heads ≡ heads (map placed_file trees.now) }
    requires known { AreTyped lowered.program known.now }
    ensures typing { IfOk result (λ found.
        IsTyping infer (files_of_reads reads.now) names.now (map placed_file trees.now) found.typing) }
    ensures heads { IfOk result
        (λ found. IsSome found.typing.base → found.heads ≡ heads (map placed_file trees.now)) }
{
    let LoweredProgram { heads, program } = lowered;
    match find_program(
        rt, alloc, workers, infer, reads, names, trees, program, known,
    ) {
        Err(_) => {
            drop(heads);
            return Err(OutOfMemory);
        }
        Ok(typing) => return Ok(TypedTable { typing, heads }),
    }
}

/// What is found of files with these trees, whose classes and members have no row. Bodies may be known: that of number `n` is `bodies[n]`
/// where `known[n]` holds, and has no row of base typing; it is neither lowered nor typed.
///
/// # Errors
/// No memory was found.
pub fn find_table<R: Threads + Sync>(
    rt: &R,
    alloc: Global,
    workers: Workers,
    infer: Infer,
    reads: &[SourceRead],
    names: &Names,
    trees: &[FileTree],
    table: ClassTable,
    bodies: &[Body],
    known: &[bool],
) -> Result<TypedTable, OutOfMemory>
    requires declared { (tokens : List (List SpecToken))
        × AreDeclared (files_of_reads reads.now) names.now tokens (map placed_file trees.now) }
    requires table { table ≡ tabled infer (map placed_file trees.now) }
    requires known { AreKnown (tables.table (heads (map placed_file trees.now)))
        (sources (map placed_file trees.now)) bodies.now known.now }
    requires typed { (P : Program) → IsProgram infer (map placed_file trees.now) P
        → AreTyped P known.now }
    ensures typing { IfOk result (λ found.
        IsTyping infer (files_of_reads reads.now) names.now (map placed_file trees.now) found.typing) }
    ensures heads { IfOk result
        (λ found. IsSome found.typing.base → found.heads ≡ heads (map placed_file trees.now)) }
{
    match lower_others(rt, alloc, table, trees, bodies, known, workers) {
        Ok(lowered) => {
            return find_lowered(
                rt, alloc, workers, infer, reads, names, trees, lowered, known,
            );
        }
        Err(Fail::Refused(rows)) => {
            let typing = refused(alloc, rows.into_vec())?;
            return Ok(TypedTable {
                typing,
                heads: Seq::new(alloc),
            });
        }
        Err(Fail::OutOfMemory) => return Err(OutOfMemory),
    }
}

/// What is found of files that are refused by the rows of their classes and members.
///
/// # Errors
/// No memory was found.
pub fn refused_types(
    alloc: Global,
    reads: &[SourceRead],
    names: &Names,
    trees: &[FileTree],
    infer: Infer,
    rows: Seq<Row>,
) -> Result<Typing, OutOfMemory>
    requires parsed { (tokens : List (List SpecToken))
        × AreParsed (files_of_reads reads.now) names.now tokens (map placed_file trees.now) }
    requires rows { IsRefused (heads (map placed_file trees.now)) rows }
    ensures typing { IfOk result (λ typing.
        IsTyping infer (files_of_reads reads.now) names.now (map placed_file trees.now) typing) }
    ensures base { IfOk result (λ typing. typing.base ≡ None) }
{
    let _reads = reads;
    let _names = names;
    let _trees = trees;
    let _infer = infer;
    refused(alloc, rows.into_vec())
}

/// What is found of files with these trees: their program, whose types fit, or the rows of the first phase that has any.
///
/// # Errors
/// No memory was found.
pub fn find_trees<R: Threads + Sync>(
    rt: &R,
    alloc: Global,
    workers: Workers,
    infer: Infer,
    reads: &[SourceRead],
    names: &Names,
    trees: &[FileTree],
) -> Result<Typing, OutOfMemory>
    requires parsed { (tokens : List (List SpecToken))
        × AreParsed (files_of_reads reads.now) names.now tokens (map placed_file trees.now) }
    ensures { IfOk result (λ typing.
        IsTyping infer (files_of_reads reads.now) names.now (map placed_file trees.now) typing) }
{
    match build(alloc, trees, infer) {
        Ok(table) => {
            let found = find_table(
                rt,
                alloc,
                workers,
                infer,
                reads,
                names,
                trees,
                table,
                &[],
                &[],
            )?;
            return Ok(found.typing);
        }
        Err(Fail::Refused(rows)) => {
            return refused_types(alloc, reads, names, trees, infer, rows);
        }
        Err(Fail::OutOfMemory) => return Err(OutOfMemory),
    }
}

fn no_rows(rows: &Vec<Row>) -> bool
    ensures some { result ≡ false → rows.now.items ≡ [] → ⊥ }
    ensures none { result ≡ true → rows.now.items ≡ [] }
{
    rows.is_empty()
}

/// What files that were read come to before their rules are looked at, at most 64 files, by so many workers, with the choice of members
/// that are inferred. A worker enters the gate when it takes a file.
///
/// # Errors
/// No memory was found.
pub fn type_files<R: Threads + Sync, G: Gate + Sync>(
    rt: &R,
    gate: &G,
    alloc: Global,
    workers: Workers,
    infer: Infer,
    reads: &[SourceRead],
) -> Result<TypedFiles, OutOfMemory>
    requires few { length reads.now ≤ most_files }
    ensures typed { IfOk result (λ typed. (files : List SpecFile) → AreReads reads.now files
        → IsTypedOr infer files typed.names (map placed_file typed.trees.items) typed.rows
        typed.base) }
    // What was read are then the files.
    ensures whole { IfOk result (λ typed. IsSome typed.base
        → (files : List SpecFile) → AreReads reads.now files → files_of_reads reads.now ≡ files) }
    ensures stand { IfOk result (λ typed. StandIn reads.now typed.rows) }
    // Whatever they come to, names and trees are the files', or they have none.
    ensures trees { IfOk result (λ typed. (files : List SpecFile) → AreReads reads.now files
        → AreTreesOrNone files typed.names (map placed_file typed.trees.items)) }
{
    files_have_one_front();
    let limits = limit_rows(alloc, reads)?;
    if !no_rows(&limits) {
        return refused_texts(alloc, limits);
    }
    let parsed = parse_files(rt, alloc, reads, workers, gate)?;
    if !no_rows(&parsed.rows) {
        return refused_texts(alloc, parsed.rows);
    }
    let Typing { rows, base } = find_trees(
        rt,
        alloc,
        workers,
        infer,
        reads,
        &parsed.names,
        &parsed.trees,
    )?;
    Ok(TypedFiles {
        rows,
        base,
        names: parsed.names,
        trees: parsed.trees,
    })
}

/// The rows of more files than there may be: one, at the first that is too many.
///
/// # Errors
/// No memory was found.
#[tactic(auto, using(crate::proofs::Reporting::too_many))]
pub fn too_many_files(alloc: Global) -> Result<Seq<Row>, OutOfMemory>
    ensures phase { IfOk result (λ rows. (infer : SpecInfer) (files : List SpecFile)
        → most_files < length files → IsPhase infer files rows) }
    ensures row { IfOk result (λ rows. rows ≡ row_at most_files B1 ∷ []) }
{
    let mut rows = Seq::new(alloc);
    rows.push(row_at(64, Code::B1))?;
    Ok(rows)
}
