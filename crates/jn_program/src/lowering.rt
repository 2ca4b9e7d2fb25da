//! The program of files, or its rows J1 to J6.
ghost use Rattle.std.specs.Prelude.{◌≡◌, map, IfErr, IfOk};
ghost use Rattle.jn_base.specs.declared.infer.Infer.{Infer};
ghost use Rattle.jn_heads.specs.Extract.{heads};
ghost use Rattle.jn_heads.specs.Inferred.{slots_by};
ghost use Rattle.jn_lowering.specs.Bodies.{bodies_of};
ghost use Rattle.jn_places.specs.PlacedView.{placed_file};
ghost use Rattle.jn_program.specs.Known.{AreKnown};
ghost use Rattle.jn_program.specs.Lowered.{IsProgram, IsRefusedFor};
ghost use Rattle.jn_classtable.specs.Table as tables;
ghost use Rattle.jn_program_law.specs.FileSources.{sources};
ghost use Rattle.jn_program_law.specs.FileProgram.{j_rows};

use crate::bodies::LoweredFiles;
use crate::rows::{is_empty, push_all};
use crate::sharing::lower_by;
use crate::sources::sources_of_files;
use jn_base::{Fail, OutOfMemory, Row, Seq};
use jn_classtable::ClassTable;
use jn_heads::ClassHead;
use jn_index::indexed::IndexedProgram;
use jn_lower_rows::files::file_rows;
use jn_points::Body;
use jn_program_law::law::{inferring_programs_are_regular, programs_of_tables_are_regular};
use jn_sharing::Workers;
use jn_trees::FileTree;
use std::alloc::Global;
use std::thread::Threads;

/// The bodies and the rows of files with this class table; `bodies` are those that are known.
fn lower_files<R: Threads + Sync>(
    rt: &R,
    alloc: Global,
    table: &ClassTable,
    files: &[FileTree],
    bodies: &[Body],
    known: &[bool],
    workers: Workers,
) -> Result<LoweredFiles, OutOfMemory>
    requires table { table.now.heads ≡ heads (map placed_file files.now) }
    requires known { AreKnown (tables.table table.now.heads)
        (sources (map placed_file files.now)) bodies.now known.now }
    ensures bodies { IfOk result (λ l. l.bodies
        ≡ bodies_of (tables.table (heads (map placed_file files.now)))
        (sources (map placed_file files.now))) }
    ensures rows { IfOk result (λ l. l.rows ≡ j_rows (map placed_file files.now)) }
{
    table.facts();
    let sources = sources_of_files(alloc, files)?;
    let mut rows = Seq::new(alloc);
    file_rows(alloc, &mut rows, files)?;
    let lowered = lower_by(
        rt,
        alloc,
        table.indexed(),
        &sources,
        bodies,
        known,
        workers.count() - 1,
    )?;
    push_all(&mut rows, lowered.rows.as_slice())?;
    Ok(LoweredFiles {
        bodies: lowered.bodies,
        rows,
    })
}

/// The program of files with this class table: its classes, fields, methods and slots, and the points of each body (JLS 7 to 15). Its
/// index is the class table's, and so is the choice of members that are inferred, on which its slots alone depend.
///
/// The bodies are shared among as many workers as are asked for, at most one for a body, each of which takes one after the other. It
/// goes by `join`, and so may wait for its workers.
///
/// `Ok` exactly where no row J1 to J6 stands, and the program is the one that the files define, and is regular. `Refused` has
/// exactly the rows, and there is one. `OutOfMemory` comes where no memory was found, and where a body has more than 2^32 - 2
/// points, labels or registers.
pub fn lower<R: Threads + Sync>(
    rt: &R,
    alloc: Global,
    table: ClassTable,
    files: &[FileTree],
    workers: Workers,
) -> Result<IndexedProgram, Fail<Seq<Row>>>
    requires table { table.heads ≡ heads (map placed_file files.now) }
    ensures lowered { IfOk result (λ p. (infer : Infer)
        → table.slots ≡ slots_by infer (map placed_file files.now)
        → IsProgram infer (map placed_file files.now) p) }
    ensures refused { IfErr result (λ fail. IsRefusedFor (map placed_file files.now) fail) }
{
    match lower_others(rt, alloc, table, files, &[], &[], workers) {
        Err(fail) => Err(fail),
        Ok(lowered) => Ok(lowered.program),
    }
}

/// A program, and what its types declare, in the order of files and text.
#[derive(Drop)]
pub struct LoweredProgram {
    pub heads: Seq<ClassHead>,
    pub program: IndexedProgram,
}

/// Does what [`lower`] does, where bodies are known: that of number `n` is `bodies[n]` where `known[n]` holds, and
/// isn't lowered.
///
/// `Ok`, `Refused` and `OutOfMemory` come as they do there.
pub fn lower_others<R: Threads + Sync>(
    rt: &R,
    alloc: Global,
    table: ClassTable,
    files: &[FileTree],
    bodies: &[Body],
    known: &[bool],
    workers: Workers,
) -> Result<LoweredProgram, Fail<Seq<Row>>>
    requires table { table.heads ≡ heads (map placed_file files.now) }
    requires known { AreKnown (tables.table table.heads) (sources (map placed_file files.now)) bodies.now known.now }
    ensures lowered { IfOk result (λ l. (infer : Infer)
        → table.slots ≡ slots_by infer (map placed_file files.now)
        → IsProgram infer (map placed_file files.now) l.program) }
    ensures heads { IfOk result (λ l. l.heads ≡ table.heads) }
    ensures refused { IfErr result (λ fail. IsRefusedFor (map placed_file files.now) fail) }
{
    programs_of_tables_are_regular(&table);
    inferring_programs_are_regular();
    match lower_files(rt, alloc, &table, files, bodies, known, workers) {
        Err(_) => Err(Fail::OutOfMemory),
        Ok(LoweredFiles { bodies, rows }) => {
            if is_empty(&rows) {
                let (heads, program) = table.into_parts();
                Ok(LoweredProgram {
                    heads,
                    program: program.with_bodies(bodies),
                })
            } else {
                Err(Fail::Refused(rows))
            }
        }
    }
}
