//! A report of files, for which the rows of reusable bodies aren't made anew.
ghost use Rattle.std.specs.Prelude.{◌≡◌, IfOk, None, Some, List};
ghost use Rattle.jn_command.specs.declared.report.Report.TheVariants.{Refused, Checked};
ghost use Rattle.jn_places.specs.Placed.{PlacedFile};
ghost use Rattle.jn_phases.specs.Phases.{IsTypedOr, TypedProgramOf};
ghost use Rattle.jn_kept_trees.specs.KeptTrees.{AreKeptTrees};
ghost use Rattle.jn_recheck.specs.Sessions.{IsRecheck};
ghost use Rattle.jn_recheck.specs.Standing.{KeepsBase, KeepsProgram, StandsIn, StandsOn, beside};

use crate::kept::{Kept, type_again};
use crate::least::least_sig;
use crate::pairs::overriders_again;
use crate::reads::reads_of;
use crate::rows::{Rules, rules_again, tells_same};
use jn_base::{Infer, OutOfMemory, Row, Seq};
use jn_command::Report;
use jn_front::SourceFile;
use jn_index::BaseTyped;
use jn_kept_points::{KeptTyping, Unchanged};
use jn_kept_trees::{KeptTree, TypedAgain, TypedOn};
use jn_phases::too_many_files;
use jn_sharing::{Gate, Workers};
use jn_trees::Names;
use std::alloc::Global;
use std::thread::Threads;

/// The greatest number of files.
const MOST_FILES: usize = 64;

/// A report, what is kept of it where it came to the rules, and how many bodies' rows were made anew.
#[derive(Drop)]
pub(crate) struct Rechecked {
    pub report: Report,
    pub kept: Option<Kept>,
    pub made: u32,
}

fn refused(rows: Seq<Row>) -> Rechecked
    ensures { result ≡ record { report = Refused rows; kept = None; made = 0 } }
{
    Rechecked {
        report: Report::Refused(rows),
        kept: None,
        made: 0,
    }
}

/// The report of files with this program: the rows of the rules under its least signature.
fn check_typed<R: Threads + Sync, G: Gate + Sync, H: Gate + Sync>(
    rt: &R,
    alloc: Global,
    workers: Workers,
    infer: Infer,
    files: &[SourceFile],
    kept: &Option<Kept>,
    names: Names,
    base: BaseTyped,
    unchanged: &Unchanged,
    solving: &G,
    bodies: &H,
) -> Result<Rechecked, OutOfMemory>
    requires program { TypedProgramOf infer files.now names base }
    requires unchanged { StandsIn kept.now (Some base) unchanged.now }
    ensures recheck { IfOk result
        (λ r. IsRecheck infer kept.now files.now r.report r.kept r.made) }
    ensures program { IfOk result (λ r. KeepsProgram r.kept base) }
{
    let _infer = infer;
    let _files = files;
    let list = overriders_again(alloc, kept, &base, unchanged)?;
    let same = tells_same(kept, &names, base.program());
    let sig = least_sig(
        rt,
        alloc,
        workers,
        kept,
        &names,
        &base,
        list.as_slice(),
        same,
        unchanged.bodies.as_slice(),
        solving,
    )?;
    let Rules { rows, kept, made } = rules_again(
        rt, alloc, kept, names, base, list, sig, same, unchanged, workers, bodies,
    )?;
    Ok(Rechecked {
        report: Report::Checked(Seq::of_vec(rows)),
        kept: Some(kept),
        made,
    })
}

/// What is found of files, what is to be kept of their texts, and what beside their program.
#[derive(Drop)]
pub(crate) struct FilesAgain {
    pub found: Rechecked,
    pub trees: Vec<Option<KeptTree>>,
    pub typing: Option<KeptTyping>,
}

/// The report of files of which this was found before their rules.
fn finish<R: Threads + Sync, G: Gate + Sync, H: Gate + Sync>(
    rt: &R,
    alloc: Global,
    workers: Workers,
    infer: Infer,
    files: &[SourceFile],
    kept: &Option<Kept>,
    names: Names,
    rows: Seq<Row>,
    base: Option<BaseTyped>,
    unchanged: &Unchanged,
    solving: &G,
    bodies: &H,
) -> Result<Rechecked, OutOfMemory>
    requires unchanged { StandsIn kept.now base unchanged.now }
    requires typed { (trees : List PlacedFile) × IsTypedOr infer files.now names trees rows base }
    ensures recheck { IfOk result
        (λ r. IsRecheck infer kept.now files.now r.report r.kept r.made) }
    ensures program { IfOk result (λ r. KeepsBase r.kept base) }
{
    match base {
        None => {
            drop(names);
            return Ok(refused(rows));
        }
        Some(base) => {
            drop(rows);
            return check_typed(
                rt, alloc, workers, infer, files, kept, names, base, unchanged, solving, bodies,
            );
        }
    }
}

/// What is kept beside a program that is kept; nothing where none is.
fn beside(found: &Rechecked, typing: Option<KeptTyping>) -> Option<KeptTyping>
    ensures { result ≡ beside found.now.kept typing }
{
    match &found.kept {
        None => {
            drop(typing);
            None
        }
        Some(_) => typing,
    }
}

/// The report of files where these members are inferred, by so many workers: those who take a file or infer enter the gate `solving`, and those who make a body's rows
/// anew the gate `bodies`. `trees` is what was kept of the texts of the files `last`, and `typing` what was kept beside the program in `kept` where
/// it is that of these files. With the report comes what is to be kept then.
pub(crate) fn recheck_files<R: Threads + Sync, G: Gate + Sync, H: Gate + Sync>(
    rt: &R,
    alloc: Global,
    workers: Workers,
    infer: Infer,
    files: &[SourceFile],
    last: &[SourceFile],
    trees: Vec<Option<KeptTree>>,
    kept: &mut Option<Kept>,
    typing: &Option<KeptTyping>,
    solving: &G,
    bodies: &H,
) -> Result<FilesAgain, OutOfMemory>
    requires trees { AreKeptTrees last.now trees.items }
    requires stands { StandsOn infer trees.items kept.old typing.now }
    ensures recheck { IfOk result
        (λ r. IsRecheck infer kept.old files.now r.found.report r.found.kept r.found.made) }
    ensures trees { IfOk result (λ r. AreKeptTrees files.now r.trees.items) }
    ensures stands { IfOk result (λ r. StandsOn infer r.trees.items r.found.kept r.typing) }
    ensures same { kept.new ≡ kept.old }
{
    if files.len() > MOST_FILES {
        return Ok(FilesAgain {
            found: refused(too_many_files(alloc)?),
            trees: Vec::new(alloc),
            typing: None,
        });
    }
    let reads = reads_of(alloc, files)?;
    let on = type_again(
        rt, alloc, workers, infer, &reads, last, trees, kept, typing, solving,
    )?;
    drop(reads);
    let TypedOn { typed, unchanged } = on;
    let TypedAgain {
        rows,
        base,
        names,
        kept: trees,
        typing,
    } = typed;
    let found = finish(
        rt, alloc, workers, infer, files, kept, names, rows, base, &unchanged, solving, bodies,
    )?;
    let typing = beside(&found, typing);
    Ok(FilesAgain {
        found,
        trees,
        typing,
    })
}
