//! The rows of all bodies, of which those that are reusable aren't made anew.
ghost use Rattle.std.specs.Prelude.{◌≡◌, ◌<◌, ◌^◌, ◌↔◌, ◌++◌, ◌∷◌, [], flat_map, IfOk, OnOk, None, Some, get_or, length, false, true};
ghost use Rattle.jn_contrib.specs.Entries.{AreOverriders};
ghost use Rattle.jn_tables_law.specs.Inferable.{IsInferable};
ghost use Rattle.jn_inference_law.specs.Solution.{IsLeastSignature};
ghost use Rattle.jn_recheck.specs.KeptRows.{AreKept, AreMadeAnew, IsReusableFrom, TellsEqual, TellsNamed, TellsSame};
ghost use Rattle.jn_recheck.specs.Found.{AreFound, IsFound, Tells, made_of, rows_found, solved_of};
ghost use Rattle.jn_recheck.specs.Standing.{StandsIn};
ghost use Rattle.jn_env.specs.ClassFields.{AreOwnFields};
ghost use Rattle.jn_system.specs.Ready.{AreReady};
ghost use Rattle.jn_points.specs.Members.{below};
ghost use Rattle.jn_system.specs.Rows.{AreBroken, least_rows};
ghost use Rattle.jn_transfer.specs.Rules.{pairs_rows};

use crate::kept::Kept;
use crate::pairs::pairs_again;
use jn_base::{BodyNo, OutOfMemory, Row, Seq};
use jn_contrib::Overrider;
use jn_diag::order;
use jn_env::OwnFields;
use jn_index::BaseTyped;
use jn_kept_points::Unchanged;
use jn_kept_points::known::is_told;
use jn_points::Program;
use jn_reuse::{Solved, is_reusable, same_declarations, same_names, same_sigs};
use jn_sharing::{Gate, Workers, share_out};
use jn_sigs::Sig;
use jn_system::bodies::Bodies;
use jn_system::checking::rows_of;
use jn_tables_law::law::regular_programs_can_be_inferred;
use jn_trees::Names;
use std::alloc::{AllocError, Global};
use std::thread::Threads;

fn copy_rows(alloc: Global, rows: &[Row]) -> Result<Seq<Row>, AllocError>
    ensures { IfOk result (λ copy. copy ≡ rows.now) }
{
    Ok(Seq::of_vec(Vec::from_slice(alloc, rows)?))
}

/// The rows of a body, and whether they are those that were kept.
#[derive(Drop)]
pub(crate) struct BodyRows {
    pub rows: Seq<Row>,
    pub reused: bool,
}

/// What was compared of the kept program and the new one before their bodies are.
#[derive(Drop)]
pub(crate) struct Compared<'c> {
    /// Whether they declare the same; never where nothing is kept.
    pub same: bool,
    /// Whether their signatures are equal.
    pub equal: bool,
    /// Whether their names are the same.
    pub named: bool,
    /// For each body whether it is the kept program's; none past the last flag.
    pub known: &'c [bool],
}

/// Whether the names and the body are told to be the kept ones.
fn is_known(compared: &Compared, body: BodyNo) -> bool
    ensures named { result ≡ true → compared.now.named ≡ true }
    ensures known { result ≡ true → get_or compared.now.known.now body.0 false ≡ true }
{
    if !compared.named {
        return false;
    }
    is_told(compared.known, body.0 as usize)
}

/// Whether the body is reusable; never where nothing is kept.
fn is_kept(
    alloc: Global,
    kept: &Option<Kept>,
    new: &Solved,
    own: &OwnFields,
    compared: &Compared,
    body: BodyNo,
) -> Result<bool, OutOfMemory>
    requires tells { Tells kept.now (solved_of new.now) compared.now }
    requires inside { body.0 < length new.now.program.now.bodies }
    requires few { length new.now.program.now.fields < 2 ^ 32 }
    requires own { AreOwnFields new.now.program.now own.now }
    ensures { IfOk result
        (λ r. (r ≡ true) ↔ IsReusableFrom kept.now (solved_of new.now) body.0) }
{
    match kept {
        None => Ok(false),
        Some(kept) => {
            let old = Solved {
                names: kept.names(),
                program: kept.program(),
                sig: kept.sig(),
            };
            let known = is_known(compared, body);
            is_reusable(
                alloc,
                &old,
                new,
                own,
                compared.same,
                compared.equal,
                known,
                body,
            )
        }
    }
}

/// The rows of a body: those that are kept, where it is reusable, and else such as are made anew.
fn rows_again<G: Gate>(
    alloc: Global,
    kept: &Option<Kept>,
    names: &Names,
    reused: bool,
    bodies: &Bodies,
    body: u32,
    worker: u32,
    gate: &G,
) -> Result<Seq<Row>, OutOfMemory>
    requires reused { reused ≡ true → IsReusableFrom kept.now (record { names = names.now; program = bodies.now.program.now; signature = bodies.now.sig.now }) body }
    requires ready { AreReady bodies.now.program.now bodies.now.own.now }
    requires inside { body < length bodies.now.program.now.bodies }
    ensures { IfOk result
        (λ rows. rows ≡ least_rows bodies.now.program.now bodies.now.sig.now body) }
{
    regular_programs_can_be_inferred();
    let _names = names;
    if !reused {
        let rows = rows_of(alloc, bodies, body, worker, gate)?;
        return Ok(Seq::of_vec(rows));
    }
    match kept {
        None => Ok(Seq::new(alloc)),
        Some(kept) => {
            let rows = copy_rows(alloc, kept.rows(body))?;
            Ok(rows)
        }
    }
}

fn body_again<G: Gate>(
    alloc: Global,
    kept: &Option<Kept>,
    names: &Names,
    compared: &Compared,
    bodies: &Bodies,
    body: u32,
    worker: u32,
    gate: &G,
) -> Result<BodyRows, OutOfMemory>
    requires tells { Tells kept.now (record { names = names.now; program = bodies.now.program.now; signature = bodies.now.sig.now }) compared.now }
    requires ready { AreReady bodies.now.program.now bodies.now.own.now }
    requires inside { body < length bodies.now.program.now.bodies }
    ensures rows { IfOk result
        (λ found. found.rows ≡ least_rows bodies.now.program.now bodies.now.sig.now body) }
    ensures reused { IfOk result (λ found. (found.reused ≡ true)
        ↔ IsReusableFrom kept.now (record { names = names.now; program = bodies.now.program.now; signature = bodies.now.sig.now }) body) }
{
    let new = Solved {
        names,
        program: bodies.program,
        sig: bodies.sig,
    };
    let reused = is_kept(alloc, kept, &new, bodies.own, compared, BodyNo(body))?;
    let rows = rows_again(alloc, kept, names, reused, bodies, body, worker, gate)?;
    Ok(BodyRows { rows, reused })
}

/// The rows of all bodies, and which of them are kept ones: workers take one body after the other.
fn bodies_again<R: Threads + Sync, G: Gate + Sync>(
    rt: &R,
    alloc: Global,
    kept: &Option<Kept>,
    names: &Names,
    compared: &Compared,
    bodies: &Bodies,
    workers: Workers,
    gate: &G,
) -> Result<Vec<BodyRows>, OutOfMemory>
    requires tells { Tells kept.now (record { names = names.now; program = bodies.now.program.now; signature = bodies.now.sig.now }) compared.now }
    requires ready { AreReady bodies.now.program.now bodies.now.own.now }
    ensures { IfOk result (λ found. AreFound kept.now (record { names = names.now; program = bodies.now.program.now; signature = bodies.now.sig.now }) found.items) }
{
    let count = bodies.program.bodies.len();
    let again = |body: usize, worker: u32| -> Result<BodyRows, OutOfMemory>
        requires { Tells kept.now (record { names = names.now; program = bodies.now.program.now; signature = bodies.now.sig.now }) compared.now
            × AreReady bodies.now.program.now bodies.now.own.now
            × (body < length bodies.now.program.now.bodies) }
        ensures { IfOk result (λ found. IsFound kept.entry.now (record { names = names.entry.now; program = bodies.entry.now.program.now; signature = bodies.entry.now.sig.now }) body found) }
    {
        body_again(
            alloc,
            kept,
            names,
            compared,
            bodies,
            body as u32,
            worker,
            gate,
        )
    };
    let found = share_out(rt, alloc, count, workers.count() - 1, &again)?;
    Ok(found)
}

/// The rows of the bodies of a program, body by body, and how many bodies' rows were made anew.
#[derive(Drop)]
pub(crate) struct AllRows {
    pub rows: Vec<Seq<Row>>,
    pub made: u32,
}

fn push_rows(all: &mut Vec<Seq<Row>>, rows: Seq<Row>) -> Result<(), OutOfMemory>
    ensures { OnOk result (all.new.items ≡ all.old.items ++ rows ∷ []) }
{
    match all.push(rows) {
        Ok(()) => Ok(()),
        Err(_) => Err(OutOfMemory),
    }
}

/// How many bodies' rows are no kept ones.
#[tactic(auto, using(crate::proofs::Splitting::made_more))]
fn made_anew(found: &[BodyRows]) -> u32
    requires { length found.now < 2 ^ 32 }
    ensures { result ≡ made_of found.now }
{
    let mut made = 0;
    for at in 0..found.len() {
        if !found[at].reused {
            made += 1;
        }
    }
    made
}

fn rows_alone(alloc: Global, found: Vec<BodyRows>) -> Result<Vec<Seq<Row>>, OutOfMemory>
    ensures { IfOk result (λ rows. rows.items ≡ rows_found found.items) }
{
    let mut rows = Vec::new(alloc);
    for one in found {
        let BodyRows { rows: of, .. } = one;
        push_rows(&mut rows, of)?;
    }
    Ok(rows)
}

/// Whether the programs declare the same; never where nothing is kept.
pub(crate) fn tells_same(kept: &Option<Kept>, names: &Names, program: &Program) -> bool
    ensures { TellsSame kept.now names.now program.now result }
{
    match kept {
        None => false,
        Some(kept) => same_declarations(kept.names(), kept.program(), names, program),
    }
}

/// Whether the signature is the kept one.
fn tells_equal(kept: &Option<Kept>, sig: &Sig) -> bool
    ensures { TellsEqual kept.now sig.now result }
{
    match kept {
        None => false,
        Some(kept) => same_sigs(kept.sig(), sig),
    }
}

/// Whether the names are the kept ones.
fn tells_named(kept: &Option<Kept>, names: &Names) -> bool
    ensures { TellsNamed kept.now names.now result }
{
    match kept {
        None => false,
        Some(kept) => same_names(kept.names(), names),
    }
}

/// The rows of the bodies of a program, body by body; those of reusable ones are the kept ones.
#[tactic(auto, using(crate::proofs::Splitting::found_kept, crate::proofs::Splitting::found_anew))]
fn all_again<R: Threads + Sync, G: Gate + Sync>(
    rt: &R,
    alloc: Global,
    kept: &Option<Kept>,
    names: &Names,
    program: &Program,
    sig: &Sig,
    compared: &Compared,
    workers: Workers,
    gate: &G,
) -> Result<AllRows, OutOfMemory>
    requires tells { Tells kept.now (record { names = names.now; program = program.now; signature = sig.now }) compared.now }
    requires inferable { IsInferable program.now }
    ensures kept { IfOk result (λ all. AreKept program.now sig.now all.rows.items) }
    ensures made { IfOk result (λ all. AreMadeAnew kept.now (record { names = names.now; program = program.now; signature = sig.now }) all.made) }
{
    let own = OwnFields::new(alloc, program)?;
    let bodies = Bodies {
        program,
        sig,
        own: &own,
    };
    let found = bodies_again(rt, alloc, kept, names, compared, &bodies, workers, gate)?;
    let made = made_anew(&found);
    let rows = rows_alone(alloc, found)?;
    Ok(AllRows { rows, made })
}

fn append(all: &mut Vec<Row>, rows: &[Row]) -> Result<(), AllocError>
    ensures { OnOk result (all.new.items ≡ all.old.items ++ rows.now) }
{
    all.extend_from_slice(rows)?;
    Ok(())
}

/// The rows of all bodies one after the other.
#[tactic(auto, using(crate::proofs::Splitting::flat_more))]
fn one_list(
    alloc: Global,
    program: &Program,
    sig: &Sig,
    rows: &[Seq<Row>],
) -> Result<Vec<Row>, OutOfMemory>
    requires { AreKept program.now sig.now rows.now }
    ensures { IfOk result (λ all. all.items
        ≡ flat_map (least_rows program.now sig.now) (below (length program.now.bodies))) }
{
    let _program = program;
    let _sig = sig;
    let mut all = Vec::new(alloc);
    for at in 0..rows.len() {
        append(&mut all, rows[at].as_slice())?;
    }
    Ok(all)
}

/// The rows of all broken rules in order, where these are those of the bodies and of the overriding pairs.
#[tactic(auto, using(jn_system::proofs::Gathering::all_broken))]
fn in_order(
    alloc: Global,
    program: &Program,
    sig: &Sig,
    rows: &[Seq<Row>],
    pairs: &[Row],
) -> Result<Vec<Row>, OutOfMemory>
    requires inferable { IsInferable program.now }
    requires rows { AreKept program.now sig.now rows.now }
    requires pairs { pairs.now ≡ pairs_rows program.now sig.now }
    ensures { IfOk result (λ all. AreBroken program.now sig.now all.items) }
{
    let mut all = one_list(alloc, program, sig, rows)?;
    append(&mut all, pairs)?;
    order(&mut all)?;
    Ok(all)
}

fn has_rows(rows: &Vec<Row>) -> bool
    ensures { result ≡ false → rows.now.items ≡ [] }
{
    !rows.is_empty()
}

/// The rows of the rules of a program, and what is kept of them.
#[derive(Drop)]
pub(crate) struct Rules {
    pub rows: Vec<Row>,
    pub kept: Kept,
    pub made: u32,
}

/// The rows of the rules of a program under its least signature: those of reusable bodies are the kept ones, and those of all others are made by so
/// many workers, who enter the gate once for each. `same` tells whether the kept program declares the same, and `unchanged` what else
/// of it stands.
pub(crate) fn rules_again<R: Threads + Sync, G: Gate + Sync>(
    rt: &R,
    alloc: Global,
    kept: &Option<Kept>,
    names: Names,
    base: BaseTyped,
    overriders: Vec<Overrider>,
    sig: Sig,
    same: bool,
    unchanged: &Unchanged,
    workers: Workers,
    gate: &G,
) -> Result<Rules, OutOfMemory>
    requires same { TellsSame kept.now names base same }
    requires unchanged { StandsIn kept.now (Some base) unchanged.now }
    requires overriders { AreOverriders base overriders.items }
    requires least { IsLeastSignature base sig }
    ensures rows { IfOk result (λ rules. AreBroken base sig rules.rows.items) }
    ensures kept { IfOk result (λ rules. rules.kept ≡ record { names = names; program = base; signature = sig }) }
    ensures made { IfOk result (λ rules. AreMadeAnew kept.now (record { names = names; program = base; signature = sig }) rules.made) }
{
    regular_programs_can_be_inferred();
    let equal = tells_equal(kept, &sig);
    let named = tells_named(kept, &names);
    let compared = Compared {
        same,
        equal,
        named,
        known: unchanged.bodies.as_slice(),
    };
    let AllRows { rows, made } = all_again(
        rt,
        alloc,
        kept,
        &names,
        base.program(),
        &sig,
        &compared,
        workers,
        gate,
    )?;
    let pairs = pairs_again(alloc, kept, &names, &base, &sig, &compared, unchanged)?;
    let broken = has_rows(&pairs);
    let all = in_order(alloc, base.program(), &sig, &rows, &pairs)?;
    Ok(Rules {
        rows: all,
        kept: Kept::of(names, base, sig, rows, overriders, broken),
        made,
    })
}
