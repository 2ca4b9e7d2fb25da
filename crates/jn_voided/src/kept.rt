//! Turns of facts that are kept from read to read.
ghost use Rattle.std.specs.Prelude.{◌≡◌, ◌<◌, ℕ, [], MatchOption, IfOk, length, slice_index_or};
ghost use Rattle.jn_env.specs.Sized.{Sized};
ghost use Rattle.jn_tables_law.specs.Inferable.{IsInferable};
ghost use Rattle.jn_voided.specs.Kept.{numbers_of, scene_by};
ghost use Rattle.jn_voided.specs.Searched.{IsTurned};
ghost use Rattle.jn_voided.specs.Voided.{IsFound};

use crate::search::{Turned, Voided, find_turned};
use jn_base::{BodyNo, OutOfMemory, PointNo};
use jn_env::{Env, FieldKey, FlowTable, find_keys};
use jn_points::Program;
use jn_sigs::Sig;
use jn_transfer::Analysis;
use std::alloc::{AllocError, Global};
use std::collections::HashMap;
use std::marker::Model;

/// How many facts' turns are kept at most: they take as much as their bodies have points.
const MOST_KEPT: usize = 16;

/// A fact as numbers: the body, the register and the field.
pub(crate) type Key = ((u32, u32), u32);

/// The numbers of a fact.
fn numbers_of(body: BodyNo, key: FieldKey) -> Key
    ensures { result ≡ numbers_of body.0 key }
{
    ((body.0, key.reg()), key.field())
}

/// A program that can be inferred, a signature, and a table for each body, with the turns of some facts on fields in bodies. Contracts see all but the
/// turns.
#[derive(Drop)]
pub struct Voids<'a> {
    program: &'a Program,
    sig: &'a Sig,
    tables: &'a [FlowTable],
    turned: HashMap<Key, Turned>,
}

impl<'a> Model for Voids<'a> {
    ghost use Rattle.jn_voided.specs.Kept.{IsKept, Scene, scene_by};

    ghost Value = { Scene };

    ghost view = { λ v. scene_by v.program.now v.sig.now v.tables.now };

    ghost invariant = { λ v. IsKept v.program.now v.sig.now v.tables.now v.turned.entries };
}

impl<'a> Voids<'a> {
    /// None is kept.
    #[tactic(auto, using(crate::proofs::Keeping::none_turned))]
    pub fn new(
        alloc: Global,
        program: &'a Program,
        sig: &'a Sig,
        tables: &'a [FlowTable],
    ) -> Voids<'a>
        requires inferable { IsInferable program.now }
        requires sized { (b : ℕ) → b < length program.now.bodies
            → Sized program.now b (slice_index_or tables.now b []) }
        ensures { result ≡ scene_by program.now sig.now tables.now }
    {
        Voids {
            program,
            sig,
            tables,
            turned: HashMap::new(alloc),
        }
    }

    /// The program.
    pub fn program(&self) -> &'a Program
        ensures { result.now ≡ self.now.program }
    {
        self.program
    }

    /// The first pair before a read, or that there is none, where the turns are kept.
    fn before(&self, body: BodyNo, key: FieldKey, read: PointNo) -> Option<Option<Voided>>
        ensures { MatchOption result (Unit {0}) (λ found.
            IsFound self.now.program self.now.sig body.0 (slice_index_or self.now.tables body.0 [])
            key read.0 found) }
    {
        match self.turned.get(&numbers_of(body, key)) {
            None => None,
            Some(turned) => {
                let found = turned.before(read);
                Some(found)
            }
        }
    }

    /// The turns of a fact.
    fn turned_of(&self, alloc: Global, body: BodyNo, key: FieldKey) -> Result<Turned, OutOfMemory>
        requires inside { body.0 < length self.now.program.bodies }
        ensures { IfOk result (λ turned. IsTurned self.now.program self.now.sig body.0
            (slice_index_or self.now.tables body.0 []) key turned) }
    {
        let keys = find_keys(alloc, self.program, body)?;
        let analysis = Analysis::new(self.program, self.sig, body, &keys);
        find_turned(alloc, &analysis, table_of(self.tables, body), key)
    }

    /// Keeps none from now on, where there are many.
    #[tactic(auto, using(crate::proofs::Keeping::none_turned))]
    fn make_room(&mut self, alloc: Global)
        ensures { self.new ≡ self.old }
    {
        if self.turned.len() >= MOST_KEPT {
            self.turned = HashMap::new(alloc);
        }
    }

    /// Keeps the turns of a fact.
    fn put(&mut self, body: BodyNo, key: FieldKey, turned: Turned) -> Result<(), AllocError>
        requires { IsTurned self.old.program self.old.sig body.0
            (slice_index_or self.old.tables body.0 []) key turned }
        ensures { self.new ≡ self.old }
    {
        match self.turned.insert(numbers_of(body, key), turned) {
            Ok(_) => Ok(()),
            Err(_) => Err(AllocError),
        }
    }
}

/// The table of a body; empty where it isn't there.
fn table_of(tables: &[FlowTable], body: BodyNo) -> &[Option<Env>]
    ensures { result.now ≡ slice_index_or tables.now body.0 [] }
{
    match tables.get(body.0 as usize) {
        None => &[],
        Some(table) => table.slots(),
    }
}

/// The first pair of a point that made it known that the field of the object in the register isn't null, a test or an assignment, and a point that ended
/// that, so that it wasn't known again up to the point `read`; None where there is no such pair. What made it known last counts. The first pair is that of
/// the least point that ended it, and of that the least that made it, by the numbers of points in the body. What is found for the field is kept.
///
/// # Errors
/// No memory was found.
pub fn next_voided(
    alloc: Global,
    voids: &mut Voids,
    body: BodyNo,
    key: FieldKey,
    read: PointNo,
) -> Result<Option<Voided>, OutOfMemory>
    requires { body.0 < length voids.old.program.bodies }
    ensures same { voids.new ≡ voids.old }
    ensures found { IfOk result (λ found. IsFound voids.old.program voids.old.sig body.0
        (slice_index_or voids.old.tables body.0 []) key read.0 found) }
{
    match voids.before(body, key, read) {
        Some(found) => Ok(found),
        None => {
            let turned = voids.turned_of(alloc, body, key)?;
            let found = turned.before(read);
            voids.make_room(alloc);
            voids.put(body, key, turned)?;
            Ok(found)
        }
    }
}
