//! Origins over the tables of all bodies.
ghost use Rattle.std.specs.Prelude.{◌≡◌, ◌<◌, [], IfOk, length, slice_index_or};
ghost use Rattle.jn_tables_law.specs.Inferable.{IsInferable};
ghost use Rattle.jn_reasons.specs.Listed.{causes};
ghost use Rattle.jn_reasons_law.specs.declared.item.Item.TheVariants.{AtSlot};
ghost use Rattle.jn_origins.specs.Grounds.{ground_of};
ghost use Rattle.jn_origins.specs.OneBody.{tabled_by};
ghost use Rattle.jn_origins.specs.Standing.{AreSized, standing};
ghost use Rattle.jn_origins.specs.Targets.{AreSame};

use crate::basis::Basis;
use crate::bodies::{KnownBody, find_known, known_of};
use crate::registers::{Wanted, register_causes};
use crate::senders::{find_senders, senders_of};
use crate::slots::{add_bodies, add_overriders, add_started, table_of};
use crate::standing::standing;
use crate::tabled::Tabled;
use jn_base::{BodyNo, OutOfMemory, PointNo, RegNo, Seq, SlotNo};
use jn_chain::Origins;
use jn_contrib::{Overrider, overriders};
use jn_env::{FlowTable, OwnFields};
use jn_index::indexed::IndexedProgram;
use jn_points::Program;
use jn_reasons::law::causes_are_listed;
use jn_reasons::{Cause, Source};
use jn_reasons_law::{Bit, Item};
use jn_sigs::{Sig, start};
use jn_transfer::Analysis;
use std::alloc::Global;
use std::marker::Model;

/// A program, a signature, and a table for each body, with the keys and jumps of bodies, the signature from which inference starts, the methods that
/// override and the bodies that can send to each slot, which are found once. Contracts see the first three. A question for a slot passes over the
/// bodies that can send to it, and one for a register over the points that lead to its own.
#[derive(Drop)]
pub struct LeastOrigins<'a> {
    program: &'a Program,
    sig: &'a Sig,
    tables: &'a [FlowTable],
    bodies: Vec<KnownBody>,
    start: Sig,
    overriders: Vec<Overrider>,
    senders: Vec<Seq<u32>>,
}

impl<'a> Model for LeastOrigins<'a> {
    ghost use Rattle.jn_chain.specs.Search.{Ground};
    ghost use Rattle.jn_origins.specs.Standing.{AreParts};

    ghost Value = { Ground };

    ghost view = { λ o. record { program = o.program.now; sig = o.sig.now; tables = o.tables.now } };

    ghost invariant = { λ o. AreParts o.program.now o.tables.now o.bodies.items o.start o.overriders.items o.senders.items };
}

impl<'a> LeastOrigins<'a> {
    /// Over a program, a signature, and tables: those of its bodies, in their order.
    ///
    /// # Errors
    /// No memory was found.
    pub fn new(
        alloc: Global,
        program: &'a IndexedProgram,
        sig: &'a Sig,
        tables: &'a [FlowTable],
    ) -> Result<LeastOrigins<'a>, OutOfMemory>
        requires inferable { IsInferable program.now }
        requires sized { AreSized program.now tables.now }
        ensures program { IfOk result (λ origins. origins.program ≡ program.now) }
        ensures sig { IfOk result (λ origins. origins.sig ≡ sig.now) }
        ensures tables { IfOk result (λ origins. origins.tables ≡ tables.now) }
    {
        let fields = OwnFields::new(alloc, program.program())?;
        let start = start(alloc, program.program())?;
        let overriders = overriders(alloc, program)?;
        let bodies = find_known(alloc, program.program(), &fields)?;
        let senders = find_senders(alloc, program.program(), &bodies)?;
        Ok(LeastOrigins {
            program: program.program(),
            sig,
            tables,
            bodies,
            start,
            overriders,
            senders,
        })
    }

    /// What holds of all origins: the program can be inferred.
    pub fn facts(&self)
        ensures { IsInferable self.now.program }
    {
        let _program = self.program;
    }

    /// What the causes are over.
    pub fn basis(&self) -> Basis<'a>
        ensures { ground_of result ≡ self.now }
    {
        Basis {
            program: self.program,
            sig: self.sig,
            tables: self.tables,
        }
    }

    /// The program.
    pub fn program(&self) -> &'a Program
        ensures { result.now ≡ self.now.program }
    {
        self.program
    }

    /// A body with its table.
    #[tactic(auto, using(crate::proofs::Steps::sized_for, crate::proofs::Leads::stays_for, crate::proofs::Leads::jumps_for))]
    pub(crate) fn of_body(&self, body: BodyNo) -> Tabled<'_>
        requires { body.0 < length self.now.program.bodies }
        ensures { result
            ≡ tabled_by self.now.program self.now.sig body.0
            (slice_index_or self.now.tables body.0 []) }
    {
        let program = self.program;
        let known = known_of(program, &self.bodies, body);
        let analysis = Analysis::new(program, self.sig, body, &known.keys);
        let info = &program.bodies.as_slice()[body.0 as usize];
        let points = info.points.as_slice();
        let table = table_of(self.tables, body);
        let jumps = known.jumps.as_slice();
        Tabled::new(analysis, points, table, jumps)
    }

    /// The causes of a slot's bit, whether their sources stand or not.
    fn slot_causes(&self, alloc: Global, slot: SlotNo, bit: Bit) -> Result<Vec<Cause>, OutOfMemory>
        ensures { IfOk result (λ list.
            AreSame list.items
            (causes self.now.program self.now.sig self.now.tables (AtSlot slot.0 bit))) }
    {
        let mut list = Vec::new(alloc);
        add_started(&mut list, &self.start, slot, bit)?;
        let sending = senders_of(&self.senders, slot);
        add_bodies(alloc, self, &mut list, sending, slot, bit)?;
        let all = self.overriders.as_slice();
        add_overriders(alloc, self.program, self.sig, &mut list, all, slot, bit)?;
        Ok(list)
    }

    /// All causes of an item, whether their sources stand or not.
    fn all(&self, alloc: Global, item: Item) -> Result<Vec<Cause>, OutOfMemory>
        ensures { IfOk result (λ list.
            AreSame list.items (causes self.now.program self.now.sig self.now.tables item)) }
    {
        match item {
            Item::AtSlot(slot, bit) => self.slot_causes(alloc, SlotNo(slot), bit),
            Item::AtRegister(body, point, reg, bit) => {
                let wanted = Wanted {
                    point: PointNo(point),
                    reg: RegNo(reg),
                    bit,
                };
                let list = register_causes(alloc, self, BodyNo(body), wanted)?;
                Ok(list)
            }
        }
    }

    /// The causes of an item whose sources stand, or are the text.
    fn found(&self, alloc: Global, item: Item) -> Result<Vec<Cause>, OutOfMemory>
        ensures { IfOk result (λ list.
            AreSame list.items
            (standing self.now.sig self.now.tables
            (causes self.now.program self.now.sig self.now.tables item))) }
    {
        let all = self.all(alloc, item)?;
        let list = standing(alloc, self.sig, self.tables, &all)?;
        Ok(list)
    }
}

impl<'a> Origins for LeastOrigins<'a> {
    ghost describe = { λ o. o };

    fn causes(&self, alloc: Global, source: Source) -> Result<Vec<Cause>, OutOfMemory> {
        causes_are_listed();
        match source {
            None => Ok(Vec::new(alloc)),
            Some(item) => {
                let list = self.found(alloc, item)?;
                Ok(list)
            }
        }
    }
}
