//! A body with a table of it.
ghost use Rattle.std.specs.Prelude.{◌≡◌, ◌<◌, ◌+◌, ◌^◌, IfOk, MatchOption, None, Some, length};
ghost use Rattle.jn_points.specs.Lookup.{body_at, points_of};
ghost use Rattle.jn_env.specs.Keys.{own_keys};
ghost use Rattle.jn_env.specs.Order.{env_in};
ghost use Rattle.jn_env.specs.Sized.{EnvSized, Sized};
ghost use Rattle.jn_transfer.specs.Sized.{StaysInside};
ghost use Rattle.jn_transfer.specs.Transfer.{entry_env, transfer};
ghost use Rattle.jn_origins.specs.Leading.{AreJumps};
ghost use Rattle.jn_origins.specs.OneBody.{LeadTo, tabled_by};

use crate::bodies::jumps_to;
use jn_base::{BodyNo, OutOfMemory, PointNo, Seq};
use jn_env::{Env, FieldNumbers, env_at};
use jn_points::{Point, PointKind, Program};
use jn_transfer::entry::entry;
use jn_transfer::{Analysis, Edge};
use std::alloc::Global;
use std::marker::Model;

/// A body of a program that can be inferred, under a signature, with a table of it, its points, and those that lead to each. Contracts see all but
/// the points.
#[derive(Drop)]
pub struct Tabled<'a> {
    analysis: Analysis<'a>,
    points: &'a [Point],
    slots: &'a [Option<Env>],
    jumps: &'a [Seq<u32>],
}

impl<'a> Model for Tabled<'a> {
    ghost use Rattle.jn_origins.specs.OneBody.{IsTabled, TabledBody, tabled_by};

    ghost Value = { TabledBody };

    ghost view = { λ t. tabled_by t.analysis.program t.analysis.sig t.analysis.body t.slots.now };

    ghost invariant = { λ t. IsTabled t.analysis.program t.analysis.body t.slots.now t.points.now t.jumps.now };
}

impl<'a> Tabled<'a> {
    /// An analysed body, of which these are the table, the points and those that lead to each.
    pub(crate) fn new(
        analysis: Analysis<'a>,
        points: &'a [Point],
        slots: &'a [Option<Env>],
        jumps: &'a [Seq<u32>],
    ) -> Tabled<'a>
        requires inside { analysis.body < length analysis.program.bodies }
        requires stays { StaysInside analysis.program analysis.body }
        requires points { points.now ≡ points_of (body_at analysis.program analysis.body) }
        requires short { length points.now < 2 ^ 32 }
        requires sized { Sized analysis.program analysis.body slots.now }
        requires jumps { AreJumps (points_of (body_at analysis.program analysis.body)) jumps.now }
        ensures { result
            ≡ tabled_by analysis.entry.program analysis.entry.sig analysis.entry.body slots.now }
    {
        Tabled {
            analysis,
            points,
            slots,
            jumps,
        }
    }

    /// The body's edges stay in it.
    pub(crate) fn facts(&self)
        ensures { StaysInside self.now.program self.now.body }
    {
        let _points = self.points;
    }

    /// The program.
    pub(crate) fn program(&self) -> &'a Program
        ensures { result.now ≡ self.now.program }
    {
        self.analysis.program()
    }

    /// The body's number.
    pub(crate) fn body(&self) -> BodyNo
        ensures { result.0 ≡ self.now.body }
    {
        self.analysis.body()
    }

    /// The fields that are the body's own.
    pub(crate) fn own(&self) -> &'a FieldNumbers
        ensures { result.now ≡ own_keys self.now.program self.now.body }
    {
        &self.analysis.keys().own
    }

    /// The body's points.
    pub(crate) fn points(&self) -> &'a [Point]
        ensures are { result.now ≡ points_of (body_at self.now.program self.now.body) }
        ensures short { length result.now < 2 ^ 32 }
    {
        self.points
    }

    /// The environment before a point, where the point is reached.
    pub(crate) fn env(&self, point: PointNo) -> Option<&'a Env>
        ensures { MatchOption result (env_in self.now.table point.0 ≡ None)
            (λ env. (env_in self.now.table point.0 ≡ Some env.now)
            × EnvSized self.now.program self.now.body env.now) }
    {
        match env_at(self.slots, point.0 as usize) {
            None => None,
            Some(env) => Some(env),
        }
    }

    /// The points that lead to this one and don't stand right before it.
    pub(crate) fn jumps_to(&self, point: PointNo) -> &'a [u32]
        ensures { LeadTo self.now point.0 result.now }
    {
        jumps_to(self.jumps, point)
    }

    /// Where a point leads, with the environments there.
    pub(crate) fn edges(
        &self,
        alloc: Global,
        kind: &PointKind,
        at: PointNo,
        env: &Env,
    ) -> Result<Vec<Edge>, OutOfMemory>
        requires small { at.0 + 1 < 2 ^ 32 }
        requires sized { EnvSized self.now.program self.now.body env.now }
        ensures { IfOk result (λ edges. edges.items
            ≡ transfer self.now.program self.now.sig self.now.body kind.now at.0 env.now) }
    {
        self.analysis.edges_after(alloc, kind, at.0, env)
    }

    /// The environment at the entry.
    pub(crate) fn entry(&self, alloc: Global) -> Result<Env, OutOfMemory>
        ensures { IfOk result
            (λ env. env ≡ entry_env self.now.program self.now.sig self.now.body) }
    {
        let env = entry(alloc, &self.analysis)?;
        Ok(env)
    }
}
