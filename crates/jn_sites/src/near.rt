//! The methods that override, by the places of the text at which they stand.
ghost use Rattle.std.specs.Prelude.{◌≡◌, IfOk, OnOk};
ghost use Rattle.jn_points.specs.Lookup.{method_at};
ghost use Rattle.jn_contrib.specs.declared.listed.Overrider.{Overrider as OverriderOf};
ghost use Rattle.jn_contrib.specs.Entries.{AreOverriders};
ghost use Rattle.jn_sites.specs.Near.{AreNear, near, near_if};
ghost use Rattle.jn_sites.specs.Sites.{Adds, AreKept, at_place};

use crate::sites::Sites;
use jn_base::{OutOfMemory, Span};
use jn_contrib::Overrider;
use jn_points::Program;
use jn_points::lookup::method_at;
use std::alloc::{AllocError, Global};

/// Keeps the overrider for the place.
fn mark_at(
    sites: &mut Sites<Overrider>,
    alloc: Global,
    span: Span,
    overrider: &Overrider,
) -> Result<(), AllocError>
    ensures { OnOk result (Adds OverriderOf (at_place OverriderOf span overrider.now) sites.old sites.new) }
{
    let under = overrider.under.copy(alloc)?;
    let method = overrider.method;
    sites.put(span, Overrider { method, under })
}

/// Keeps the overrider for the place at which its method stands.
fn mark(
    sites: &mut Sites<Overrider>,
    alloc: Global,
    program: &Program,
    overrider: &Overrider,
) -> Result<(), AllocError>
    ensures { OnOk result
        (Adds OverriderOf (near_if (method_at program.now overrider.now.method) overrider.now)
        sites.old sites.new) }
{
    match method_at(program, overrider.method as usize) {
        None => Ok(()),
        Some(info) => mark_at(sites, alloc, info.span, overrider),
    }
}

/// The methods that override, for each of these places of the text.
///
/// # Errors
/// No memory was found.
pub fn find_near(
    alloc: Global,
    program: &Program,
    overriders: &[Overrider],
    spans: &[Span],
) -> Result<Sites<Overrider>, OutOfMemory>
    ensures { IfOk result (λ sites. AreKept OverriderOf (near program.now overriders.now) sites) }
{
    let mut sites = Sites::of(alloc, spans)?;
    for overrider in overriders {
        mark(&mut sites, alloc, program, overrider)?;
    }
    Ok(sites)
}

/// Those of the methods that override which are kept for the place; all of them where nothing is kept for it.
pub fn overriders_at<'a>(
    sites: &'a Sites<Overrider>,
    program: &Program,
    overriders: &'a [Overrider],
    span: Span,
) -> &'a [Overrider]
    requires overriders { AreOverriders program.now overriders.now }
    requires sites { AreKept OverriderOf (near program.now overriders.now) sites.now }
    ensures { AreNear program.now span result.now }
{
    let _program = program;
    match sites.get(span) {
        None => overriders,
        Some(list) => list,
    }
}
