//! The keys of a body, as they are written and read.
ghost use Rattle.std.specs.Prelude.{◌≡◌};
ghost use Rattle.jn_env.specs.Code.{AreKeys};
ghost use Rattle.jn_env.specs.Keys.{own_keys};
ghost use Rattle.jn_cert_form.specs.Chosen.{places_in};
ghost use Rattle.jn_cert_form.specs.Form.{ascending};
ghost use Rattle.jn_cert_form.specs.OneFact.{key_lists_set, keys_prop, number_lists_set};

use jn_base::BodyNo;
use jn_env::{FieldKey, Keys};
use jn_points::Program;

/// A body of a program with its keys: those of facts also in their order, each with its place in the body's list, and its own fields.
#[derive(Clone, Copy)]
pub struct Keyed<'a> {
    pub program: &'a Program,
    pub body: BodyNo,
    /// The keys of the body.
    pub keys: &'a Keys,
    /// Its own fields, which stand in their order.
    pub own: &'a [u32],
    /// The keys of its facts in their order.
    pub sorted: &'a [FieldKey],
    /// Where each of these stands in the body's list.
    pub places: &'a [usize],
    ghost are: { AreKeys program.now body.0 keys.now } by { keys_prop program.now body.0 keys.now },
    ghost fields: { own.now ≡ own_keys program.now body.0 } by { number_lists_set _ _ },
    ghost order: { sorted.now ≡ ascending keys.now.facts } by { key_lists_set _ _ },
    ghost standing: { places.now ≡ places_in keys.now.facts sorted.now } by { number_lists_set _ _ },
}
