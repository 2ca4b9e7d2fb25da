//! What a body's pieces are chosen from.
ghost use Rattle.jn_cert_form.specs.Around.{IsAround};
ghost use Rattle.jn_cert_form.specs.OneFact.{around_prop};

use crate::keyed::Keyed;
use jn_base::Seq;

/// What a body's pieces are chosen from: its keys, the sorted ones and its own fields as texts, and the registers at which a qualifier may stand.
#[derive(Clone, Copy)]
pub struct Around<'a> {
    pub keyed: &'a Keyed<'a>,
    pub key_texts: &'a [Seq<u8>],
    pub field_texts: &'a [Seq<u8>],
    pub allowed: &'a [bool],
    ghost is: { IsAround keyed.now.program.now keyed.now.body.0 keyed.now.keys.now keyed.now.sorted.now key_texts.now field_texts.now allowed.now } by { around_prop keyed.now.program.now keyed.now.body.0 keyed.now.keys.now keyed.now.sorted.now key_texts.now field_texts.now allowed.now },
}
