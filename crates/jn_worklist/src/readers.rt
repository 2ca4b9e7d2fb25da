//! The lists of a plan.
ghost use Rattle.std.specs.Prelude.{◌≡◌, ◌<◌, [], length, get_or};

use jn_base::{BodyNo, Seq, WordNo};
use std::marker::Model;

/// For each word of a system the bodies that read it, in order; contracts see it as these lists.
#[derive(Drop)]
pub struct Plan {
    readers: Vec<Seq<BodyNo>>,
}

impl Model for Plan {
    ghost use Rattle.std.specs.Prelude.{List};
    ghost use Rattle.jn_base.specs.declared.number.BodyNo.{BodyNo};

    ghost Value = { List (List BodyNo) };

    ghost view = { λ p. p.readers.items };
}

impl Plan {
    // The plan with these lists.
    pub fn new(readers: Vec<Seq<BodyNo>>) -> Plan
        ensures { result ≡ readers.items }
    {
        Plan { readers }
    }

    /// The bodies that read the word.
    pub fn readers(&self, word: WordNo) -> &Seq<BodyNo>
        requires { word.0 < length self.now }
        ensures { result.now ≡ get_or self.now word.0 [] }
    {
        &self.readers[word.0 as usize]
    }
}
