//! What a table is told once, what a pass knows, and the rule that ties both to the words.
use crate::constraints::Constraints;
use atomic_table::TableRule;
use jn_base::WordNo;
use std::collections::LinkedList;
use std::marker::PhantomData;

/// The system of a table, and the words that the table begins with: those of the system, then the
/// dirty ones.
#[derive(Drop)]
pub struct Setting<C> {
    pub system: C,
    pub words: Vec<u64>,
}

/// What a pass knows. No value of it is made: it stands in contracts alone.
pub struct View<C> {
    /// The system of the pass's table.
    pub system: C,
    /// How many bodies all passes together may take; it is fixed by the system and the start.
    pub limit: u64,
    /// The body that the pass runs.
    pub body: Option<u32>,
    /// The values that were read for that body, one for each word, 0 where nothing was read.
    pub values: LinkedList<u64>,
    /// The words that were read for that body.
    pub read: LinkedList<u32>,
    /// The bits that were raised for that body.
    pub raised: LinkedList<(WordNo, u64)>,
    /// The bodies to which the pass owes a mark.
    pub owed: LinkedList<u32>,
    /// The bodies whose dirty bit the pass has seen clear.
    pub clear: LinkedList<u32>,
    /// How many bodies the pass has taken and not given back.
    pub taken: u64,
    /// The pass's part of the whole: a number d stands for 2 to the power of -d.
    pub share: LinkedList<u32>,
}

/// The rule that holds between any two steps.
pub struct Raising<C> {
    of: PhantomData<C>,
}

impl<C: Constraints> TableRule<u8, View<Option<C>>, Setting<Option<C>>> for Raising<C> {
    ghost use Rattle.jn_sigtable.specs.Machine.{Holds, first_view, described};

    ghost holds = { Holds (described C.describe) };

    ghost first = { first_view (described C.describe) };
}
