//! The numbers that are taken, with a mark at each.
ghost use Rattle.std.specs.Prelude.{◌≡◌, ◌<◌, ◌^◌, ◌∷◌, [], ◌||◌, ℕ, eqb, false, get_or, length, OnErr, OnOk};
ghost use Rattle.jn_lowering.specs.Temporaries.{is_among};

use jn_base::OutOfMemory;
use std::alloc::Global;
use std::marker::Model;

/// The numbers that are taken, the last one last, and a mark at each of them; where no marks stand any more, none is taken.
#[derive(Drop)]
pub struct Marks {
    taken: Vec<u32>,
    marks: Vec<bool>,
}

impl Model for Marks {
    ghost use Rattle.std.specs.Prelude.{List, ℕ, reverse};
    ghost use Rattle.jn_lower_expr.specs.Marking.{AreMarks};

    ghost Value = { List ℕ };

    ghost view = { λ m. reverse m.taken.items };

    ghost invariant = { λ m. AreMarks (reverse m.taken.items) m.marks.items };
}

/// Makes room for a mark.
#[tactic(auto, using(crate::proofs::Marking::pad))]
fn pad(marks: &mut Vec<bool>, number: usize) -> Result<(), OutOfMemory>
    requires { number < 2 ^ 32 }
    ensures room { OnOk result (number < length marks.new.items) }
    ensures same { (n : ℕ) → get_or marks.new.items n false ≡ get_or marks.old.items n false }
{
    while marks.len() <= number {
        if marks.push(false).is_err() {
            return Err(OutOfMemory);
        }
    }
    Ok(())
}

impl Marks {
    /// None is taken.
    pub fn new(alloc: Global) -> Marks
        ensures { result ≡ [] }
    {
        Marks {
            taken: Vec::new(alloc),
            marks: Vec::new(alloc),
        }
    }

    /// Whether the number is taken.
    pub fn has(&self, number: u32) -> bool
        ensures { result ≡ is_among number self.now }
    {
        let place = number as usize;
        if place < self.marks.len() {
            return self.marks[place];
        }
        false
    }

    /// Takes the number.
    pub fn add(&mut self, number: u32) -> Result<(), OutOfMemory>
        ensures taken { OnOk result (self.new ≡ number ∷ self.old) }
        ensures same { OnErr result (self.new ≡ self.old) }
    {
        let place = number as usize;
        match pad(&mut self.marks, place) {
            Ok(()) => {}
            Err(_) => return Err(OutOfMemory),
        }
        match self.taken.push(number) {
            Ok(()) => {}
            Err(_) => return Err(OutOfMemory),
        }
        self.marks[place] = true;
        Ok(())
    }
}
