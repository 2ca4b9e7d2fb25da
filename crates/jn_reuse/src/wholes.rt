//! Names and signatures that are equal as a whole.
ghost use Rattle.std.specs.Prelude.{◌≡◌, ◌↔◌, ◌<◌, ◌^◌, length, true};

use crate::lists::same_words;
use crate::texts::same_name;
use jn_base::NameNo;
use jn_sigs::Sig;
use jn_trees::Names;

/// Whether the names have the same texts, number by number. 2 ^ 32 names or more aren't told to.
#[tactic(auto, using(crate::proofs::Told::names_none, crate::proofs::Told::names_more, crate::proofs::Told::names_all, crate::proofs::Told::names_longer, crate::proofs::Told::names_other))]
pub fn same_names(names: &Names, more: &Names) -> bool
    ensures same { result ≡ true → names.now ≡ more.now }
    ensures told { length names.now < 2 ^ 32 → names.now ≡ more.now → result ≡ true }
{
    if names.len() > u32::MAX as usize {
        return false;
    }
    if names.len() != more.len() {
        return false;
    }
    for at in 0..names.len() {
        if !same_name(names, NameNo(at as u32), more, NameNo(at as u32)) {
            return false;
        }
    }
    true
}

/// Whether the signatures have the same qualifiers, slot by slot.
#[tactic(auto, using(crate::proofs::Told::sigs_longer))]
pub fn same_sigs(one: &Sig, other: &Sig) -> bool
    ensures { (result ≡ true) ↔ (one.now ≡ other.now) }
{
    if one.slots() != other.slots() {
        return false;
    }
    same_words(one.words(), other.words())
}
