//! How long the lists of a program may be, so that numbers of 32 bits are enough for what they hold.
ghost use Rattle.std.specs.Prelude.{◌≡◌, ◌↔◌, true};
ghost use Rattle.jn_index.specs.Sizes.{Few, ParamsFit};

use jn_points::Program;

/// The most items that a number of 32 bits counts.
const MOST: usize = 0xFFFF_FFFF;

/// Whether no method has more parameters than a number of 32 bits counts.
fn counts_parameters(program: &Program) -> bool
    ensures { (result ≡ true) ↔ ParamsFit program.now }
{
    for method in program.methods.as_slice() {
        if method.params.len() > MOST {
            return false;
        }
    }
    true
}

/// Whether all that names and members are looked up by has numbers of 32 bits, as in all that fits into memory.
pub fn is_counted(program: &Program) -> bool
    ensures { (result ≡ true) ↔ Few program.now }
{
    if program.classes.len() > MOST || program.fields.len() > MOST || program.methods.len() > MOST {
        return false;
    }
    counts_parameters(program)
}
