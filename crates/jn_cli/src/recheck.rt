//! What the words of `nullcheck_recheck` ask for.
ghost use Rattle.std.specs.Prelude.{◌≡◌, None, Some, map, string_bytes, IfOk};
ghost use Rattle.jn_cli.specs.Recheck as spec;
ghost use Rattle.jn_cli.specs.Refused.{IfRefused};

use crate::command::Usage;
use crate::infer::{infer_of, is_chosen};
use crate::names::{Options, read_options};
use jn_base::{Fail, Infer, Text};
use std::alloc::{AllocError, Global};

/// A script, and the members that are inferred in its checks.
#[derive(Drop)]
pub struct AskedFor {
    /// Private ones where nothing is said.
    pub infer: Infer,
    /// The script's name.
    pub script: Text,
}

/// The script that is the one name.
fn asked_by(alloc: Global, infer: Infer, names: &[Text]) -> Result<Option<AskedFor>, AllocError>
    ensures { IfOk result (λ asked. asked ≡ spec.asked_by infer names.now) }
{
    match names {
        [name] => {
            let script = name.copy(alloc)?;
            Ok(Some(AskedFor { infer, script }))
        }
        _ => Ok(None),
    }
}

/// What options ask for.
fn asked_in(alloc: Global, options: &Options) -> Result<Option<AskedFor>, AllocError>
    ensures { IfOk result (λ asked. asked ≡ spec.asked_in options.now) }
{
    if !is_chosen(&options.infer) {
        return Ok(None);
    }
    let infer = infer_of(&options.infer);
    asked_by(alloc, infer, options.names.as_slice())
}

/// What the words after the program's name ask for.
///
/// # Errors
///
/// `Usage` where they ask for nothing; or no memory was found.
#[tactic(auto, using(crate::proofs::Asking::asks_script, crate::proofs::Asking::asks_no_script))]
pub fn read_recheck(alloc: Global, words: &[String]) -> Result<AskedFor, Fail<Usage>>
    ensures asked { IfOk result (λ a. spec.asked_of (map string_bytes words.now) ≡ Some a) }
    ensures usage { IfRefused result (spec.asked_of (map string_bytes words.now) ≡ None) }
{
    let options = match read_options(alloc, "nullcheck_recheck", words) {
        Err(fail) => return Err(fail),
        Ok(options) => options,
    };
    match asked_in(alloc, &options) {
        Err(AllocError) => Err(Fail::OutOfMemory),
        Ok(None) => Err(Fail::Refused(Usage)),
        Ok(Some(asked)) => Ok(asked),
    }
}
