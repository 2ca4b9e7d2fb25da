//! What the words of `nullcheck_cert` ask for.
ghost use Rattle.std.specs.Prelude.{◌≡◌, None, Some, map, string_bytes, IfOk, MatchOption};
ghost use Rattle.jn_cli.specs.Cert as spec;
ghost use Rattle.jn_cli.specs.Refused.{IfRefused};

use crate::command::Usage;
use crate::infer::{infer_of, is_chosen};
use crate::names::{Options, read_options};
use jn_base::{Fail, Infer, Text};
use std::alloc::{AllocError, Global};

/// A certificate, the files that it is of, and the choice of members that are inferred.
#[derive(Drop)]
pub struct CertCommand {
    /// The members that are inferred where nothing is written; private ones where nothing is said.
    pub infer: Infer,
    /// The certificate's name.
    pub cert: String,
    /// The files' names; at least one.
    pub files: Vec<String>,
}

/// The texts as strings.
fn strings(alloc: Global, texts: &[Text]) -> Result<Vec<String>, AllocError>
    ensures { IfOk result (λ words. map string_bytes words.items ≡ texts.now) }
{
    let mut words = Vec::new(alloc);
    for text in texts {
        words.push(text.as_str().to_string(alloc)?)?;
    }
    Ok(words)
}

/// The command of a certificate and files of these names.
fn command(
    alloc: Global,
    infer: Infer,
    cert: &str,
    files: &[Text],
) -> Result<CertCommand, AllocError>
    ensures { IfOk result
        (λ c. spec.command c.infer (string_bytes c.cert) (map string_bytes c.files.items)
        ≡ spec.command infer cert.now files.now) }
{
    Ok(CertCommand {
        infer,
        cert: cert.to_string(alloc)?,
        files: strings(alloc, files)?,
    })
}

/// The command of this name, where the names are its own, a certificate's, and those of at least one file.
fn named_by(
    alloc: Global,
    first: &str,
    infer: Infer,
    names: &[Text],
) -> Result<Option<CertCommand>, AllocError>
    ensures { IfOk result (λ asked. MatchOption asked (spec.named_by first.now infer names.now ≡ None)
        (λ c. spec.named_by first.now infer names.now
        ≡ Some (spec.command c.infer (string_bytes c.cert) (map string_bytes c.files.items)))) }
{
    match names {
        [name, cert, files @ ..] => {
            if files.len() == 0 || name.as_str() != first {
                Ok(None)
            } else {
                let command = command(alloc, infer, cert.as_str(), files)?;
                Ok(Some(command))
            }
        }
        _ => Ok(None),
    }
}

/// What options ask of the command of this name.
fn command_of(
    alloc: Global,
    first: &str,
    options: &Options,
) -> Result<Option<CertCommand>, AllocError>
    ensures { IfOk result (λ asked. MatchOption asked (spec.command_of first.now options.now ≡ None)
        (λ c. spec.command_of first.now options.now
        ≡ Some (spec.command c.infer (string_bytes c.cert) (map string_bytes c.files.items)))) }
{
    if !is_chosen(&options.infer) {
        return Ok(None);
    }
    let infer = infer_of(&options.infer);
    named_by(alloc, first, infer, options.names.as_slice())
}

/// What the words after the program's name ask of the command of this name.
///
/// # Errors
///
/// `Usage` where they ask nothing of it; or no memory was found.
#[tactic(auto, unfolding(crate::specs::Cert::asked_of))]
pub fn read_cert(alloc: Global, first: &str, words: &[String]) -> Result<CertCommand, Fail<Usage>>
    ensures asked { IfOk result (λ c. spec.asked_of first.now (map string_bytes words.now)
        ≡ Some (spec.command c.infer (string_bytes c.cert) (map string_bytes c.files.items))) }
    ensures usage { IfRefused result (spec.asked_of first.now (map string_bytes words.now) ≡ None) }
{
    let options = match read_options(alloc, "nullcheck_cert", words) {
        Err(fail) => return Err(fail),
        Ok(options) => options,
    };
    match command_of(alloc, first, &options) {
        Err(AllocError) => Err(Fail::OutOfMemory),
        Ok(None) => Err(Fail::Refused(Usage)),
        Ok(Some(command)) => Ok(command),
    }
}
