//! A language server over an input and an output.
ghost use Rattle.std.specs.Prelude.{◌≡◌, ◌<◌, map};
ghost use Rattle.std.specs.String.{string_bytes};
ghost use Rattle.nullcheck_lsp_top.specs.Answer.{AnswersWords, channels};
ghost use Rattle.nullcheck_lsp_top.specs.Looking.{outside};

use crate::frames::serve_all;
use crate::status::Status;
use jn_base::Fail;
use jn_cli::read_setup;
use jn_folder::Folder;
use jn_lsp_frames::Stream;
use jn_outside::{Files, Sink};
use jn_sharing::Gate;
use std::alloc::Global;
use std::thread::Threads;

/// Serves a client (Language Server Protocol 3.17): messages come from the input, replies go to the output. The words are, in any order,
/// `--codes` and the address of the document of the codes, so that each diagnostic links to its code there, and `--infer private` or `--infer
/// package` (also with `=`), the members that are inferred where the client's `initializationOptions.infer` chooses none. With others nothing
/// is read or written.
///
/// `rt` gives the threads of four workers, who call `gate` when they take a file, a body for inference, or a body whose rows are made anew.
pub fn serve<R: Threads + Sync, K: Sink, S: Stream<K>, F: Files, D: Folder, G: Gate + Sync>(
    rt: &R,
    gate: &G,
    alloc: Global,
    words: &[String],
    input: &mut S,
    files: &mut F,
    folder: &mut D,
    out: &mut K,
) -> Status
    // The frames of the input are taken one after the other. Each is a message, and the server is what the messages and the files that
    // were read for them make of it; what is written are the replies, in frames of their own, all of them or after a write fault a
    // prefix. By the law of servers the diagnostics that were published last of each file are those of the files' report.
    ensures answer { AnswersWords (F.held files.old)
        (channels (S.given input.old) (S.ended input.old) (S.faults input.old) (S.asked input.old) (K.written out.old) (K.faults out.old))
        (channels (S.given input.new) (S.ended input.new) (S.faults input.new) (S.asked input.new) (K.written out.new) (K.faults out.new))
        (outside (D.told folder.old) (D.faults folder.old) (F.gave files.old) (F.faults files.old))
        (outside (D.told folder.new) (D.faults folder.new) (F.gave files.new) (F.faults files.new))
        (map string_bytes words.now) result }
    ensures read_always { S.faults input.old < S.faults input.new → result ≡ Status.ReadFault }
    ensures write_always { K.faults out.old < K.faults out.new → result ≡ Status.WriteFault }
{
    match read_setup(alloc, words) {
        Err(Fail::Refused(_)) => Status::Usage,
        Err(Fail::OutOfMemory) => Status::OutOfMemory,
        Ok(setup) => serve_all(rt, gate, alloc, &setup, input, files, folder, out),
    }
}
