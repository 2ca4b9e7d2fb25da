//! The laws of the loop.
ghost use Rattle.std.specs.Prelude.{List, Option};
ghost use Rattle.jn_base.specs.declared.infer.Infer.{Infer};
ghost use Rattle.jn_outside.specs.Files.{Holding};
ghost use Rattle.jn_lsp_frames.specs.declared.frame.Frame.{Frame as FrameOf};
ghost use Rattle.jn_lsp_text.specs.declared.reply.Reply.{Reply as ReplyOf};
ghost use Rattle.jn_lsp.specs.Serving.{IsUpToDate};
ghost use Rattle.nullcheck_lsp_top.specs.declared.client.Client.{Client as ClientOf};
ghost use Rattle.nullcheck_lsp_top.specs.Hearing.{AnsweredOnce, HearsAll};
ghost use Rattle.nullcheck_lsp_top.specs.Looking.{Outside, new_client};

use jn_lsp::law::{last_published_is_the_report, requests_are_answered_once};

/// Says that after any frames that were taken, what was published last of each name is what the report of the files as they stand says of
/// it: the diagnostics of its rows, in order, and none where it doesn't stand. Where it has no rows and the report ends before the rules, these are
/// what the last report that came to the rules said of it, if its text is as it was then, and why it isn't checked. The members are inferred
/// that `initialize` chose, else those of the words. The files stand as the client has them open,
/// the others as they were last read. Where what the client sent of a document can't be read, its text isn't known until it is opened again
/// or closed: of it nothing is told, and it stands with the last text that was known.
pub fn published_is_the_report()
    ensures { (infer : Infer) (held : Option Holding) (old new : Outside) (client : ClientOf) (frames : List FrameOf) (replies : List ReplyOf)
        → HearsAll held old new (new_client infer) frames replies client
        → IsUpToDate client.server replies }
{
    last_published_is_the_report()
}

/// Says that after any frames that were taken, each request that came before `exit` was answered once, in the order of the requests, and
/// nothing else was: a response has the id of its request.
pub fn requests_have_one_answer()
    ensures { (infer : Infer) (held : Option Holding) (old new : Outside) (client : ClientOf) (frames : List FrameOf) (replies : List ReplyOf)
        → HearsAll held old new (new_client infer) frames replies client
        → AnsweredOnce frames replies }
{
    requests_are_answered_once()
}
