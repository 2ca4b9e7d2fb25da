//! The laws of servers.
ghost use Rattle.std.specs.Prelude.{List};
ghost use Rattle.jn_base.specs.declared.infer.Infer.{Infer};
ghost use Rattle.jn_lsp_text.specs.declared.reply.Reply.{Reply as SpecReply};
ghost use Rattle.jn_lsp.specs.declared.event.Event.{Event as SpecEvent};
ghost use Rattle.jn_lsp.specs.Requests.{AreAnswered};
ghost use Rattle.jn_lsp.specs.Serving.{IsUpToDate, Serves, ServerOf, new_server};

/// After any events that a new server took, what it published last of each name is what the report of the files as they stand says of it:
/// the diagnostics of its rows, in order, where those members are inferred that were chosen, and none where it doesn't stand. Where it has no rows
/// and the report ends before the rules, these are what the last report that came to the rules said of it, if its text is as it was then, and why
/// it isn't checked.
pub fn last_published_is_the_report()
    ensures { (infer : Infer) (events : List SpecEvent) (replies : List SpecReply) (after : ServerOf)
        → Serves (new_server infer) events replies after → IsUpToDate after replies }
{}

/// A new server answers each request that comes before `exit` once, in the order of the requests, and no other.
pub fn requests_are_answered_once()
    ensures { (infer : Infer) (events : List SpecEvent) (replies : List SpecReply) (after : ServerOf)
        → Serves (new_server infer) events replies after → AreAnswered events replies }
{}
