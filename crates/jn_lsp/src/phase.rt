//! Where a server is in its life.
ghost use Rattle.std.specs.Prelude.{◌≡◌};
ghost use Rattle.jn_lsp.specs.Serving.{next_phase, phase_behind};

use crate::event::Event;
use jn_lsp_text::Message;

/// Where a server is in its life (Language Server Protocol 3.17, "Server lifecycle").
#[derive(Clone, Copy, Debug, PartialEq, Eq)]
pub enum Phase {
    /// No `initialize` came yet.
    Waiting,
    /// `initialize` was answered.
    Serving,
    /// `shutdown` was answered.
    ShutDown,
    /// `exit` came: in order where `shutdown` came before.
    Exited { in_order: bool },
}

impl Phase {
    /// The phase after a message.
    pub(crate) fn behind(self, message: &Message) -> Phase
        ensures { result ≡ phase_behind self message.now }
    {
        match (self, message) {
            (Phase::Waiting, Message::Initialize { .. }) => Phase::Serving,
            (Phase::Waiting, Message::Exit) => Phase::Exited { in_order: false },
            (Phase::Serving, Message::Shutdown { .. }) => Phase::ShutDown,
            (Phase::Serving, Message::Exit) => Phase::Exited { in_order: false },
            (Phase::ShutDown, Message::Exit) => Phase::Exited { in_order: true },
            _ => self,
        }
    }

    /// The phase after an event.
    pub(crate) fn behind_event(self, event: &Event) -> Phase
        ensures { result ≡ next_phase self event.now }
    {
        match event {
            Event::Message(message) => self.behind(message),
            Event::Folder(_) => self,
        }
    }
}
