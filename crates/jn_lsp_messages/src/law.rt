//! Laws of messages and of names.
ghost use Rattle.std.specs.Prelude.{◌≡◌, List, ℕ, true};
ghost use Rattle.jn_lsp_messages.specs.Incoming.{IsMessage};
ghost use Rattle.jn_lsp_messages.specs.Uris.{is_path, name_of, uri_of};
ghost use Rattle.jn_lsp_text.specs.declared.message.Message.{Message};

/// A body has one message.
pub fn a_body_has_one_message()
    ensures { (body : List ℕ) (one other : Message)
        → IsMessage body one → IsMessage body other → one ≡ other }
{}

/// The URI of a whole path stands for that path.
pub fn a_path_is_the_name_of_its_uri(path: &str)
    requires { is_path path.now ≡ true }
    ensures { name_of (uri_of path.now) ≡ path.now }
{}
