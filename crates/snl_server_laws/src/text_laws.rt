//! What the server hears, keeps and writes is text in UTF-8.

ghost use Rattle.std.specs.Prelude.{◌≡◌, All, List, Some};
ghost use Rattle.snl_docs.specs.Served.{replied, start};
ghost use Rattle.snl_document.specs.Says.{Says};
ghost use Rattle.snl_hear.specs.Json.{json_in};
ghost use Rattle.snl_replies.specs.Replies.{body_of};
ghost use Rattle.snl_server_laws.specs.Answered.{data_of, kept_after};
ghost use Rattle.snl_server_laws.specs.Texts.{AreTextDocs, IsTextHeard, SaysText};
ghost use Rattle.snl_turns.specs.Turns.{Turn, heard_at};

use snl_hear::{answers_read_back, notices_read_back};
use snl_place::edits_keep_text;

/// Each string that is heard is UTF-8, whatever bytes came and whatever is escaped in them; and each
/// id and version is one that can be written again.
pub fn messages_are_text()
    ensures { (turn : Turn) → IsTextHeard (heard_at turn) }
{}

/// Whatever a client sends, the URIs and the texts of the documents are UTF-8 after it.
pub fn documents_are_text()
    ensures { (turns : List Turn) → AreTextDocs (kept_after start turns).docs }
{
    messages_are_text();
    edits_keep_text();
}

/// Whatever a client sends, each body that is answered is read back as the value that it is to be:
/// it is JSON in UTF-8. This goes by what a text says alone.
pub fn replies_read_back()
    ensures { (says : Says) (turns : List Turn) (turn : Turn) → SaysText says
        → All (λ reply. json_in (body_of reply) ≡ Some (data_of reply))
        (replied says (kept_after start turns) turn) }
{
    messages_are_text();
    documents_are_text();
    answers_read_back();
    notices_read_back();
    edits_keep_text();
}
