//! The diagnostics of a text are published.

ghost use Rattle.std.specs.Prelude.{◌≡◌, ◌∷◌, [], ◌≤◌, ℕ, List, None, Option, Some};
ghost use Rattle.std.specs.Prelude.{length, map, take};
ghost use Rattle.snl_docs.specs.Served.{Served, replied};
ghost use Rattle.snl_docs.specs.declared.phase.Phase.TheVariants.{Ready};
ghost use Rattle.snl_document.specs.Documents.{Doc, document_of};
ghost use Rattle.snl_document.specs.Texts.{changed_by_all, limit};
ghost use Rattle.snl_hear.specs.Changes.{Changed};
ghost use Rattle.snl_hear.specs.Heard.{Notification};
ghost use Rattle.snl_hear.specs.Notifications.{DidChange, DidClose, DidOpen};
ghost use Rattle.snl_kept.specs.Diagnostics.{diagnostics_of};
ghost use Rattle.snl_replies.specs.Replies.{Publish};
ghost use Rattle.snl_shown.specs.Found.{found_at};
ghost use Rattle.snl_shown.specs.Shown.{says_of_text};
ghost use Rattle.snl_turns.specs.Turns.{Turn, heard_at};

use snl_server_laws::{changes_are_published, closings_are_published, openings_are_published};

/// What a session finds in a text is published of it, and nothing else is said: the first 1,000 of
/// its diagnostics, in their order, with the version of the message. Of a document that is closed
/// no diagnostic is left.
pub fn first_diagnostics_are_published()
    ensures change { (s : Served) (turn : Turn) (uri : List ℕ) (version : Option ℕ)
        (changes : List Changed) (doc : Doc) (text : List ℕ)
        → s.phase ≡ Ready → heard_at turn ≡ Notification (DidChange uri version changes)
        → document_of uri s.docs ≡ Some doc
        → changed_by_all s.encoding doc.text changes ≡ Some text → length text ≤ limit
        → replied says_of_text s turn
        ≡ Publish (map (found_at s.encoding text) (take 1000 (diagnostics_of text))) uri version
        ∷ [] }
    ensures opening { (s : Served) (turn : Turn) (uri : List ℕ) (version : Option ℕ)
        (text : List ℕ)
        → s.phase ≡ Ready → heard_at turn ≡ Notification (DidOpen uri version text)
        → length text ≤ limit
        → replied says_of_text s turn
        ≡ Publish (map (found_at s.encoding text) (take 1000 (diagnostics_of text))) uri version
        ∷ [] }
    ensures closing { (s : Served) (turn : Turn) (uri : List ℕ)
        → s.phase ≡ Ready → heard_at turn ≡ Notification (DidClose uri)
        → replied says_of_text s turn ≡ Publish [] uri None ∷ [] }
{
    changes_are_published();
    openings_are_published();
    closings_are_published();
}
