//! A change of a document is published.

ghost use Rattle.std.specs.Prelude.{◌≡◌, ◌∷◌, [], ℕ, ◌≤◌, List, None, Option, Some, length};
ghost use Rattle.snl_docs.specs.Served.{Served, after, replied};
ghost use Rattle.snl_docs.specs.declared.phase.Phase.TheVariants.{Ready};
ghost use Rattle.snl_document.specs.Documents.{Doc, document_of};
ghost use Rattle.snl_document.specs.Says.{Says};
ghost use Rattle.snl_document.specs.Texts.{changed_by_all, limit};
ghost use Rattle.snl_hear.specs.Changes.{Changed};
ghost use Rattle.snl_hear.specs.Heard.{Notification};
ghost use Rattle.snl_hear.specs.Notifications.{DidChange, DidClose, DidOpen};
ghost use Rattle.snl_replies.specs.Replies.{Publish};
ghost use Rattle.snl_turns.specs.Turns.{Turn, heard_at};

/// A `didChange` of an open document, after which its text is one that is checked: what is found in
/// the text after the changes is published, with the version of the message, and nothing else is
/// said. That text is kept with that version.
pub fn changes_are_published()
    ensures published { (says : Says) (s : Served) (turn : Turn) (uri : List ℕ)
        (version : Option ℕ) (changes : List Changed) (doc : Doc) (text : List ℕ)
        → s.phase ≡ Ready → heard_at turn ≡ Notification (DidChange uri version changes)
        → document_of uri s.docs ≡ Some doc
        → changed_by_all s.encoding doc.text changes ≡ Some text → length text ≤ limit
        → replied says s turn ≡ Publish (says.found_in s.encoding text) uri version ∷ [] }
    ensures kept { (s : Served) (turn : Turn) (uri : List ℕ) (version : Option ℕ)
        (changes : List Changed) (doc : Doc) (text : List ℕ)
        → s.phase ≡ Ready → heard_at turn ≡ Notification (DidChange uri version changes)
        → document_of uri s.docs ≡ Some doc
        → changed_by_all s.encoding doc.text changes ≡ Some text → length text ≤ limit
        → document_of uri (after s turn).docs
        ≡ Some (record { uri = uri; version = version; text = Some text }) }
{}

/// The same of a `didOpen`, whether its document was open before or not.
pub fn openings_are_published()
    ensures published { (says : Says) (s : Served) (turn : Turn) (uri : List ℕ)
        (version : Option ℕ) (text : List ℕ)
        → s.phase ≡ Ready → heard_at turn ≡ Notification (DidOpen uri version text)
        → length text ≤ limit
        → replied says s turn ≡ Publish (says.found_in s.encoding text) uri version ∷ [] }
    ensures kept { (s : Served) (turn : Turn) (uri : List ℕ) (version : Option ℕ) (text : List ℕ)
        → s.phase ≡ Ready → heard_at turn ≡ Notification (DidOpen uri version text)
        → length text ≤ limit
        → document_of uri (after s turn).docs
        ≡ Some (record { uri = uri; version = version; text = Some text }) }
{}

/// After a `didClose` nothing is found any more in the document, which is published, and it isn't
/// open.
pub fn closings_are_published()
    ensures published { (says : Says) (s : Served) (turn : Turn) (uri : List ℕ)
        → s.phase ≡ Ready → heard_at turn ≡ Notification (DidClose uri)
        → replied says s turn ≡ Publish [] uri None ∷ [] }
    ensures gone { (s : Served) (turn : Turn) (uri : List ℕ)
        → s.phase ≡ Ready → heard_at turn ≡ Notification (DidClose uri)
        → document_of uri (after s turn).docs ≡ None }
{}
