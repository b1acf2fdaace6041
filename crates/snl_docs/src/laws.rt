//! The laws of what is answered, whatever texts say. A function here does nothing: its contract is
//! the law.

ghost use Rattle.std.specs.Prelude.{◌≡◌, ◌∷◌, [], ℕ, List, Some, All};
ghost use Rattle.serde_json.specs.Data.{Data};
ghost use Rattle.snl_hear.specs.Heard.{Request};
ghost use Rattle.snl_hear.specs.Requests.{Asked, OfDocument, Query};
ghost use Rattle.snl_docs.specs.declared.phase.Phase.TheVariants.{Ready};
ghost use Rattle.snl_document.specs.Documents.{document_of};
ghost use Rattle.snl_document.specs.Says.{Says};
ghost use Rattle.snl_docs.specs.Known.{IsAskedOf, IsByText, IsElsewhere, checked_text, kept_for};
ghost use Rattle.snl_replies.specs.Replies.{Answer};
ghost use Rattle.snl_docs.specs.Served.{Served, after, replied};
ghost use Rattle.snl_turns.specs.Turns.{Turn, heard_at};

/// Whatever is published is what is found in the text that is kept for its URI after the message:
/// nothing, where none is known or it isn't checked.
pub fn published_by_text()
    ensures { (says : Says) (s : Served) (turn : Turn)
        → All (IsByText says (after s turn)) (replied says s turn) }
{}

/// A message about one document leaves each other one as it was.
pub fn others_stay()
    ensures { (s : Served) (turn : Turn) (uri : List ℕ) → IsElsewhere uri (heard_at turn)
        → document_of uri (after s turn).docs ≡ document_of uri s.docs }
{}

/// What is asked of a document is answered by the text that is kept for its URI, where that is
/// checked. Nothing else of what is kept is looked at, but how far the talk is and how places are
/// counted.
pub fn answered_by_text()
    ensures question { (says : Says) (s : Served) (turn : Turn) (id : Data) (uri text : List ℕ)
        (query : Query)
        → s.phase ≡ Ready → heard_at turn ≡ Request id (OfDocument uri query)
        → checked_text uri s.docs ≡ Some text
        → replied says s turn ≡ Answer id uri (says.answer_in s.encoding text query) ∷ [] }
    ensures alone { (says : Says) (s other : Served) (turn : Turn) (id : Data) (asked : Asked)
        (uri : List ℕ)
        → heard_at turn ≡ Request id asked → IsAskedOf uri asked
        → s.phase ≡ other.phase → s.encoding ≡ other.encoding
        → kept_for uri s.docs ≡ kept_for uri other.docs
        → replied says s turn ≡ replied says other turn }
{}
