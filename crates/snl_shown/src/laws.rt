//! The laws of what is answered over texts that sessions check. A function here calls laws alone:
//! its contract is the law.

ghost use Rattle.std.specs.Prelude.{◌≡◌, ◌∷◌, [], ℕ, Bool, List, Some, All};
ghost use Rattle.serde_json.specs.Data.{Data};
ghost use Rattle.snl_place.specs.declared.places.Place.{Place};
ghost use Rattle.snl_say.specs.Answered as answered;
ghost use Rattle.snl_say.specs.Answered.{location_answer};
ghost use Rattle.snl_hear.specs.Heard.{Request};
ghost use Rattle.snl_hear.specs.Requests.{Definition, Highlights, Hover, OfDocument, Query, References, Symbols};
ghost use Rattle.snl_document.specs.Texts as documents;
ghost use Rattle.snl_docs.specs.declared.phase.Phase.TheVariants.{Ready};
ghost use Rattle.snl_docs.specs.Known.{IsByText, checked_text};
ghost use Rattle.snl_docs.specs.Served.{Served, after, replied};
ghost use Rattle.snl_replies.specs.Replies.{Answer};
ghost use Rattle.snl_session.specs.Edit as sessions;
ghost use Rattle.snl_shown.specs.References.{locations_answer, ranges_answer, references_at};
ghost use Rattle.snl_shown.specs.Shown.{answer_in, declared_at, hover_answer, says_of_text, told_at};
ghost use Rattle.snl_shown.specs.Symbols.{symbols_in};
ghost use Rattle.snl_turns.specs.Turns.{Turn, heard_at};

use snl_docs::{answered_by_text, published_by_text};

/// Whatever is published is what is found in the text that is kept for its URI after the message:
/// nothing, where none is known or it isn't checked.
pub fn diagnostics_by_text()
    ensures { (s : Served) (turn : Turn)
        → All (IsByText says_of_text (after s turn)) (replied says_of_text s turn) }
{
    published_by_text();
}

/// What is asked of a document is answered by the text that is kept for its URI, where that is
/// checked: by its symbols, by where the name that a cursor is on is declared, by what a hover says
/// of that name, and by its references.
pub fn questions_by_text()
    ensures question { (s : Served) (turn : Turn) (id : Data) (uri text : List ℕ) (query : Query)
        → s.phase ≡ Ready → heard_at turn ≡ Request id (OfDocument uri query)
        → checked_text uri s.docs ≡ Some text
        → replied says_of_text s turn ≡ Answer id uri (answer_in s.encoding text query) ∷ [] }
    ensures symbols { (s : Served) (turn : Turn) (id : Data) (uri text : List ℕ)
        → s.phase ≡ Ready → heard_at turn ≡ Request id (OfDocument uri Symbols)
        → checked_text uri s.docs ≡ Some text
        → replied says_of_text s turn
        ≡ Answer id uri (answered.Symbols (symbols_in s.encoding text)) ∷ [] }
    ensures definition { (s : Served) (turn : Turn) (id : Data) (uri text : List ℕ)
        (place : Place)
        → s.phase ≡ Ready → heard_at turn ≡ Request id (OfDocument uri (Definition place))
        → checked_text uri s.docs ≡ Some text
        → replied says_of_text s turn
        ≡ Answer id uri (location_answer (declared_at s.encoding text place)) ∷ [] }
    ensures hover { (s : Served) (turn : Turn) (id : Data) (uri text : List ℕ) (place : Place)
        → s.phase ≡ Ready → heard_at turn ≡ Request id (OfDocument uri (Hover place))
        → checked_text uri s.docs ≡ Some text
        → replied says_of_text s turn
        ≡ Answer id uri (hover_answer (told_at s.encoding text place)) ∷ [] }
    ensures references { (s : Served) (turn : Turn) (id : Data) (uri text : List ℕ) (place : Place)
        (includes_declaration : Bool)
        → s.phase ≡ Ready
        → heard_at turn ≡ Request id (OfDocument uri (References place includes_declaration))
        → checked_text uri s.docs ≡ Some text
        → replied says_of_text s turn ≡ Answer id uri (locations_answer s.encoding text
        includes_declaration (references_at s.encoding text place)) ∷ [] }
    ensures highlights { (s : Served) (turn : Turn) (id : Data) (uri text : List ℕ) (place : Place)
        → s.phase ≡ Ready → heard_at turn ≡ Request id (OfDocument uri (Highlights place))
        → checked_text uri s.docs ≡ Some text
        → replied says_of_text s turn ≡ Answer id uri
        (ranges_answer s.encoding text (references_at s.encoding text place)) ∷ [] }
{
    answered_by_text();
}

/// A document is checked if a session takes its text: both know one limit.
pub fn limits_agree()
    ensures { documents.limit ≡ sessions.limit }
{}
