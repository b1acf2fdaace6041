//! The ranges of references lead back to them.

ghost use Rattle.std.specs.Prelude.{◌≡◌, ℕ, Contains, IsUtf8, List};
ghost use Rattle.snl_place.specs.declared.places.Encoding.{Encoding};
ghost use Rattle.snl_place.specs.declared.places.Place.{Place};
ghost use Rattle.snl_questions.specs.declared.mentions.mention.Reference.{Reference};
ghost use Rattle.snl_shown.specs.References.{part_of, references_at};

use snl_cut::ends_in_order;
use snl_grammar::Tokens;
use snl_lex::{first_piece_reaches, text_in_pieces};
use snl_outline_laws::references_lead_to_all;
use snl_place::places_return;
use snl_token_laws::pieces_hold_characters;

/// In a text in UTF-8, whoever asks where a reference begins that was answered is answered by the
/// same references: each of the ranges leads to all.
pub fn reference_ranges_lead_back()
    ensures { (encoding : Encoding) (text : List ℕ) (place : Place) (r : Reference)
        → IsUtf8 text → Contains (references_at encoding text place) r
        → references_at encoding text (part_of encoding text r).0
        ≡ references_at encoding text place }
{
    text_in_pieces();
    first_piece_reaches();
    ends_in_order::<Tokens>();
    places_return();
    pieces_hold_characters();
    references_lead_to_all();
}
