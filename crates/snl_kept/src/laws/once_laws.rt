//! The law of what is found once in a text. A function here does nothing: its contract is the law.

ghost use Rattle.std.specs.Prelude.{◌≡◌, ℕ, List, true};
ghost use Rattle.std.specs.List.{AllPairs};
ghost use Rattle.snl_kept.specs.Diagnostics.{diagnostics_of, found, stands_before};
ghost use Rattle.snl_kept.specs.OnceFound.{ArePlacedOnce};

use crate::found::program::items_end_in_order;
use crate::laws::text_laws::linked_once;
use snl_item_check::{
    each_item_finding_once, faults_have_item_codes, faults_stand_at_tokens, faults_stand_in_tokens,
    outer_names_left_to_links,
};
use snl_lex::{pieces_as_listed, text_in_pieces};
use snl_scope::{faults_have_places, outlines_speak_of_tokens};

/// No offset and code occur twice in what is found in a text. So its diagnostics rise by offset and
/// code.
pub fn found_once()
    ensures found { (text : List ℕ) → ArePlacedOnce (found text) }
    ensures rising { (text : List ℕ) → AllPairs (λ x y. stands_before x y ≡ true) (diagnostics_of text) }
{
    text_in_pieces();
    pieces_as_listed();
    items_end_in_order();
    each_item_finding_once();
    faults_stand_at_tokens();
    faults_stand_in_tokens();
    faults_have_item_codes();
    outer_names_left_to_links();
    outlines_speak_of_tokens();
    faults_have_places();
    linked_once();
}
