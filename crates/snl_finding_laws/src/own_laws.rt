//! The laws of the faulty items. A function here does nothing of its own: its contract is the law.

ghost use Rattle.snl_finding_laws.specs.OwnFaults.{IsAtFaulty, is_at_item, is_bad_token, is_in_span, is_of_parser, is_syntax_error};
ghost use Rattle.snl_kept.specs.Diagnostics.{diagnostics_of};
ghost use Rattle.snl_kept.specs.Program.{ProgramItem, items_of};
ghost use Rattle.snl_grammar.specs.Parsing.{is_bad};
ghost use Rattle.std.specs.List.{list_any};
ghost use Rattle.std.specs.Prelude.{◌≡◌, ◌&&◌, ℕ, All, List, None, Some, count_by, if◌then◌else◌, is_none, not, slice_get, true};

use snl_cut::ends_in_order;
use snl_grammar::{Tokens, outcome_told};
use snl_item_check::{faults_have_item_codes, faults_stand_at_tokens, faults_stand_in_tokens};
use snl_kept::rows_have_bytes;
use snl_lex::{pieces_as_listed, text_in_pieces};
use snl_scope::{faults_have_places, outlines_speak_of_tokens};

/// In the span of a faulty item there is one diagnostic of the parser: E01 where one of its tokens
/// is faulty, else E02. In that of a sound item there is none. Warnings that are turned off change
/// nothing of it.
pub fn one_fault_an_item()
    ensures one { (text : List ℕ) (i : ℕ) (x : ProgramItem) → slice_get (items_of text) i ≡ Some x
        → count_by (is_at_item is_of_parser x) (diagnostics_of text)
        ≡ (if is_none x.tree then 1 else 0) }
    ensures bad_token { (text : List ℕ) (i : ℕ) (x : ProgramItem)
        → slice_get (items_of text) i ≡ Some x
        → count_by (is_at_item is_bad_token x) (diagnostics_of text)
        ≡ (if list_any is_bad x.tokens then 1 else 0) }
    ensures syntax_error { (text : List ℕ) (i : ℕ) (x : ProgramItem)
        → slice_get (items_of text) i ≡ Some x
        → count_by (is_at_item is_syntax_error x) (diagnostics_of text)
        ≡ (if is_none x.tree && not (list_any is_bad x.tokens) then 1 else 0) }
{
    text_in_pieces();
    pieces_as_listed();
    ends_in_order::<Tokens>();
    outcome_told();
    outlines_speak_of_tokens();
    faults_have_places();
    faults_have_item_codes();
}

/// In the span of a faulty item there is no other diagnostic, but that the text has no header or no
/// state set at all: E05 and E06, at the text's beginning.
pub fn faulty_items_have_no_other()
    ensures { (text : List ℕ) (i : ℕ) (x : ProgramItem) → slice_get (items_of text) i ≡ Some x
        → x.tree ≡ None
        → All (λ d. is_in_span x d.offset ≡ true → IsAtFaulty d) (diagnostics_of text) }
{
    text_in_pieces();
    pieces_as_listed();
    ends_in_order::<Tokens>();
    outcome_told();
    outlines_speak_of_tokens();
    faults_have_places();
    faults_have_item_codes();
    faults_stand_at_tokens();
    faults_stand_in_tokens();
    rows_have_bytes();
}
