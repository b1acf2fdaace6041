//! The laws of where diagnostics are, and of which findings they are. A function here does nothing
//! of its own: its contract is the law.

ghost use Rattle.snl_finding_laws.specs.Places.{DiagnosticLiesIn, SetFilesLieIn, is_shown};
ghost use Rattle.snl_kept.specs.Diagnostics.{diagnostics_of, found};
ghost use Rattle.snl_kept.specs.Shifted.{finding_of};
ghost use Rattle.snl_kept.specs.Tables.{tables_in};
ghost use Rattle.snl_kept.specs.declared.found.findings.Finding.{Finding};
ghost use Rattle.std.specs.Prelude.{◌≡◌, ◌&&◌, ℕ, All, Bool, List, count_by};

use snl_cut::ends_in_order;
use snl_grammar::Tokens;
use snl_item_check::{faults_stand_at_tokens, faults_stand_in_tokens};
use snl_kept::rows_have_bytes;
use snl_lex::text_in_pieces;

/// The bytes that a diagnostic quotes are bytes of the text, and so is the name of its file.
pub fn diagnostics_lie_in_text()
    ensures { (text : List ℕ) → All (DiagnosticLiesIn text) (diagnostics_of text) }
{
    text_in_pieces();
    ends_in_order::<Tokens>();
    faults_stand_at_tokens();
    faults_stand_in_tokens();
    rows_have_bytes();
}

/// The names of the files in the rows of state sets and of their states are bytes of the text.
pub fn files_lie_in_text()
    ensures { (text : List ℕ) → All (SetFilesLieIn text) (tables_in text).sets }
{
    text_in_pieces();
}

/// The diagnostics of a text are all that is found in it and is shown: whatever is asked of
/// findings, as many diagnostics pass it as findings that are shown.
pub fn diagnostics_are_shown()
    ensures { (text : List ℕ) (test : Finding → Bool)
        → count_by (λ d. test (finding_of d)) (diagnostics_of text)
        ≡ count_by (λ x. test x && is_shown text x) (found text) }
{}
