//! The law of the options that withhold warnings. A function here does nothing of its own: its
//! contract is the law.

ghost use Rattle.snl_codes.specs.Codes.{is_error};
ghost use Rattle.snl_finding_laws.specs.Settings.{AreWarningsOff};
ghost use Rattle.snl_kept.specs.Diagnostics.{diagnostics_of, found};
ghost use Rattle.snl_kept.specs.Program.{items_of};
ghost use Rattle.snl_kept.specs.Shifted.{finding_of};
ghost use Rattle.snl_kept.specs.declared.found.findings.Finding.{Finding};
ghost use Rattle.std.specs.Prelude.{◌≡◌, ◌&&◌, ℕ, All, Bool, true, List, count_by};

/// Where the last option at program level with the letter `w` has a minus, no warning is among the
/// diagnostics of a text. Else all that is found is, as often as it is found. Errors are never
/// withheld, whatever the options say.
pub fn options_withhold_warnings()
    ensures off { (text : List ℕ) → AreWarningsOff text (items_of text)
        → All (λ d. is_error d.code ≡ true) (diagnostics_of text) }
    ensures on { (text : List ℕ) (test : Finding → Bool)
        → (AreWarningsOff text (items_of text) → ⊥)
        → count_by (λ d. test (finding_of d)) (diagnostics_of text) ≡ count_by test (found text) }
    ensures errors { (text : List ℕ) (test : Finding → Bool)
        → count_by (λ d. test (finding_of d) && is_error d.code) (diagnostics_of text)
        ≡ count_by (λ x. test x && is_error x.code) (found text) }
{}
