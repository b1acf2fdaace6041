//! The laws of `sync` and `monitor` clauses that meet on a variable. A function here does nothing
//! of its own: its contract is the law.

ghost use Rattle.snl_codes.specs.declared.code.Code.TheVariants.{W05};
ghost use Rattle.snl_scope.specs.Clauses.{clause_faults, sound_clauses};
ghost use Rattle.snl_summary.specs.declared.summary.Outline.{Outline};
ghost use Rattle.snl_table_laws.specs.Clauses.{IsRepetition, MonitorApart, SyncApart};
ghost use Rattle.std.specs.Prelude.{◌≡◌, List, All};
ghost use Rattle.std.specs.List.{AllPairs};

/// No two sound clauses, `sync` or `syncq`, of one declaration cover a common element, and none
/// covers the whole beside another.
pub fn sound_syncs_apart()
    ensures { (ss : List Outline) → AllPairs SyncApart (sound_clauses ss) }
{}

/// Sound `monitor`s of one declaration may meet, since that is no error: W05 is found at the later
/// one then, and nowhere else. So those without W05 are apart.
pub fn meeting_monitors_are_found()
    ensures found { (ss : List Outline) → AllPairs (MonitorApart ss) (sound_clauses ss) }
    ensures only { (ss : List Outline)
        → All (λ f. f.code ≡ W05 → IsRepetition ss f) (clause_faults ss) }
{}
