//! Laws of the first line of a finding.

ghost use Rattle.std.specs.Prelude.{◌≡◌, ℕ, List, All, None};
ghost use Rattle.snl_excerpt.specs.Safe.{IsPrintable};
ghost use Rattle.snl_kept.specs.declared.found.findings.Diagnostic.{Diagnostic};
ghost use Rattle.snl_report.specs.declared.paint.Paint.TheVariants.{Plain};
ghost use Rattle.snl_report.specs.Heads.{head_text};
ghost use Rattle.snl_report_laws.specs.Columns.{IsLineWithColumn};
ghost use Rattle.snl_run.specs.Answers.{line_text};
ghost use Rattle.snl_script.specs.Parts.{slice_of};

use snl_excerpt::shown_as_it_is;

/// The first line of a finding without colours, and without its column, is the name and the line
/// that `check` prints:
/// where no line marker gives the line a file, and name and quotation are printable ASCII.
pub fn heads_are_lines()
    ensures { (name text : List ℕ) (column : ℕ) (d : Diagnostic) → d.file ≡ None
        → All IsPrintable name → All IsPrintable (slice_of text d.offset d.subject)
        → IsLineWithColumn name d.line column (line_text text d) (head_text Plain name text column
        d) }
{
    shown_as_it_is();
}
