//! The laws of what may come. A function here does nothing: its contract is the law.

ghost use Rattle.std.specs.Prelude.{◌≡◌, List, true};
ghost use Rattle.std.specs.List.{Contains};
ghost use Rattle.snl_lex.specs.declared.kind.Kind.{Kind};
ghost use Rattle.snl_expected.specs.Expected.{IsWhether, MayCome, comes, expected_of, others_of};
ghost use Rattle.snl_expected.specs.Groups.{description_of};
ghost use Rattle.snl_expected.specs.Kinds.{all_kinds};
ghost use Rattle.snl_expected.specs.DescriptionLaws.{IsDescribed};

use snl_syntax::{blamed_at_fault, item_read, viable_fronts};

/// A token may come after some others exactly where all of these, with some tokens to come, make an
/// item.
pub fn what_comes_is_viable()
    ensures { (before : List Kind) (next : Kind) → IsWhether (comes before next) (MayCome before next) }
{
    blamed_at_fault();
    item_read();
    viable_fronts();
}

/// What a description names, by groups and by single kinds, is just what may come.
pub fn what_is_described_may_come()
    ensures described { (before : List Kind) (next : Kind) → Contains all_kinds next →
        IsDescribed (description_of (expected_of before) (others_of before)) next → comes before next ≡ true }
    ensures all { (before : List Kind) (next : Kind) → Contains all_kinds next →
        comes before next ≡ true → IsDescribed (description_of (expected_of before) (others_of before)) next }
{}
