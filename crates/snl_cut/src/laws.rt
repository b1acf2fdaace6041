//! Laws of the cut, for every front. A function here does nothing: its contract is the law.

ghost use Rattle.snl_cut.specs.Cut.{EachFirst, IsCut, IsEdit, IsRecut, Rises, ends_of, fresh_ends, in_a_row, joined, last_end, meet_of, members, members_kept};
ghost use Rattle.std.specs.Prelude.{◌≡◌, ◌<◌, ◌≤◌, List, length, slice_index, ℕ};

use crate::trait_front::Front;

/// Each list has one cut and no other. Its members follow one another, and each is as long as the
/// front says of what comes from it on.
pub fn one_cut<F: Front>()
    ensures is_cut { (units : List F.Unit) → IsCut F.first_of units (ends_of F.first_of units) }
    ensures only { (units : List F.Unit) (ends : List ℕ) → IsCut F.first_of units ends → ends ≡ ends_of F.first_of units }
    ensures joins { (units : List F.Unit) → in_a_row (members units 0 (ends_of F.first_of units)) ≡ units }
    ensures by_front { (units : List F.Unit) → EachFirst F.first_of (members units 0 (ends_of F.first_of units)) }
{}

/// The ends of a cut rise to the end of the list, and there are no more of them than units.
pub fn ends_in_order<F: Front>()
    ensures rise { (units : List F.Unit) → Rises 0 (ends_of F.first_of units) }
    ensures last { (units : List F.Unit) → last_end 0 (ends_of F.first_of units) ≡ length units }
    ensures within { (units : List F.Unit) (i : ℕ) → i < length (ends_of F.first_of units) → slice_index (ends_of F.first_of units) i ≤ length units }
    ensures few { (units : List F.Unit) → length (ends_of F.first_of units) ≤ length units }
{}

/// What is kept and made of a cut is the cut made anew.
pub fn recut_is_cut<F: Front>()
    ensures { (old units : List F.Unit) (start old_stop new_stop front : ℕ) (made : List ℕ) (back : ℕ)
        → IsRecut F.first_of old (ends_of F.first_of old) units start old_stop new_stop front made back
        → joined (ends_of F.first_of old) old_stop new_stop front made back ≡ ends_of F.first_of units }
{}

/// Two recuts in turn give the cut of what is after both edits.
pub fn edits_in_turn<F: Front>()
    ensures { (one two three : List F.Unit) (start old_stop new_stop front : ℕ) (made : List ℕ) (back : ℕ)
        (start2 old_stop2 new_stop2 front2 : ℕ) (made2 : List ℕ) (back2 : ℕ)
        → IsRecut F.first_of one (ends_of F.first_of one) two start old_stop new_stop front made back
        → IsRecut F.first_of two (joined (ends_of F.first_of one) old_stop new_stop front made back) three start2 old_stop2 new_stop2 front2 made2 back2
        → joined (joined (ends_of F.first_of one) old_stop new_stop front made back) old_stop2 new_stop2 front2 made2 back2 ≡ ends_of F.first_of three }
{}

/// What is kept of a cut is kept as it was: the members themselves, and not only their ends. This
/// holds also of a list beside the units, as of what they were made of, that is edited as these are
/// and cut by their ends.
pub fn members_stay<F: Front, X>()
    ensures { (old units : List F.Unit) (start old_stop new_stop front : ℕ) (made : List ℕ) (back : ℕ) (old_beside beside : List X)
        → IsEdit old_beside beside start old_stop new_stop
        → IsRecut F.first_of old (ends_of F.first_of old) units start old_stop new_stop front made back
        → members beside 0 (ends_of F.first_of units) ≡ members_kept old_beside (ends_of F.first_of old) beside front made back }
{}

/// Just the fresh members are made: those that end at or after the edit's start and begin before
/// the meeting point.
pub fn made_are_fresh<F: Front>()
    ensures { (old units : List F.Unit) (start old_stop new_stop front : ℕ) (made : List ℕ) (back : ℕ)
        → IsRecut F.first_of old (ends_of F.first_of old) units start old_stop new_stop front made back
        → made ≡ fresh_ends F.first_of old units start old_stop new_stop }
{}

/// A recut meets the old cut at the meeting point that is searched for among the ends.
pub fn meets_where_sought<F: Front>()
    ensures { (old units : List F.Unit) (start old_stop new_stop front : ℕ) (made : List ℕ) (back : ℕ)
        → (is : IsRecut F.first_of old (ends_of F.first_of old) units start old_stop new_stop front made back)
        → meet_of F.first_of old units old_stop new_stop ≡ is.meet }
{}
