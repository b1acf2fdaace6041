//! Where members end: look-ups in a list of ends, by halving.

ghost use Rattle.snl_cut.specs.Cut.{Rises, ends_below, last_end};
ghost use Rattle.std.specs.Prelude.{◌≡◌, ◌+◌, ◌-◌, ◌^◌, ◌<◌, ◌≤◌, ◌↔◌, IsTrue, MatchOption, length, take, ℕ};

use crate::trait_ends::Ends;

// How many of the ends are below `place`, by halving.
pub fn count_below<E: Ends>(ends: &E, place: usize) -> usize
    requires { Rises 0 (E.listed ends.now) }
    ensures count { result ≡ ends_below place (E.listed ends.now) }
    ensures inside { result ≤ length (E.listed ends.now) }
{
    let mut low = 0;
    let mut high = ends.count();
    while low < high {
        let middle = low + (high - low) / 2;
        let end = ends.end(middle);
        if end < place {
            low = middle + 1;
        } else {
            high = middle;
        }
    }
    low
}

// Whether the end of this number, counted from 0, is there and below `place`.
fn is_below<E: Ends>(ends: &E, number: usize, place: usize) -> bool
    requires { Rises 0 (E.listed ends.now) }
    ensures { IsTrue result ↔ number < ends_below place (E.listed ends.now) }
{
    number < ends.count() && ends.end(number) < place
}

// The same as `count_below`. It tries `near` first, which spares the halving where that is right.
#[tactic(auto, using(crate::specs::CutLaws::below_inside))]
fn count_near<E: Ends>(ends: &E, near: usize, place: usize) -> usize
    requires { Rises 0 (E.listed ends.now) }
    ensures count { result ≡ ends_below place (E.listed ends.now) }
    ensures inside { result ≤ length (E.listed ends.now) }
{
    let enough = near == 0 || is_below(ends, near - 1, place);
    if enough && !is_below(ends, near, place) {
        near
    } else {
        count_below(ends, place)
    }
}

// How many members, from the first on, end just at `place`. `near` is a guess at how many ends are
// below it, and is mended.
fn members_to<E: Ends>(ends: &E, near: &mut usize, place: usize) -> Option<usize>
    requires { Rises 0 (E.listed ends.now) }
    ensures { MatchOption
        result
        ((k : ℕ) → last_end 0 (take k (E.listed ends.now)) ≡ place → ⊥)
        (λ k. (k ≤ length (E.listed ends.now)) × (last_end 0 (take k (E.listed ends.now)) ≡ place)) }
{
    if place == 0 {
        return Some(0);
    }
    let below = count_near(ends, *near, place);
    *near = below;
    if below == ends.count() {
        return None;
    }
    let end = ends.end(below);
    if end == place { Some(below + 1) } else { None }
}

// How many old members end where the new place `at` was, which has to be at the edit's end or after
// it. `near` is a guess at how many ends are below that place, and is mended.
pub fn meeting<E: Ends>(
    old_ends: &E,
    old_stop: usize,
    new_stop: usize,
    at: usize,
    near: &mut usize,
) -> Option<usize>
    requires rising { Rises 0 (E.listed old_ends.now) }
    requires fits { (at - new_stop) + old_stop < 2 ^ 64 }
    ensures { MatchOption
        result
        (new_stop ≤ at → (k : ℕ) → last_end 0 (take k (E.listed old_ends.now)) ≡ (at - new_stop) + old_stop → ⊥)
        (λ k. (new_stop ≤ at) × (k ≤ length (E.listed old_ends.now)) × (last_end 0 (take k (E.listed old_ends.now)) ≡ (at - new_stop) + old_stop)) }
{
    if at < new_stop {
        None
    } else {
        members_to(old_ends, near, at - new_stop + old_stop)
    }
}

// Where the first `count` members end.
pub fn end_of<E: Ends>(ends: &E, count: usize) -> usize
    requires { count ≤ length (E.listed ends.now) }
    ensures { result ≡ last_end 0 (take count (E.listed ends.now)) }
{
    if count == 0 { 0 } else { ends.end(count - 1) }
}
