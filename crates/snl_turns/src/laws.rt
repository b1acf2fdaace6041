//! The laws of a client's messages. A function here calls laws alone: its contract is the law.

ghost use Rattle.std.specs.Prelude.{◌≡◌, ◌≤◌, ℕ, List, [], All, flat_map, length, map};
ghost use Rattle.snl_turns.specs.Turns.{Body, Turn};
ghost use Rattle.snl_frame.specs.Frame.{longest_body};
ghost use Rattle.snl_frame.specs.Framed.{framed};
ghost use Rattle.snl_turns.specs.Begins.{Begins, HoldsNone};

use snl_frame::messages_read_back;

/// Bodies in their frames, one after another, are messages with these bodies and nothing else.
pub fn bodies_are_heard()
    ensures { (bodies : List (List ℕ)) → All (λ body. length body ≤ longest_body) bodies
        → Begins (flat_map framed bodies) (map (λ body. Body body) bodies) [] }
{
    messages_read_back();
}

/// Which messages some bytes are is told by the bytes alone, and so is what is left.
pub fn messages_are_told_once()
    ensures turns { (bytes : List ℕ) (turns others : List Turn) (rest left : List ℕ)
        → Begins bytes turns rest → HoldsNone rest → Begins bytes others left → HoldsNone left
        → turns ≡ others }
    ensures rest { (bytes : List ℕ) (turns others : List Turn) (rest left : List ℕ)
        → Begins bytes turns rest → HoldsNone rest → Begins bytes others left → HoldsNone left
        → rest ≡ left }
{}
