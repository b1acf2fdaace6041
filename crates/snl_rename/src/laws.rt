//! The law of renames. A function here does nothing: its contract is the law.

ghost use Rattle.std.specs.Prelude.{◌≡◌, ℕ, List};
ghost use Rattle.std.specs.List.{AllByRecursion};
ghost use Rattle.snl_questions.specs.Meanings.{span_bytes};
ghost use Rattle.snl_questions.specs.Mentions.{mentioned_near, references_near};
ghost use Rattle.snl_alike.specs.Edits.{Edit, with_edits};
ghost use Rattle.snl_rename.specs.Renaming.{IsRenaming};

use snl_alike::{edits_are_undone, places_keep_their_order, tokens_move, undone_edits_move};

/// A rename, and one of the same name back to what it was spelled, leave the text as it was.
pub fn renamed_there_and_back()
    ensures { (text name old : List ℕ) (offset back : ℕ) (there here : List Edit)
        → IsRenaming text offset name there → IsRenaming (with_edits text there) back old here
        → mentioned_near (with_edits text there) back ≡ mentioned_near text offset
        → AllByRecursion (λ r. span_bytes text r.span ≡ old) (references_near text offset)
        → with_edits (with_edits text there) here ≡ text }
{
    edits_are_undone();
    undone_edits_move();
    places_keep_their_order();
    tokens_move();
}
