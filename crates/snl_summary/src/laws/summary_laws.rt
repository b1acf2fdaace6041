//! Laws of summaries. A function here does nothing: its contract is the law.

ghost use Rattle.snl_lex.specs.declared.piece.Piece.{Piece};
ghost use Rattle.snl_summary.specs.declared.summary.ItemKind.TheVariants.{State};
ghost use Rattle.snl_summary.specs.Summaries.{kind_of_tree, outline_in};
ghost use Rattle.snl_summary.specs.Summaries.Clauses.{clauses_in};
ghost use Rattle.snl_summary.specs.Summaries.Declares.{declared_in};
ghost use Rattle.snl_grammar.specs.declared.tree.item.Item.{Item};
ghost use Rattle.snl_walk.specs.Once.{once, with_new};
ghost use Rattle.std.specs.Prelude.{◌≡◌, ◌≢◌, ◌↔◌, ◌++◌, ◌∷◌, [], ℕ, List, None, Some};
ghost use Rattle.std.specs.List.{AllPairs, Contains};

/// Each name is kept, no other is, and no two are the same; they are in the order in which they
/// come first.
pub fn names_kept_once()
    ensures same { (names : List (List ℕ))
        → (name : List ℕ) → Contains (once names) name ↔ Contains names name }
    ensures apart { (names : List (List ℕ)) → AllPairs (λ a b. a ≢ b) (once names) }
    ensures ordered { (names : List (List ℕ))
        → (name : List ℕ) → once (names ++ name ∷ []) ≡ with_new (once names) name }
{}

/// A state that declares nothing and has no clauses says the same to the others while it is faulty.
pub fn plain_state_outline()
    ensures { (text : List ℕ) (tokens : List Piece) (tree : Item) → kind_of_tree tree ≡ State
        → declared_in text tokens (Some tree) ≡ [] → clauses_in text tokens (Some tree) ≡ []
        → outline_in text tokens (Some tree) ≡ outline_in text tokens None }
{}
