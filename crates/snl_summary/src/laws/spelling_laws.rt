//! The law of tokens that are spelled alike. A function here does nothing: its contract is the law.

ghost use Rattle.snl_lex.specs.PieceList.{spelled};
ghost use Rattle.snl_lex.specs.declared.piece.Class.{Class};
ghost use Rattle.snl_lex.specs.declared.piece.Piece.{Piece};
ghost use Rattle.snl_summary.specs.SpelledTokens.{bytes_by, pieces_from, summary_by, text_of};
ghost use Rattle.snl_summary.specs.Summaries.{summary_in};
ghost use Rattle.snl_walk.specs.Tokens.{token_bytes};
ghost use Rattle.snl_grammar.specs.declared.tree.item.Item.{Item};
ghost use Rattle.std.specs.Prelude.{◌≡◌, ℕ, List, Option};

/// Tokens that are spelled alike have the same bytes and, with the same tree, the same summary,
/// whichever texts they are in: both go by their spelling alone. Tokens that are a text by
/// themselves are spelled there as they are.
pub fn same_spelling_same_summary()
    ensures bytes { (text moved : List ℕ) (tokens shifted : List Piece)
        → spelled text tokens ≡ spelled moved shifted → token_bytes text tokens ≡ token_bytes moved shifted }
    ensures summary { (text moved : List ℕ) (tokens shifted : List Piece)
        → spelled text tokens ≡ spelled moved shifted
        → (tree : Option Item) → summary_in text tokens tree ≡ summary_in moved shifted tree }
    ensures bytes_by_spelling { (text : List ℕ) (tokens : List Piece)
        → token_bytes text tokens ≡ bytes_by (spelled text tokens) }
    ensures alone { (tokens : List (Class × List ℕ))
        → spelled (text_of tokens) (pieces_from 0 tokens) ≡ tokens }
    ensures summary_by_spelling { (text : List ℕ) (tokens : List Piece) (tree : Option Item)
        → summary_in text tokens tree ≡ summary_by (spelled text tokens) tree }
{}
