//! Laws of what is found in an item. A function here does nothing: its contract is the law.

ghost use Rattle.std.specs.Prelude.{◌≡◌, ◌≢◌, ◌<◌, ℕ, All, Bool, true, List, Option, Some, length};
ghost use Rattle.std.specs.List.{AllPairs};
ghost use Rattle.snl_lex.specs.declared.piece.Piece.{Piece};
ghost use Rattle.snl_grammar.specs.declared.tree.item.Item.{Item};
ghost use Rattle.snl_grammar.specs.Parsing.{kinds_in};
ghost use Rattle.snl_grammar.specs.Reading.Items.{item_of};
ghost use Rattle.snl_codes.specs.Codes.{is_item_code};
ghost use Rattle.snl_walk.specs.Tokens.{token_bytes};
ghost use Rattle.snl_scope.specs.declared.facts.Fact.{Fact};
ghost use Rattle.snl_summary.specs.Summaries.{outline_in};
ghost use Rattle.snl_item_check.specs.FaultCodes.{LeavesToLinks};
ghost use Rattle.snl_item_check.specs.ItemFaults.{StandsIn, faults_in};
ghost use Rattle.snl_item_check.specs.SeenNames.{Agree, SameTokens, target_names, used_names};
ghost use Rattle.snl_item_check.specs.Told.{told_by};

use snl_walk::{
    each_finding_once, findings_have_rule_codes, findings_stand_at_tokens,
    functions_are_named_first, option_letters_rise, repeated_names_resolve,
    same_answers_same_findings,
};

/// The same is found in an item of the same tokens and tree, wherever it is, where the same is
/// known of each name that it uses, and of each of its targets; and it tells the tables the same.
pub fn equal_views()
    ensures faults { (text moved : List ℕ) (tokens shifted : List Piece) (tree : Item)
        (in_set : Bool) (fact other : List ℕ → Option Fact) (target another : List ℕ → Bool)
        → SameTokens text tokens moved shifted
        → Agree fact other (used_names text tokens tree)
        → Agree target another (target_names text tokens tree)
        → faults_in (token_bytes text tokens) tree in_set fact target
        ≡ faults_in (token_bytes moved shifted) tree in_set other another }
    ensures told { (text moved : List ℕ) (tokens shifted : List Piece) (tree : Item)
        → SameTokens text tokens moved shifted
        → told_by (token_bytes text tokens) tree ≡ told_by (token_bytes moved shifted) tree }
{
    same_answers_same_findings();
}

/// In an item whose tree is read of its tokens, no two findings have the same token, byte and code,
/// whatever the other items say.
pub fn each_item_finding_once()
    ensures { (bytes : ℕ → List ℕ) (in_set : Bool) (fact : List ℕ → Option Fact)
        (target : List ℕ → Bool) (text : List ℕ) (tokens : List Piece) (tree : Item)
        → item_of (kinds_in text tokens) ≡ Some tree
        → AllPairs (λ a b. a ≢ b) (faults_in bytes tree in_set fact target) }
{
    findings_have_rule_codes();
    each_finding_once();
    option_letters_rise();
}

/// In an item whose tree is read of its tokens, each finding is at one of these tokens.
pub fn faults_stand_at_tokens()
    ensures { (bytes : ℕ → List ℕ) (in_set : Bool) (fact : List ℕ → Option Fact)
        (target : List ℕ → Bool) (text : List ℕ) (tokens : List Piece) (tree : Item)
        → item_of (kinds_in text tokens) ≡ Some tree
        → All (λ f. f.token < length tokens) (faults_in bytes tree in_set fact target) }
{
    findings_stand_at_tokens();
    option_letters_rise();
}

/// Each finding of an item is at a byte of its token, or at the token's end.
pub fn faults_stand_in_tokens()
    ensures { (bytes : ℕ → List ℕ) (tree : Item) (in_set : Bool) (fact : List ℕ → Option Fact)
        (target : List ℕ → Bool) → All (StandsIn bytes) (faults_in bytes tree in_set fact target) }
{}

/// What is found in an item has one of the codes of what is inside items.
pub fn faults_have_item_codes()
    ensures { (bytes : ℕ → List ℕ) (tree : Item) (in_set : Bool) (fact : List ℕ → Option Fact)
        (target : List ℕ → Bool)
        → All (λ f. is_item_code f.code ≡ true) (faults_in bytes tree in_set fact target) }
{
    findings_have_rule_codes();
}

/// In an item whose tree is read of its tokens, E07 is at no name that the item declares in a scope
/// that isn't its own.
pub fn outer_names_left_to_links()
    ensures { (bytes : ℕ → List ℕ) (in_set : Bool) (fact : List ℕ → Option Fact)
        (target : List ℕ → Bool) (text : List ℕ) (tokens : List Piece) (tree : Item)
        → item_of (kinds_in text tokens) ≡ Some tree
        → All (LeavesToLinks (outline_in text tokens (Some tree)))
        (faults_in bytes tree in_set fact target) }
{
    functions_are_named_first();
    repeated_names_resolve();
}
