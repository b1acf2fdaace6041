//! Laws of what is found in items. A function here does nothing: its contract is the law.

ghost use Rattle.std.specs.Prelude.{◌≡◌, ◌≢◌, ◌+◌, ◌<◌, ℕ, All, Bool, List, Option, Some, length, slice_get, true};
ghost use Rattle.std.specs.List.{AllPairs};
ghost use Rattle.std.specs.List.Sorted.{IsStrictlyIncreasing};
ghost use Rattle.snl_lex.specs.declared.piece.Piece.{Piece};
ghost use Rattle.snl_grammar.specs.Parsing.{kinds_in};
ghost use Rattle.snl_grammar.specs.Reading.Items.{item_of};
ghost use Rattle.snl_grammar.specs.declared.tree.item.Function.{Function};
ghost use Rattle.snl_grammar.specs.declared.tree.item.Item.{Item};
ghost use Rattle.snl_grammar.specs.declared.tree.item.Item.TheVariants as items;
ghost use Rattle.snl_walk.specs.declared.occurrence.Occurrence.{Occurrence};
ghost use Rattle.snl_walk.specs.declared.other_items.Outer.{Outer};
ghost use Rattle.snl_codes.specs.Codes.{is_rule_code};
ghost use Rattle.snl_walk.specs.Items.{occurrences, tokens_of};
ghost use Rattle.snl_walk.specs.Options.{letters_in};
ghost use Rattle.snl_walk.specs.Repeated.{IsApartFrom, IsNoRepetitionAt};
ghost use Rattle.snl_walk.specs.Rules.{findings};
ghost use Rattle.snl_walk.specs.Uses.{is_indexed, targets, uses};

use snl_grammar::{Kind, item_read, item_spelled};

/// In an item whose tokens are spelled alike the same is found, wherever it is.
pub fn same_bytes_same_occurrences()
    ensures { (bytes moved : ℕ → List ℕ) (tree : Item)
        → ((n : ℕ) → bytes n ≡ moved n) → occurrences bytes tree ≡ occurrences moved tree }
{}

/// In the tree that is read of tokens, each occurrence is at one of these tokens, and at a later
/// one than the occurrence before it.
pub fn tokens_rise()
    ensures rise { (bytes : ℕ → List ℕ) (text : List ℕ) (tokens : List Piece) (tree : Item)
        → item_of (kinds_in text tokens) ≡ Some tree
        → IsStrictlyIncreasing (tokens_of (occurrences bytes tree)) }
    ensures own { (bytes : ℕ → List ℕ) (text : List ℕ) (tokens : List Piece) (tree : Item)
        → item_of (kinds_in text tokens) ≡ Some tree
        → All (λ n. n < length tokens) (tokens_of (occurrences bytes tree)) }
{
    item_read();
    item_spelled();
}

/// In the tree of a function that is read of tokens, each occurrence is at a later token than the
/// function's name.
pub fn functions_are_named_first()
    ensures { (bytes : ℕ → List ℕ) (text : List ℕ) (tokens : List Piece) (f : Function)
        → item_of (kinds_in text tokens) ≡ Some (items.Function f)
        → All (λ n. f.name < n) (tokens_of (occurrences bytes (items.Function f))) }
{
    item_read();
    item_spelled();
}

/// In the tree that is read of tokens, the letters of each option are at one of these tokens, and
/// at a later one than those of the option before it.
pub fn option_letters_rise()
    ensures rise { (text : List ℕ) (tokens : List Piece) (tree : Item)
        → item_of (kinds_in text tokens) ≡ Some tree
        → AllPairs (λ a b. a < b) (letters_in tree) }
    ensures own { (text : List ℕ) (tokens : List Piece) (tree : Item)
        → item_of (kinds_in text tokens) ≡ Some tree
        → All (λ n. n < length tokens) (letters_in tree) }
{
    item_read();
    item_spelled();
}

/// In the tree that is read of tokens, the second token after a name whose subscript is an integer
/// alone is an integer.
pub fn subscripts_stand_second()
    ensures { (bytes : ℕ → List ℕ) (text : List ℕ) (tokens : List Piece) (tree : Item)
        → item_of (kinds_in text tokens) ≡ Some tree
        → All (λ o. is_indexed o.what ≡ true
        → slice_get (kinds_in text tokens) (o.token + 2) ≡ Some Kind.Integer)
        (occurrences bytes tree) }
{
    item_read();
    item_spelled();
}

/// In the tree that is read of tokens no rule is told twice at one token, whatever the other items
/// say.
pub fn each_finding_once()
    ensures { (bytes : ℕ → List ℕ) (outer : List ℕ → Option Outer)
        (misses : List ℕ → Bool) (text : List ℕ) (tokens : List Piece) (tree : Item)
        → item_of (kinds_in text tokens) ≡ Some tree
        → AllPairs (λ a b. a ≢ b) (findings bytes outer misses (occurrences bytes tree)) }
{
    item_read();
    item_spelled();
}

/// What the rules find in an item has one of their codes.
pub fn findings_have_rule_codes()
    ensures { (bytes : ℕ → List ℕ) (outer : List ℕ → Option Outer)
        (misses : List ℕ → Bool) (found : List Occurrence)
        → All (λ f. is_rule_code f.code ≡ true) (findings bytes outer misses found) }
{}

/// A name is told as declared again only where it resolves to a declaration of the item.
pub fn repeated_names_resolve()
    ensures { (bytes : ℕ → List ℕ) (outer : List ℕ → Option Outer)
        (misses : List ℕ → Bool) (found : List Occurrence) (tokens : List ℕ)
        → All (IsApartFrom tokens) found
        → All (IsNoRepetitionAt tokens) (findings bytes outer misses found) }
{}

/// In the tree that is read of tokens each finding is at one of these tokens.
pub fn findings_stand_at_tokens()
    ensures { (bytes : ℕ → List ℕ) (outer : List ℕ → Option Outer)
        (misses : List ℕ → Bool) (text : List ℕ) (tokens : List Piece) (tree : Item)
        → item_of (kinds_in text tokens) ≡ Some tree
        → All (λ f. f.token < length tokens) (findings bytes outer misses (occurrences bytes tree)) }
{
    item_read();
    item_spelled();
}

/// What is found wrong goes by what the other items say of the names that an item uses and of those
/// of its targets alone.
pub fn same_answers_same_findings()
    ensures { (bytes : ℕ → List ℕ) (outer other : List ℕ → Option Outer)
        (misses missed : List ℕ → Bool) (found : List Occurrence)
        → All (λ n. outer (bytes n) ≡ other (bytes n)) (uses found)
        → All (λ n. misses (bytes n) ≡ missed (bytes n)) (targets found)
        → findings bytes outer misses found ≡ findings bytes other missed found }
{}
