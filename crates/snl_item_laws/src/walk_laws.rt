//! A walk over an item forgets nothing, and finds nothing else. A function here does nothing: its
//! contract is the law.

ghost use Rattle.std.specs.Prelude.{◌≡◌, ℕ, List};
ghost use Rattle.snl_lex.specs.declared.kind.Kind.{Kind};
ghost use Rattle.snl_grammar.specs.Grammar.Items.{IsItem};
ghost use Rattle.snl_grammar.specs.Spelling.Items.{spell_item};
ghost use Rattle.snl_grammar.specs.declared.tree.item.Item.{Item};
ghost use Rattle.snl_walk.specs.Items.{occurrences};
ghost use Rattle.snl_walk.specs.Uses.{targets, tokens_where};
ghost use Rattle.snl_item_laws.specs.Mentions.{is_change, is_jump, is_named, is_state, jumps, leaves_where, looked_up_in, names_in, places, states_in, transitions_in};

use snl_grammar::item_spelled;

/// Each token `break` or `continue` of an item is found as a jump, and nothing else is.
pub fn jumps_are_found()
    ensures { (bytes : ℕ → List ℕ) (kinds : List Kind) (tree : Item) → IsItem tree kinds
        → tokens_where (λ o. is_jump o.what) (occurrences bytes tree) ≡ places jumps kinds }
{
    item_spelled();
}

/// The word of each statement `state NAME;` of an item is found as a change of the state, and
/// nothing else is.
pub fn changes_are_found()
    ensures { (bytes : ℕ → List ℕ) (tree : Item) →
        tokens_where (λ o. is_change o.what) (occurrences bytes tree)
        ≡ leaves_where is_state (spell_item tree) }
{}

/// Each name in the parts of an item where names are looked up or declared is found as one, but for
/// the names of members, of types and of states. Nothing else is found as a name.
pub fn names_are_found()
    ensures { (bytes : ℕ → List ℕ) (tree : Item) →
        tokens_where (λ o. is_named o.what) (occurrences bytes tree)
        ≡ names_in (looked_up_in tree) }
{}

/// The targets of an item are the names directly after `state` in its transitions, also in their
/// blocks.
pub fn targets_are_found()
    ensures { (bytes : ℕ → List ℕ) (tree : Item)
        → targets (occurrences bytes tree) ≡ states_in (transitions_in tree) }
{}
