//! Whether an item in the place of another says what that one said, to the other items and, if it
//! is a state, in its conditions. In: what is kept of the two, and their tokens. Out: yes or no.
#![tactic(auto)]

ghost use Rattle.std.specs.Prelude.{◌≡◌, ◌↔◌, ◌<◌, [], All, IfOk, IsTrue, false, map, true};
ghost use Rattle.snl_lex.specs.Pieces.{LiesIn};
ghost use Rattle.snl_scope.specs.Linked.{faults_of};
ghost use Rattle.snl_scope.specs.Clauses.{is_event_flag};
ghost use Rattle.snl_scope.specs.Names.{has_own_scope};
ghost use Rattle.snl_moved.specs.ShiftedAround.{is_plain};
ghost use Rattle.snl_kept.specs.ItemPlan.{AreAlike};
ghost use Rattle.snl_kept.specs.ReplacedItem.{FlagsInHead, SparesInside, TakesPlace};

use crate::entries::Entry;
use crate::ways::one_item::replaced::OwnTokens;
use snl_cut::OutOfMemory;
use snl_facts::are_same_bytes;
use snl_item_check::{Checked, wakes_alike};
use snl_lex::TextEdit;
use snl_scope::{Declared, ItemKind, Links, NameRef, Outline, Role, SymbolKind};
use std::alloc::Global;

fn is_plain(kind: ItemKind) -> bool
    ensures { result ≡ is_plain kind }
{
    !matches!(
        kind,
        ItemKind::Header | ItemKind::SsBegin | ItemKind::Clause | ItemKind::OptionLine
    )
}

/// Whether two items are of one kind.
pub fn is_same_kind(one: ItemKind, other: ItemKind) -> bool
    ensures { IsTrue result → one ≡ other }
{
    one == other
}

// Whether an item has a scope of its own.
fn has_own_scope(role: Role) -> bool
    ensures { result ≡ has_own_scope role }
{
    matches!(role, Role::State)
}

// Whether a name that an item declares is no event flag, or among so many of its first tokens, and
// so is the item's own name, if it has a scope of its own.
fn is_placed(declared: &Declared, own_scope: bool, head: usize) -> bool
    ensures { IsTrue result → is_event_flag declared.now.variable.symbol_kind ≡ true
        → (declared.now.token < head) × (own_scope ≡ true → 1 < head) }
{
    !matches!(declared.variable.symbol_kind, SymbolKind::EventFlag)
        || (declared.token < head && (head > 1 || !own_scope))
}

// Whether all event flags that an item declares are among so many of its first tokens, and so is
// its name, if it has a scope of its own.
fn flags_in_head(outline: &Outline, head: usize) -> bool
    ensures { IsTrue result → FlagsInHead head outline.now }
{
    let own_scope = has_own_scope(outline.role);
    outline
        .declares
        .as_slice()
        .iter()
        .all(|declared| is_placed(declared, own_scope, head))
}

// Whether an item has clauses.
fn has_clauses(outline: &Outline) -> bool
    ensures { result ≡ false → outline.now.clauses ≡ [] }
{
    !outline.clauses.as_slice().is_empty()
}

/// Whether an item can take the place of one so that rows tell of it where they told of that one:
/// both are plain and have no clauses, and its event flags are among so many of its first tokens.
pub fn takes_place(was: &Entry, is: &Entry, head: usize) -> bool
    ensures { IsTrue result → TakesPlace head was.now is.now }
{
    let (was, is) = (&was.summary, &is.summary);
    is_plain(was.kind)
        && is_plain(is.kind)
        && flags_in_head(&was.outline, head)
        && !has_clauses(&was.outline)
        && !has_clauses(&is.outline)
}

/// Whether the links find nothing in an item past so many of its first tokens.
pub fn spares_inside(links: &Links, item: usize, head: usize) -> bool
    ensures { IsTrue result → SparesInside head item (faults_of links.now) }
{
    links
        .faults()
        .iter()
        .all(|fault| fault.item != item || fault.token < head)
}

// Whether two names are the same.
fn same_name(one: &NameRef, other: &NameRef) -> bool
    ensures { IsTrue result ↔ (one.now.name ≡ other.now.name) }
{
    are_same_bytes(one.name.bytes(), other.name.bytes())
}

// Whether as many names are the same, one by one.
fn same_names(ones: &[NameRef], others: &[NameRef]) -> bool
    ensures { IsTrue result → map (λ m. m.name) ones.now ≡ map (λ m. m.name) others.now }
{
    if ones.len() != others.len() {
        return false;
    }
    for (number, one) in ones.iter().enumerate() {
        if !same_name(one, &others[number]) {
            return false;
        }
    }
    true
}

// The most findings of an item, above which it isn't worth the search for each among the
// diagnostics.
const FEW: usize = 16;

/// Whether the check of an item found little.
pub fn found_little(check: &Option<Checked>) -> bool {
    match check {
        Some(checked) => checked.faults.len() <= FEW,
        None => true,
    }
}

/// Whether a state is of the kind of the one before it, leads where that one led, and says the same
/// in its conditions.
pub fn says_alike(
    alloc: Global,
    edit: &TextEdit,
    own: &OwnTokens,
    was: &Entry,
    check: &Option<Checked>,
    is: &Entry,
) -> Result<bool, OutOfMemory>
    requires was_within { All (LiesIn edit.now.old.now) own.now.was.items }
    requires is_within { All (LiesIn edit.now.text.now) own.now.is.items }
    ensures { IfOk result (λ alike. IsTrue alike → AreAlike edit.now.old.now edit.now.text.now own.now.was.items own.now.is.items was.now is.now check.now) }
{
    if !is_same_kind(is.summary.kind, was.summary.kind) {
        return Ok(false);
    }
    if !same_names(
        is.summary.targets.as_slice(),
        was.summary.targets.as_slice(),
    ) {
        return Ok(false);
    }
    let uses = match check {
        Some(checked) => checked.wake_uses.as_slice(),
        None => &[],
    };
    let alike = wakes_alike(
        alloc,
        edit.old,
        &own.was,
        uses,
        edit.text,
        &own.is,
        is.parsed.tree(),
    )?;
    Ok(alike)
}
