//! What an item sees of the other items.

ghost use Rattle.std.specs.Prelude.{◌≡◌};
ghost use Rattle.snl_item_check.specs.View.{is_assigned, is_foreign, may_be_flag, outer_of};

use snl_scope::{Assigned, Fact, Links, NameKind};
use snl_walk::{OtherItems, Outer};

fn is_foreign(kind: NameKind) -> bool
    ensures { result ≡ is_foreign kind }
{
    matches!(kind, NameKind::Foreign)
}

fn may_be_flag(kind: NameKind) -> bool
    ensures { result ≡ may_be_flag kind }
{
    matches!(kind, NameKind::EventFlag | NameKind::Foreign)
}

fn is_assigned(assigned: Assigned) -> bool
    ensures { result ≡ is_assigned assigned }
{
    match assigned {
        Assigned::Unassigned => false,
        Assigned::Whole | Assigned::Elements => true,
    }
}

// What a name passes for of which this is known.
fn outer_of(fact: Fact) -> Outer
    ensures { result ≡ outer_of fact }
{
    Outer {
        flag: may_be_flag(fact.kind),
        channel: is_assigned(fact.assigned) || is_foreign(fact.kind),
    }
}

/// What an item sees of the other items: the item is its number among those that are linked.
#[derive(Clone, Copy)]
pub struct View<'a> {
    pub links: &'a Links,
    pub item: usize,
}

impl View<'_> {
    ghost use Rattle.snl_item_check.specs.View.{is_in_set, known_of, leads_to};

    /// Whether the item is in a state set.
    #[tactic(auto, unfolding(crate::specs::View::is_in_set))]
    pub fn is_in_set(&self) -> bool
        ensures { result ≡ is_in_set self.now.links.now.outlines self.now.item }
    {
        self.links.enclosing_set(self.item).is_some()
    }

    // What a name means by the scopes outside the item.
    #[tactic(auto, unfolding(crate::specs::View::known_of))]
    fn fact(&self, name: &[u8]) -> Option<Fact>
        ensures { result ≡ known_of self.now.links.now.outlines self.now.item name.now }
    {
        self.links.fact(self.item, name)
    }

    // Whether the item's state set has a state of the name.
    #[tactic(auto, unfolding(crate::specs::View::leads_to))]
    fn leads_to(&self, name: &[u8]) -> bool
        ensures { result ≡ leads_to self.now.links.now.outlines self.now.item name.now }
    {
        self.links.has_target(self.item, name)
    }
}

impl OtherItems for View<'_> {
    ghost use Rattle.snl_item_check.specs.View.{is_in_set, known_of, leads_to, misses_by, outer_by};

    ghost outer_of = { λ v. outer_by (known_of v.links.now.outlines v.item) };

    ghost misses = { λ v. misses_by (is_in_set v.links.now.outlines v.item) (leads_to v.links.now.outlines v.item) };

    fn outer(&self, name: &[u8]) -> Option<Outer> {
        match self.fact(name) {
            Some(fact) => Some(outer_of(fact)),
            None => None,
        }
    }

    fn misses_state(&self, name: &[u8]) -> bool {
        self.is_in_set() && !self.leads_to(name)
    }
}
