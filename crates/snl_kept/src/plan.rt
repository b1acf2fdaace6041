//! The plan of an edit: what it makes anew of all that is kept, before anything is changed. What
//! the edit makes of the parts of the text comes first; then what becomes of the links, the checks
//! and the rows; then the plans of the two ways that make something anew. It knows nothing of how a
//! plan is made.
#![tactic(auto)]

ghost use Rattle.std.specs.Prelude.{◌≡◌, IsTrue};
ghost use Rattle.snl_scope.specs.Linked.{faults_of};
ghost use Rattle.snl_scope.specs.LinkedItems.{LinkedItems};
ghost use Rattle.snl_kept.specs.NewLinks.{HasFaults, links_now};
ghost use Rattle.snl_kept.specs.OwnRows.{with_row};
ghost use Rattle.snl_kept.specs.Planned.{work_of};

use crate::entries::Entry;
use crate::found::findings::{Diagnostic, Finding};
use crate::shared::Shared;
use crate::work::Work;
use snl_check::{StateBody, StateMark, Tables, WakeUp};
use snl_item_check::Checked;
use snl_items::{ItemChange, TokenChange};
use snl_lex::{LineShift, PieceChange, PieceList};
use snl_scope::{ItemKind, LinkFault, Links};
use sqlite_items::Items;

/// What an edit makes of the pieces, the tokens and the items.
pub struct Changes {
    pub pieces: PieceChange,
    pub tokens: TokenChange,
    pub items: ItemChange,
}

// By hand, so that whoever holds it need not know what is in it to let it go.
impl Drop for Changes {
    fn drop(self) {
        let Changes {
            pieces: _,
            tokens: _,
            items: _,
        } = self;
    }
}

impl Changes {
    /// What the edit makes of the pieces, of the tokens and of the items, apart.
    pub fn parts(self) -> (PieceChange, TokenChange, ItemChange)
        ensures pieces { result.0 ≡ self.pieces }
        ensures tokens { result.1 ≡ self.tokens }
        ensures items { result.2 ≡ self.items }
    {
        let Changes {
            pieces,
            tokens,
            items,
        } = self;
        (pieces, tokens, items)
    }
}

/// Other kinds of the items, and what the links find where the items are of these kinds.
#[derive(Drop)]
pub struct NewKinds {
    pub kinds: Vec<ItemKind>,
    pub faults: Vec<LinkFault>,
}

/// What an edit makes of the links.
pub enum NewLinks {
    /// The links stay as they are.
    Same,
    /// Names mean what they meant.
    Kinds(NewKinds),
    Other(Links),
}

// By hand, so that whoever holds them need not know what is in them to let them go.
impl Drop for NewLinks {
    fn drop(self) {
        match self {
            NewLinks::Same => {}
            NewLinks::Kinds(_) => {}
            NewLinks::Other(_) => {}
        }
    }
}

impl NewLinks {
    /// Whether names mean what they meant.
    pub fn keeps_names(&self) -> bool
        ensures { (l : LinkedItems) → IsTrue result → (links_now l self.now).outlines ≡ l.outlines }
    {
        !matches!(self, NewLinks::Other(_))
    }

    /// What names mean after the edit, where these are the links before it.
    pub fn after<'a>(&'a self, before: &'a Links) -> &'a Links
        ensures { result.now.outlines ≡ (links_now before.now self.now).outlines }
    {
        match self {
            NewLinks::Same => before,
            NewLinks::Kinds(_) => before,
            NewLinks::Other(links) => links,
        }
    }

    /// What the links find after the edit, where these are the links before it.
    pub fn faults<'a>(&'a self, before: &'a Links) -> &'a [LinkFault]
        requires { HasFaults before.now self.now }
        ensures { result.now ≡ faults_of (links_now before.now self.now) }
    {
        match self {
            NewLinks::Same => before.faults(),
            NewLinks::Kinds(new) => &new.faults,
            NewLinks::Other(links) => links.faults(),
        }
    }

    /// What each item is after the edit, where these are the links before it.
    pub fn kinds<'a>(&'a self, before: &'a Links) -> &'a [ItemKind]
        ensures { result.now ≡ (links_now before.now self.now).kinds }
    {
        match self {
            NewLinks::Same => before.kinds(),
            NewLinks::Kinds(new) => &new.kinds,
            NewLinks::Other(links) => links.kinds(),
        }
    }

    /// Puts the links after the edit in the place of those before it.
    pub fn put_in(self, links: &mut Links)
        requires { HasFaults links.old self }
        ensures { links.new ≡ links_now links.old self }
    {
        match self {
            NewLinks::Same => {}
            NewLinks::Kinds(new) => {
                let NewKinds { kinds, faults } = new;
                links.set_kinds(kinds, faults);
            }
            NewLinks::Other(new) => *links = new,
        }
    }
}

/// A check that an edit makes, of the item with this number.
#[derive(Drop)]
pub struct NewCheck {
    pub item: usize,
    /// There is always one; it is held as its place holds it.
    pub check: Shared<Option<Checked>>,
}

/// The checks that an edit makes, and places for those of the items that it makes.
#[derive(Drop)]
pub struct NewChecks {
    pub vacant: Vec<Shared<Option<Checked>>>,
    pub made: Vec<NewCheck>,
}

/// What an edit makes of the links and the checks.
pub struct LinksAndChecks {
    pub links: NewLinks,
    pub checks: NewChecks,
}

// By hand, so that whoever holds it need not know what is in it to let it go.
impl Drop for LinksAndChecks {
    fn drop(self) {
        let LinksAndChecks {
            links: _,
            checks: _,
        } = self;
    }
}

impl LinksAndChecks {
    /// Both apart.
    pub fn parts(self) -> (NewLinks, NewChecks)
        ensures links { result.0 ≡ self.links }
        ensures checks { result.1 ≡ self.checks }
    {
        let LinksAndChecks { links, checks } = self;
        (links, checks)
    }
}

/// What an edit makes of all that is kept of the items: what is kept of those that are made, the
/// links and the checks, and whether warnings are shown.
#[derive(Drop)]
pub struct ItemsPlan {
    pub made: Vec<Shared<Entry>>,
    pub kept: LinksAndChecks,
    pub warns: bool,
}

/// Where a state has its row: the number of its set among the state sets, and its own number among
/// the states of the set.
#[derive(Clone, Copy)]
pub struct RowPlace {
    pub set: usize,
    pub state: usize,
}

/// What an edit inside an item changes in the rows, besides their shift.
pub enum RowChange {
    Nothing,
    /// The body of a state that leads where it led and says the same in its conditions, if by
    /// another name.
    Body {
        place: RowPlace,
        body: StateBody,
    },
    /// The row of a state, and the marks of the states of its set.
    State {
        place: RowPlace,
        body: StateBody,
        wake: Items<WakeUp>,
        marks: Items<StateMark>,
    },
    /// The marks of the states of a set, by its number among the sets, of which an item that is no
    /// state turned faulty or sound.
    Marks {
        set: usize,
        marks: Items<StateMark>,
    },
}

// By hand, so that whoever holds it need not know what is in it to let it go.
impl Drop for RowChange {
    fn drop(self) {
        match self {
            RowChange::Nothing => {}
            RowChange::Body { place: _, body: _ } => {}
            RowChange::State {
                place: _,
                body: _,
                wake: _,
                marks: _,
            } => {}
            RowChange::Marks { set: _, marks: _ } => {}
        }
    }
}

impl RowChange {
    /// Puts what changes in its place. It takes no memory and can't fail.
    pub fn put_in(self, tables: &mut Tables)
        ensures { tables.new ≡ with_row tables.old self }
    {
        match self {
            RowChange::Nothing => {}
            RowChange::Body { place, body } => tables.set_body(place.set, place.state, body),
            RowChange::State {
                place,
                body,
                wake,
                marks,
            } => {
                tables.set_body(place.set, place.state, body);
                tables.set_wake(place.set, place.state, wake);
                tables.set_marks(place.set, marks.as_slice());
            }
            RowChange::Marks { set, marks } => tables.set_marks(set, marks.as_slice()),
        }
    }
}

/// What an edit makes anew on the whole way: what is made of all that is kept of the items, what is
/// shown of what is found in the new text, in order, its tables, and the cost; and the pieces of
/// the new text, unless the edit makes all of them.
#[derive(Drop)]
pub struct WholePlan {
    pub items: ItemsPlan,
    pub findings: Vec<Finding>,
    pub tables: Tables,
    pub work: Work,
    pub pieces: Option<PieceList>,
}

/// What an edit inside one item makes anew: what is made of all that is kept of the items, the
/// diagnostics, how the rows are shifted and what changes in them, and the cost.
#[derive(Drop)]
pub struct ItemPlan {
    pub items: ItemsPlan,
    pub diagnostics: Vec<Diagnostic>,
    pub shift: LineShift,
    pub change: RowChange,
    pub work: Work,
}

/// What is made anew by an edit that changes what some item says.
#[derive(Drop)]
pub enum Plan {
    Item(ItemPlan),
    Whole(WholePlan),
}

impl Plan {
    /// What the edit costs.
    pub fn work(&self) -> Work
        ensures { result ≡ work_of self.now }
    {
        match self {
            Plan::Item(plan) => plan.work,
            Plan::Whole(plan) => plan.work,
        }
    }
}
