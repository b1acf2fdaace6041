//! What the name at a token of an item means. In: what names mean among the items, what is kept of
//! the item, and the token's number in it. Out: the place of the name that declares it, and the
//! number of the declaration at a place.

ghost use Rattle.std.specs.Prelude.{◌≡◌, IfOk, option_copied};
ghost use Rattle.snl_summary.specs.Summaries.{occurrences_in};
ghost use Rattle.snl_walk.specs.Tokens.{IsSource, bytes_in};
ghost use Rattle.snl_questions.specs.Meanings.{clause_names, clauses_name, declaration_named};
ghost use Rattle.snl_questions.specs.Meanings.{declares_at, is_flag_at, is_name_of, meant_as_own_name};
ghost use Rattle.snl_questions.specs.Meanings.{meant_by_local, meant_by_occurrence, meant_by_outline};
ghost use Rattle.snl_questions.specs.Meanings.{meant_in, meant_inside, meant_outside, name_of_item};
ghost use Rattle.snl_questions.specs.Meanings.{number_at, number_if_at, occurrence_at, outline_names};
ghost use Rattle.snl_questions.specs.Meanings.{place_of, state_named};

use crate::meanings::items::TokenPlace;
use snl_cut::OutOfMemory;
use snl_grammar::tree::item::Item;
use snl_scope::{Declaration, Links, NameRef, Outline, VariableClause};
use snl_walk::{Local, Occurrence, Source, What, occurrences};

/// The item of a name, by its number among those that are linked.
#[derive(Clone, Copy)]
pub struct LinkedItem<'a> {
    pub links: &'a Links,
    pub item: usize,
}

fn name_of_item(item: usize) -> TokenPlace
    ensures { result ≡ name_of_item item }
{
    TokenPlace { item, token: 1 }
}

/// The place of a declaration's name.
pub fn place_of(declaration: Declaration) -> TokenPlace
    ensures { result ≡ place_of declaration }
{
    TokenPlace {
        item: declaration.item,
        token: declaration.token,
    }
}

// The number of a declaration, if its name is a token of an item.
fn number_if_at(item: usize, token: usize, number: usize, found: Declaration) -> Option<usize>
    ensures { result ≡ number_if_at item token number found }
{
    if found.item == item && found.token == token {
        Some(number)
    } else {
        None
    }
}

impl LinkedItem<'_> {
    // The first state of the name in the item's state set.
    fn state_named(&self, name: &[u8]) -> Option<TokenPlace>
        ensures { result ≡ state_named self.now.links.now.outlines self.now.item name.now }
    {
        let state = self.links.state(self.item, name)?;
        Some(name_of_item(state))
    }

    /// The declaration that a name outside the item's blocks means.
    pub fn declaration_named(&self, name: &[u8]) -> Option<TokenPlace>
        ensures { result ≡ declaration_named self.now.links.now.outlines self.now.item name.now }
    {
        let number = self.links.declaration(self.item, name)?;
        let declaration = self.links.declared(number)?;
        Some(place_of(declaration))
    }

    /// The number of the declaration whose name is a token of the item and has these bytes. What a
    /// block declares has none.
    pub fn number_at(&self, token: usize, name: &[u8]) -> Option<usize>
        ensures { result ≡ number_at self.now.links.now.outlines self.now.item token name.now }
    {
        let visible = self.links.declaration(self.item, name)?;
        number_if_at(self.item, token, visible, self.links.declared(visible)?)
    }

    // Whether the token is the name of a state set or of a state, which the item is.
    fn is_name_of(&self, token: usize) -> bool
        ensures { result ≡ is_name_of self.now.links.now.outlines self.now.item token }
    {
        token == 1 && (self.links.begins_set(self.item) || self.links.is_named_state(self.item))
    }

    /// The token itself, where it is the name of a state set or of a state, which the item is.
    pub fn meant_as_own_name(&self, token: usize) -> Option<TokenPlace>
        ensures { result ≡ meant_as_own_name self.now.links.now.outlines self.now.item token }
    {
        if self.is_name_of(token) {
            Some(TokenPlace {
                item: self.item,
                token,
            })
        } else {
            None
        }
    }

    // What a name means that is no local one, by what is at its token.
    fn meant_outside(&self, name: &[u8], what: What) -> Option<TokenPlace>
        ensures { result ≡ meant_outside self.now.links.now.outlines self.now.item name.now what }
    {
        match what {
            What::Target => self.state_named(name),
            What::Name(_) => self.declaration_named(name),
            What::Declaration { .. } | What::Jump { .. } | What::Change { .. } => None,
        }
    }

    fn meant_by_local(&self, name: &[u8], what: What, means: Option<Local>) -> Option<TokenPlace>
        ensures { result
            ≡ meant_by_local self.now.links.now.outlines self.now.item name.now what means }
    {
        match means {
            Some(local) => Some(TokenPlace {
                item: self.item,
                token: local.token,
            }),
            None => self.meant_outside(name, what),
        }
    }

    /// What an occurrence means of which this is the name.
    pub fn meant_by_occurrence(&self, name: &[u8], found: Occurrence) -> Option<TokenPlace>
        ensures { result
            ≡ meant_by_occurrence self.now.links.now.outlines self.now.item name.now found }
    {
        self.meant_by_local(name, found.what, found.means)
    }

    // What a name at a token means by the occurrence there.
    fn meant_inside(&self, name: &[u8], found: &[Occurrence], token: usize) -> Option<TokenPlace>
        ensures { result
            ≡ meant_inside self.now.links.now.outlines self.now.item name.now found.now token }
    {
        let occurrence = occurrence_at(found, token)?;
        self.meant_by_occurrence(name, occurrence)
    }

    // What a name at a token means of which the item's outline speaks.
    fn meant_by_outline(&self, name: &[u8], outline: &Outline, token: usize) -> Option<TokenPlace>
        ensures { result
            ≡ meant_by_outline self.now.links.now.outlines self.now.item name.now outline.now
            token }
    {
        if outline_names(outline, token) {
            self.declaration_named(name)
        } else {
            None
        }
    }
}

fn is_flag_at(token: usize, flag: &Option<NameRef>) -> bool
    ensures { result ≡ is_flag_at token flag.now }
{
    match flag {
        Some(flag) => flag.token == token,
        None => false,
    }
}

fn clause_names(token: usize, clause: &VariableClause) -> bool
    ensures { result ≡ clause_names token clause.now }
{
    clause.variable.token == token || is_flag_at(token, &clause.flag)
}

// Whether the item declares a name at the token.
fn declares_at(outline: &Outline, token: usize) -> bool
    ensures { result ≡ declares_at outline.now token }
{
    let declares = outline.declares.as_slice();
    declares.iter().any(|declared| declared.token == token)
}

// Whether a clause of the item has a name at the token.
fn clauses_name(outline: &Outline, token: usize) -> bool
    ensures { result ≡ clauses_name outline.now token }
{
    let clauses = outline.clauses.as_slice();
    clauses.iter().any(|clause| clause_names(token, clause))
}

fn outline_names(outline: &Outline, token: usize) -> bool
    ensures { result ≡ outline_names outline.now token }
{
    declares_at(outline, token) || clauses_name(outline, token)
}

// The occurrence at a token.
fn occurrence_at(found: &[Occurrence], token: usize) -> Option<Occurrence>
    ensures { result ≡ occurrence_at found.now token }
{
    found.iter().copied().find(|one| one.token == token)
}

/// What is found in an item; in a faulty one nothing is.
pub fn occurrences_in(source: &Source, tree: Option<&Item>) -> Result<Vec<Occurrence>, OutOfMemory>
    requires { IsSource source.now.text.now source.now.tokens.now }
    ensures { IfOk
        result
        (λ v. v.items ≡ occurrences_in (bytes_in source.now) (option_copied tree.entry)) }
{
    match tree {
        Some(tree) => occurrences(source, tree),
        None => Ok(Vec::new(source.alloc)),
    }
}

/// What the name at a token means, if it means something.
pub fn meant_in(
    linked: &LinkedItem,
    source: &Source,
    tree: Option<&Item>,
    outline: &Outline,
    token: usize,
) -> Result<Option<TokenPlace>, OutOfMemory>
    requires { IsSource source.now.text.now source.now.tokens.now }
    ensures { IfOk
        result
        (λ m. m ≡ meant_in linked.now.links.now.outlines linked.now.item (bytes_in source.now)
        (option_copied tree.entry) outline.now token) }
{
    if let Some(own) = linked.meant_as_own_name(token) {
        return Ok(Some(own));
    }
    let found = occurrences_in(source, tree)?;
    let name = source.bytes(token);
    if let Some(meant) = linked.meant_inside(name, &found, token) {
        return Ok(Some(meant));
    }
    Ok(linked.meant_by_outline(name, outline, token))
}
