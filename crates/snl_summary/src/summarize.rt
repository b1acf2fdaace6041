//! The summary of an item: its tokens and its tree come in, what it says to the other items goes
//! out. It knows nothing of the other items.

ghost use Rattle.snl_summary.specs.Summaries.{kind_of, kind_of_tree, occurrences_in, opening_by_word, opening_in, outline_in, role_of, second_in, summary_in};
ghost use Rattle.snl_summary.specs.Summaries.Clauses.{clauses_in};
ghost use Rattle.snl_summary.specs.Summaries.Declares.{declared_in};
ghost use Rattle.snl_summary.specs.Summaries.Tokens.{name_ref_at};
ghost use Rattle.snl_walk.specs.Once.{once};
ghost use Rattle.snl_walk.specs.Tokens.{IsSource, bytes_in};
ghost use Rattle.snl_walk.specs.Uses.{targets, uses};
ghost use Rattle.std.specs.Prelude.{◌≡◌, IfOk, map, option_copied};

use crate::clauses_of::clauses_in;
use crate::declarations::declared_in;
use crate::name::Name;
use crate::summary::{
    Declared, ItemKind, NameRef, Opening, Outline, Role, Summary, VariableClause,
};
use crate::token_names::{name_refs, names_once};
use snl_cut::OutOfMemory;
use snl_grammar::tree::item::Item;
use snl_lex::{Class, Piece, token_text};
use snl_walk::{Occurrence, Source, occurrences, targets, uses};
use sqlite_items::Items;
use std::alloc::Global;

fn kind_of_tree(tree: &Item) -> ItemKind
    ensures { result ≡ kind_of_tree tree.now }
{
    match tree {
        Item::Header {
            name: _,
            parameters: _,
        } => ItemKind::Header,
        Item::Definition(_) => ItemKind::Declaration,
        Item::Foreign(_) => ItemKind::Foreign,
        Item::Clause(_) => ItemKind::Clause,
        Item::OptionLine(_) => ItemKind::OptionLine,
        Item::Entry(_) => ItemKind::Entry,
        Item::Exit(_) => ItemKind::Exit,
        Item::SsBegin { name: _ } => ItemKind::SsBegin,
        Item::SsEnd => ItemKind::SsEnd,
        Item::StateBlock {
            name: _,
            members: _,
        } => ItemKind::State,
        Item::Function(_) => ItemKind::Function,
        Item::StructDef {
            name: _,
            members: _,
        } => ItemKind::StructDef,
        Item::CBlock(_) => ItemKind::CBlock,
        Item::Empty => ItemKind::Empty,
    }
}

/// What an item is, by its tree. A faulty one has none.
pub fn kind_of(tree: Option<&Item>) -> ItemKind
    ensures { result ≡ kind_of (option_copied tree.entry) }
{
    match tree {
        None => ItemKind::Faulty,
        Some(tree) => kind_of_tree(tree),
    }
}

// What an item of a kind is to the others, where it is known whether it has declarations or
// clauses.
fn role_of(kind: ItemKind, has_some: bool) -> Role
    ensures { result ≡ role_of kind has_some }
{
    match kind {
        ItemKind::SsBegin => Role::SetBegin,
        ItemKind::SsEnd => Role::SetEnd,
        ItemKind::State => if has_some { Role::State } else { Role::Other },
        _ => Role::Other,
    }
}

fn opening_by_word(word: &[u8]) -> Opening
    ensures { result ≡ opening_by_word word.now }
{
    if word == b"program".as_slice() {
        Opening::Program
    } else if word == b"ss".as_slice() {
        Opening::Ss
    } else if word == b"state".as_slice() {
        Opening::State
    } else {
        Opening::Other
    }
}

// The word that an item begins with.
fn opening_of(source: &Source) -> Opening
    requires { IsSource source.now.text.now source.now.tokens.now }
    ensures { result ≡ opening_in source.now.text.now source.now.tokens.now }
{
    match source.tokens.get(0) {
        Some(first) => match first.kind {
            Class::Word => opening_by_word(token_text(source.text, *first)),
            _ => Opening::Other,
        },
        None => Opening::Other,
    }
}

// The second token, if that is a name.
fn second_of(source: &Source) -> Result<Option<Name>, OutOfMemory>
    requires { IsSource source.now.text.now source.now.tokens.now }
    ensures { IfOk result (λ name. name ≡ second_in source.now.text.now source.now.tokens.now) }
{
    match source.tokens.get(1) {
        Some(second) => match second.kind {
            Class::Name => Ok(Some(Name::new(source.alloc, token_text(source.text, *second))?)),
            _ => Ok(None),
        },
        None => Ok(None),
    }
}

// What is found in the item; in a faulty one nothing is.
fn occurrences_in(source: &Source, tree: Option<&Item>) -> Result<Vec<Occurrence>, OutOfMemory>
    requires { IsSource source.now.text.now source.now.tokens.now }
    ensures { IfOk result
        (λ v. v.items ≡ occurrences_in (bytes_in source.now) (option_copied tree.entry)) }
{
    match tree {
        Some(tree) => occurrences(source, tree),
        None => Ok(Vec::new(source.alloc)),
    }
}

// The names that the item uses, each once.
fn used_names(source: &Source, found: &[Occurrence]) -> Result<Items<Name>, OutOfMemory>
    requires { IsSource source.now.text.now source.now.tokens.now }
    ensures { IfOk result (λ names. names ≡ once (map (bytes_in source.now) (uses found.now))) }
{
    names_once(source, &uses(source.alloc, found)?)
}

// The states that the item leads to.
fn target_names(source: &Source, found: &[Occurrence]) -> Result<Items<NameRef>, OutOfMemory>
    requires { IsSource source.now.text.now source.now.tokens.now }
    ensures { IfOk result (λ m. m
        ≡ map (name_ref_at source.now.text.now source.now.tokens.now) (targets found.now)) }
{
    name_refs(source, &targets(source.alloc, found)?)
}

// The names that the item uses, and the states that it leads to.
fn asked_names(
    source: &Source,
    tree: Option<&Item>,
) -> Result<(Items<Name>, Items<NameRef>), OutOfMemory>
    requires { IsSource source.now.text.now source.now.tokens.now }
    ensures uses { IfOk result (λ asked. asked.0 ≡ once (map (bytes_in source.now)
        (uses (occurrences_in (bytes_in source.now) (option_copied tree.entry))))) }
    ensures targets { IfOk result
        (λ asked. asked.1 ≡ map (name_ref_at source.now.text.now source.now.tokens.now)
        (targets (occurrences_in (bytes_in source.now) (option_copied tree.entry)))) }
{
    let found = occurrences_in(source, tree)?;
    let uses = used_names(source, &found)?;
    let targets = target_names(source, &found)?;
    Ok((uses, targets))
}

fn listed_names(source: &Source, tree: Option<&Item>) -> Result<Items<Declared>, OutOfMemory>
    requires { IsSource source.now.text.now source.now.tokens.now }
    ensures { IfOk result (λ all. all
        ≡ declared_in source.now.text.now source.now.tokens.now (option_copied tree.entry)) }
{
    Ok(Items::from_vec(declared_in(source, tree)?))
}

fn listed_clauses(
    source: &Source,
    tree: Option<&Item>,
) -> Result<Items<VariableClause>, OutOfMemory>
    requires { IsSource source.now.text.now source.now.tokens.now }
    ensures { IfOk result (λ all. all
        ≡ clauses_in source.now.text.now source.now.tokens.now (option_copied tree.entry)) }
{
    Ok(Items::from_vec(clauses_in(source, tree)?))
}

// What the item says to the others.
fn outline_of(source: &Source, tree: Option<&Item>) -> Result<Outline, OutOfMemory>
    requires { IsSource source.now.text.now source.now.tokens.now }
    ensures { IfOk result (λ outline. outline
        ≡ outline_in source.now.text.now source.now.tokens.now (option_copied tree.entry)) }
{
    let second = second_of(source)?;
    let declares = listed_names(source, tree)?;
    let clauses = listed_clauses(source, tree)?;
    let has_some = 0 < declares.len() || 0 < clauses.len();
    Ok(Outline {
        declares,
        clauses,
        second,
        role: role_of(kind_of(tree), has_some),
        opening: opening_of(source),
    })
}

/// The summary of the item that consists of these tokens, of which each lies in the text. `tree` is
/// the item's tree; an item without one is faulty, and declares and uses nothing.
pub fn summary_of(
    alloc: Global,
    text: &[u8],
    tokens: &[Piece],
    tree: Option<&Item>,
) -> Result<Summary, OutOfMemory>
    requires { IsSource text.now tokens.now }
    ensures { IfOk result
        (λ summary. summary ≡ summary_in text.now tokens.now (option_copied tree.entry)) }
{
    let source = Source {
        text,
        tokens,
        alloc,
    };
    let outline = outline_of(&source, tree)?;
    let (uses, targets) = asked_names(&source, tree)?;
    Ok(Summary {
        kind: kind_of(tree),
        outline,
        uses,
        targets,
    })
}
