//! The body of the row of a state: its tokens, its tree, its line and the links come in, its name,
//! its options, where its transitions lead and which states its statements name go out. It knows no
//! other items.

ghost use Rattle.std.specs.Prelude.{◌≡◌, IfOk, map, option_copied, slice_get};
ghost use Rattle.std.specs.List.{flat_map};
ghost use Rattle.snl_lex.specs.Lines.{line_at};
ghost use Rattle.snl_walk.specs.Tokens.{IsSource};
ghost use Rattle.snl_check.specs.ItemTokens.{own_tokens};
ghost use Rattle.snl_check.specs.ItemSpans as spans;
ghost use Rattle.snl_check.specs.States as states;
ghost use Rattle.snl_item_check.specs.Told.{told_in_item};

use crate::rows::item_source::ItemSource;
use crate::rows::option_rows::state_options;
use snl_cut::OutOfMemory;
use snl_grammar::tree::item::Item;
use snl_grammar::tree::state::{StateMember, Target};
use snl_items::TokenList;
use snl_lex::Line;
use snl_scope::Links;
use snl_tables::{Destination, NamedState, Rows, StateBody};
use snl_walk::{Source, TargetUse};
use sqlite_items::Items;

// A state that an item names at a token.
fn named_state(source: &ItemSource, links: &Links, item: usize, token: usize) -> NamedState
    requires { IsSource source.now.text.now (own_tokens source.now) }
    ensures { result
        ≡ states.named_state source.now.text.now (own_tokens source.now)
        links.now.outlines item token }
{
    NamedState {
        name: source.span(token),
        is_known: links.has_target(item, source.bytes(token)),
    }
}

fn destination(source: &ItemSource, links: &Links, item: usize, target: Target) -> Destination
    requires { IsSource source.now.text.now (own_tokens source.now) }
    ensures { result
        ≡ states.destination source.now.text.now (own_tokens source.now)
        links.now.outlines item target }
{
    match target {
        Target::State(name) => Destination::State(named_state(source, links, item, name)),
        Target::Exit => Destination::Exit,
    }
}

// Where the transitions of a state lead.
fn destinations(
    source: &ItemSource,
    links: &Links,
    item: usize,
    members: &[StateMember],
) -> Result<Vec<Destination>, OutOfMemory>
    requires { IsSource source.now.text.now (own_tokens source.now) }
    ensures { IfOk result (λ v. v.items
        ≡ flat_map (states.destinations_in_member source.now.text.now (own_tokens source.now)
        links.now.outlines item) members.now) }
{
    let mut destinations = Vec::new(source.alloc);
    for member in members {
        if let StateMember::When(transition) = member {
            destinations.push(destination(source, links, item, transition.target))?;
        }
    }
    Ok(destinations)
}

// The states that statements in the transitions of a state name.
fn gotos(
    source: &ItemSource,
    links: &Links,
    item: usize,
    targets: &[TargetUse],
) -> Result<Vec<NamedState>, OutOfMemory>
    requires { IsSource source.now.text.now (own_tokens source.now) }
    ensures { IfOk result (λ v. v.items
        ≡ map (states.named_state source.now.text.now (own_tokens source.now) links.now.outlines item)
        (states.by_statements targets.now)) }
{
    let mut gotos = Vec::new(source.alloc);
    for target in targets {
        if target.by_statement {
            gotos.push(named_state(source, links, item, target.token))?;
        }
    }
    Ok(gotos)
}

fn members_in<'a>(tree: Option<&'a Item>) -> &'a [StateMember]
    ensures { result.now ≡ states.members_in (option_copied tree.entry) }
{
    match tree {
        Some(Item::StateBlock { name: _, members }) => members.as_slice(),
        _ => &[],
    }
}

// The body of the row of a state, by its tokens.
pub(crate) fn body_of(
    source: &ItemSource,
    tree: Option<&Item>,
    links: &Links,
    item: usize,
    targets: &[TargetUse],
    line: Line,
) -> Result<StateBody, OutOfMemory>
    requires source { IsSource source.now.text.now (own_tokens source.now) }
    requires targets { targets.now
        ≡ (told_in_item source.now.text.now
        (record { tokens = (own_tokens source.now); tree = option_copied tree })).target_uses }
    requires line { line
        ≡ line_at source.now.text.now (spans.span_of (slice_get (own_tokens source.now) 0)).start }
    ensures body { IfOk result (λ body. body
        ≡ states.state_body source.now.text.now links.now.outlines item
        (record { tokens = (own_tokens source.now); tree = option_copied tree.entry })) }
{
    let members = members_in(tree);
    Ok(StateBody {
        name: source.span(1),
        line,
        options: Items::from_vec(state_options(source, members)?),
        transitions: Rows::from_vec(destinations(source, links, item, members)?),
        gotos: Rows::from_vec(gotos(source, links, item, targets)?),
    })
}

/// The body of the row of the state that consists of these tokens, of which each lies in the text,
/// and has this number among the linked items. A faulty state has no tree. `targets` are the names
/// of states that its check told, and `line` is that of its first token.
pub fn state_body(
    source: &Source,
    tree: Option<&Item>,
    links: &Links,
    item: usize,
    targets: &[TargetUse],
    line: Line,
) -> Result<StateBody, OutOfMemory>
    requires source { IsSource source.now.text.now source.now.tokens.now }
    requires targets { targets.now
        ≡ (told_in_item source.now.text.now
        (record { tokens = source.now.tokens.now; tree = option_copied tree })).target_uses }
    requires line { line
        ≡ line_at source.now.text.now (spans.span_of (slice_get source.now.tokens.now 0)).start }
    ensures body { IfOk result (λ body. body
        ≡ states.state_body source.now.text.now links.now.outlines item
        (record { tokens = source.now.tokens.now; tree = option_copied tree.entry })) }
{
    let tokens = TokenList::listed(source.tokens);
    let own = ItemSource::of(source.text, &tokens, source.alloc);
    body_of(&own, tree, links, item, targets, line)
}
