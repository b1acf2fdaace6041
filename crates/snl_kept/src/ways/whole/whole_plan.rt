//! The plan of an edit after which all that the text says is told anew. The edit under way comes
//! in, the plan goes out.
#![tactic(auto)]

ghost use Rattle.std.specs.Prelude.{◌≡◌, IfOk, IsTrue, length};
ghost use Rattle.snl_cut.specs.Cut.{after_ticks};
ghost use Rattle.snl_items.specs.declared.item_list.ItemChange.{ItemChange};
ghost use Rattle.snl_lex.specs.Edit.{Edit, made_pieces};
ghost use Rattle.snl_lex.specs.Pieces.{pieces_of, tokens_of};
ghost use Rattle.snl_kept.specs.Editing.{AreEntriesIn, IsUnderWay, edit_in, items_in, parsed_in, text_in};
ghost use Rattle.snl_kept.specs.Planned.{ArePieces, IsWholePlan};

use crate::editing::Editing;
use crate::entries::{Entry, entries_along};
use crate::found::program::items_end_in_order;
use crate::plan::{ItemsPlan, WholePlan};
use crate::shared::Shared;
use crate::ways::whole::rejudge::rejudge;
use crate::work::Work;
use snl_cut::{Count, OutOfMemory};
use snl_items::{TokenList, few_pieces, pieces_after};
use snl_lex::{PieceList, TextEdit, pieces_as_listed, text_in_pieces};
use std::alloc::Global;

// What is kept of the fresh items, among all tokens of the new text. Each is parsed once.
fn made_entries(
    alloc: Global,
    editing: &Editing,
    tokens: &TokenList,
    work: &mut Count,
) -> Result<Vec<Shared<Entry>>, OutOfMemory>
    requires editing { IsUnderWay editing.now }
    requires tokens { tokens.now ≡ tokens_of (text_in editing.now) }
    ensures made { IfOk result (λ es. AreEntriesIn editing.now es.items) }
    ensures ticks { IfOk result (λ es. work.new ≡ after_ticks work.old (length (items_in editing.now).made.items)) }
{
    text_in_pieces();
    items_end_in_order();
    let items = &editing.changes.items;
    let from = editing.lists.items.start_of(items.kept_front);
    let ends = &items.made;
    let made = entries_along(alloc, editing.edit.text, tokens, from, ends, work)?;
    Ok(made)
}

// The plan by the tokens of the new text and what is kept of the fresh items, where so many were
// parsed and none was checked yet.
fn whole_plan(
    alloc: Global,
    editing: &Editing,
    tokens: &TokenList,
    made: Vec<Shared<Entry>>,
    parsed: u64,
    checked: &mut Count,
) -> Result<WholePlan, OutOfMemory>
    requires editing { IsUnderWay editing.now }
    requires tokens { tokens.now ≡ tokens_of (text_in editing.now) }
    requires made { AreEntriesIn editing.now made.items }
    requires parsed { parsed ≡ parsed_in editing.now }
    requires checked { checked.old ≡ 0 }
    ensures { IfOk result (IsWholePlan (edit_in editing.now) (items_in editing.now)) }
{
    let retold = rejudge(alloc, editing, tokens, &made, checked)?;
    Ok(WholePlan {
        items: ItemsPlan {
            made,
            kept: retold.kept,
            warns: retold.told.warns,
        },
        findings: retold.told.shown,
        tables: retold.told.tables,
        work: Work {
            lexed: editing.lexed,
            parsed,
            checked: checked.ticks(),
        },
        pieces: None,
    })
}

// Whether an edit makes all pieces of the new text, as the first one of a text does.
fn makes_all(editing: &Editing) -> bool
    requires editing { IsUnderWay editing.now }
    ensures { IsTrue result → made_pieces editing.now.changes.now.pieces ≡ pieces_of (text_in editing.now) }
{
    let pieces = &editing.changes.pieces;
    pieces.kept_front == 0 && pieces.kept_back == 0
}

// The pieces of the new text, as a list of its own.
fn new_pieces(alloc: Global, editing: &Editing) -> Result<PieceList, OutOfMemory>
    requires editing { IsUnderWay editing.now }
    ensures { IfOk result (ArePieces (text_in editing.now)) }
{
    let changes = editing.changes;
    pieces_after(alloc, &editing.lists.pieces, editing.edit, &changes.pieces)
}

// The tokens of the new text among its pieces.
fn tokens_among<'a>(
    alloc: Global,
    edit: &TextEdit,
    pieces: &'a PieceList,
) -> Result<TokenList<'a>, OutOfMemory>
    requires { ArePieces edit.now.text.now pieces.now }
    ensures { IfOk result (λ tokens. tokens ≡ tokens_of edit.now.text.now) }
{
    few_pieces();
    pieces_as_listed();
    let tokens = TokenList::among(alloc, 0, pieces)?;
    Ok(tokens)
}

// The tokens of the new text among the pieces that an edit makes, if these are all. The text is
// nearly always one that is opened, of which much is to be made yet: so no room is kept.
fn tokens_made<'a>(alloc: Global, editing: &Editing<'a, '_>) -> Result<TokenList<'a>, OutOfMemory>
    requires editing { IsUnderWay editing.now }
    requires all { made_pieces editing.now.changes.now.pieces ≡ pieces_of (text_in editing.now) }
    ensures { IfOk result (λ tokens. tokens ≡ tokens_of (text_in editing.now)) }
{
    few_pieces();
    let pieces = &editing.changes.pieces;
    let mut tokens = TokenList::among(alloc, pieces.made_from, &pieces.list)?;
    tokens.give_back_room();
    Ok(tokens)
}

// The plan by the tokens of the new text, whatever items the edit makes.
fn whole_of_many(
    alloc: Global,
    editing: &Editing,
    tokens: &TokenList,
) -> Result<WholePlan, OutOfMemory>
    requires editing { IsUnderWay editing.now }
    requires tokens { tokens.now ≡ tokens_of (text_in editing.now) }
    ensures { IfOk result (IsWholePlan (edit_in editing.now) (items_in editing.now)) }
{
    let (mut parsed, mut checked) = (Count::new(), Count::new());
    let made = made_entries(alloc, editing, tokens, &mut parsed)?;
    let parsed = parsed.ticks();
    whole_plan(alloc, editing, tokens, made, parsed, &mut checked)
}

// The same by the list of the pieces of the new text.
fn whole_of_listed(
    alloc: Global,
    editing: &Editing,
    pieces: &PieceList,
) -> Result<WholePlan, OutOfMemory>
    requires editing { IsUnderWay editing.now }
    requires pieces { ArePieces (text_in editing.now) pieces.now }
    ensures { IfOk result (IsWholePlan (edit_in editing.now) (items_in editing.now)) }
{
    let tokens = tokens_among(alloc, editing.edit, pieces)?;
    whole_of_many(alloc, editing, &tokens)
}

// The plan with the list of the pieces of the new text, which is taken over where the plan is
// carried out.
fn with_pieces(mut plan: WholePlan, pieces: PieceList) -> WholePlan
    ensures { (edit : Edit) (items : ItemChange) → IsWholePlan edit items plan → ArePieces edit.text pieces → IsWholePlan edit items result }
{
    plan.pieces = Some(pieces);
    plan
}

/// The plan, whatever items the edit makes. Where it makes all pieces, their list is at hand.
pub fn whole_among_all(alloc: Global, editing: &Editing) -> Result<WholePlan, OutOfMemory>
    requires editing { IsUnderWay editing.now }
    ensures { IfOk result (IsWholePlan (edit_in editing.now) (items_in editing.now)) }
{
    if makes_all(editing) {
        let tokens = tokens_made(alloc, editing)?;
        return whole_of_many(alloc, editing, &tokens);
    }
    let pieces = new_pieces(alloc, editing)?;
    let plan = whole_of_listed(alloc, editing, &pieces)?;
    Ok(with_pieces(plan, pieces))
}

// The plan where the edit makes one item, by the list of the pieces of the new text.
fn whole_of_one_listed(
    alloc: Global,
    editing: &Editing,
    pieces: &PieceList,
    made: Vec<Shared<Entry>>,
    parsed: u64,
    checked: &mut Count,
) -> Result<WholePlan, OutOfMemory>
    requires editing { IsUnderWay editing.now }
    requires pieces { ArePieces (text_in editing.now) pieces.now }
    requires made { AreEntriesIn editing.now made.items }
    requires parsed { parsed ≡ parsed_in editing.now }
    requires checked { checked.old ≡ 0 }
    ensures { IfOk result (IsWholePlan (edit_in editing.now) (items_in editing.now)) }
{
    let tokens = tokens_among(alloc, editing.edit, pieces)?;
    whole_plan(alloc, editing, &tokens, made, parsed, checked)
}

/// The plan where the edit makes one item, by what is kept of that. No item is checked yet.
pub fn whole_of_one(
    alloc: Global,
    editing: &Editing,
    made: Vec<Shared<Entry>>,
    parsed: u64,
    checked: &mut Count,
) -> Result<WholePlan, OutOfMemory>
    requires editing { IsUnderWay editing.now }
    requires made { AreEntriesIn editing.now made.items }
    requires parsed { parsed ≡ parsed_in editing.now }
    requires checked { checked.old ≡ 0 }
    ensures { IfOk result (IsWholePlan (edit_in editing.now) (items_in editing.now)) }
{
    let pieces = new_pieces(alloc, editing)?;
    let plan = whole_of_one_listed(alloc, editing, &pieces, made, parsed, checked)?;
    Ok(with_pieces(plan, pieces))
}
