//! What is kept of a text: its lists, its diagnostics and its tables. An edit of the text comes in,
//! what it cost goes out. An edit has two steps: all that takes memory, and the change, which can't
//! fail. It goes one of three ways: the short one, where it shifts all that the text says; that of
//! one item, where it changes the inside of an item that says to the others what it said; and the
//! whole one, where all is made anew.
#![tactic(auto)]

ghost use Rattle.std.specs.Prelude.{◌≡◌, [], IfOk, OnErr, OnOk, vec_capacity};
ghost use Rattle.snl_lex.specs.LineList.{IsLineList};
ghost use Rattle.snl_kept.specs.Checks.{links_in};
ghost use Rattle.snl_kept.specs.Cost.{IsCost};
ghost use Rattle.snl_kept.specs.Diagnostics.{diagnostics_of};
ghost use Rattle.snl_items.specs.Fresh.{fresh_pieces_of};
ghost use Rattle.snl_lex.specs.Edit.{edit_of};
ghost use Rattle.snl_kept.specs.Kept.{HasRoomFor, HasRoomForPlaces, IsKept};
ghost use Rattle.snl_kept.specs.Planned.{HasRoom, HasRoomForAll, IsBegun, IsItemPlan, IsPlan, IsWholePlan};
ghost use Rattle.snl_kept.specs.Shifted.{IsShifted, ShiftsAll};
ghost use Rattle.snl_kept.specs.Tables.{tables_in};
ghost use Rattle.snl_kept.specs.Warnings.{warns_in};

use crate::editing::Editing;
use crate::found::diagnose::put_on_lines;
use crate::found::findings::Diagnostic;
use crate::found::judge::{Judgement, judge};
use crate::found::program::CutText;
use crate::laws::shift_laws::edit_shifts_all;
use crate::lists::Lists;
use crate::plan::{Changes, ItemPlan, Plan, WholePlan};
use crate::ways::changes::changes_of;
use crate::ways::planning::plan_of;
use crate::ways::shift::{shift_diagnostics, shift_of};
use crate::work::Work;
use snl_check::Tables;
use snl_cut::{Count, OutOfMemory};
use snl_items::{ItemList, TokenList, pieces_are_fresh};
use snl_lex::{LineList, LineShift, PieceList, TextEdit};
use snl_lists::Ordered;
use snl_scope::{Links, link};
use std::alloc::Global;

/// What is kept of a text, by whoever has the text: the lists of its parts, its diagnostics in
/// order, and its tables.
pub struct Kept {
    pub lists: Lists,
    pub found: Vec<Diagnostic>,
    pub tables: Tables,
}

// By hand, so that whoever holds it need not know what is in it to let it go.
impl Drop for Kept {
    fn drop(self) {
        let Kept {
            lists: _,
            found: _,
            tables: _,
        } = self;
    }
}

// The links of the empty text, and what it is judged to say.
fn judge_nothing(alloc: Global, lines: &LineList) -> Result<(Links, Judgement), OutOfMemory>
    requires { IsLineList [] lines.now }
    ensures links { IfOk result (λ r. r.0 ≡ links_in []) }
    ensures diagnostics { IfOk result (λ r. r.1.diagnostics.items ≡ diagnostics_of []) }
    ensures tables { IfOk result (λ r. r.1.tables ≡ tables_in []) }
    ensures warns { IfOk result (λ r. r.1.warns ≡ warns_in []) }
{
    let tokens = TokenList::listed(&[]);
    let cut = CutText {
        text: &[],
        lines,
        tokens: &tokens,
        ends: &[],
    };
    let links = link(alloc, &[])?;
    let judgement = judge(alloc, &cut, &[], &links, links.kinds(), links.faults(), &[])?;
    Ok((links, judgement))
}

impl Kept {
    // What is kept of the empty text, by its lines, its links and what it is judged to say.
    fn of_nothing(alloc: Global, lines: LineList, links: Links, judgement: Judgement) -> Kept
        requires lines { IsLineList [] lines }
        requires links { links ≡ links_in [] }
        requires diagnostics { judgement.diagnostics.items ≡ diagnostics_of [] }
        requires tables { judgement.tables ≡ tables_in [] }
        requires warns { judgement.warns ≡ warns_in [] }
        ensures { IsKept [] result }
    {
        let lists = Lists {
            pieces: PieceList {
                ends: Vec::new(alloc),
                kinds: Vec::new(alloc),
                markers: 0,
            },
            lines,
            items: ItemList {
                marks: Vec::new(alloc),
                ends: Vec::new(alloc),
            },
            entries: Ordered::new(alloc),
            links,
            checks: Ordered::new(alloc),
            warns: judgement.warns,
        };
        Kept {
            lists,
            found: judgement.diagnostics,
            tables: judgement.tables,
        }
    }

    /// What is kept of the empty text, which has no pieces and no items.
    pub fn empty(alloc: Global) -> Result<Kept, OutOfMemory>
        ensures { IfOk result (IsKept []) }
    {
        let lines = LineList::of(alloc, &[], &[])?;
        let (links, judgement) = judge_nothing(alloc, &lines)?;
        Ok(Kept::of_nothing(alloc, lines, links, judgement))
    }

    // Shifts what is kept, by an edit that shifts all that the text says. There is room for the
    // places that it makes, so it can't fail.
    fn shift(&mut self, edit: &TextEdit, changes: &Changes, lines: LineList, shift: LineShift)
        requires begun { IsBegun (edit_of edit.now) self.old changes.now lines }
        requires shifted { IsShifted (edit_of edit.now) shift }
        requires room { HasRoomForPlaces self.old.lists changes.now }
        ensures { IsKept edit.now.text.now self.new }
    {
        self.lists.commit_places(edit, changes, lines);
        shift_diagnostics(&mut self.found, shift);
        self.tables.shift_lines(shift);
    }

    // Puts what an edit inside one item makes anew in its place, and shifts the rest. There is room
    // for it, so it can't fail.
    fn put_item(&mut self, edit: &TextEdit, changes: &Changes, lines: LineList, plan: ItemPlan)
        requires begun { IsBegun (edit_of edit.now) self.old changes.now lines }
        requires plan { IsItemPlan (edit_of edit.now) changes.now.items plan }
        requires room { HasRoomFor self.old.lists changes.now plan.items }
        ensures { IsKept edit.now.text.now self.new }
    {
        let ItemPlan {
            items,
            diagnostics,
            shift,
            change,
            work: _,
        } = plan;
        self.lists.commit(edit, changes, lines, items);
        self.found = diagnostics;
        self.tables.shift_lines(shift);
        change.put_in(&mut self.tables);
    }

    // Puts all that an edit makes anew in its place. There is room for it, so it can't fail.
    #[tactic(auto, unfolding(crate::specs::Diagnostics::diagnostics_of))]
    fn put_whole(&mut self, edit: &TextEdit, changes: &Changes, lines: LineList, plan: WholePlan)
        requires begun { IsBegun (edit_of edit.now) self.old changes.now lines }
        requires plan { IsWholePlan (edit_of edit.now) changes.now.items plan }
        requires room { HasRoomForAll self.old.lists (vec_capacity self.old.found) changes.now plan }
        ensures { IsKept edit.now.text.now self.new }
    {
        let WholePlan {
            items,
            findings,
            tables,
            work: _,
            pieces,
        } = plan;
        put_on_lines(edit.text, &lines, &findings, &mut self.found);
        self.lists.commit_whole(edit, changes, lines, items, pieces);
        self.tables = tables;
    }

    // Puts what an edit makes anew in its place. There is room for it, so it can't fail.
    fn put(&mut self, edit: &TextEdit, changes: &Changes, lines: LineList, plan: Plan)
        requires begun { IsBegun (edit_of edit.now) self.old changes.now lines }
        requires plan { IsPlan (edit_of edit.now) changes.now.items plan }
        requires room { HasRoom self.old.lists (vec_capacity self.old.found) changes.now plan }
        ensures { IsKept edit.now.text.now self.new }
    {
        match plan {
            Plan::Item(plan) => self.put_item(edit, changes, lines, plan),
            Plan::Whole(plan) => self.put_whole(edit, changes, lines, plan),
        }
    }

    // The short way of an edit, which shifts all that the text says.
    fn edit_by_shift(
        &mut self,
        edit: &TextEdit,
        changes: &Changes,
        lines: LineList,
        shift: LineShift,
        lexed: u64,
    ) -> Result<Work, OutOfMemory>
        requires begun { IsBegun (edit_of edit.now) self.old changes.now lines }
        requires shift { ShiftsAll (edit_of edit.now) shift }
        requires lexed { lexed ≡ fresh_pieces_of (edit_of edit.now) }
        ensures kept { OnOk result (IsKept edit.now.text.now self.new) }
        ensures cost { IfOk result (IsCost (edit_of edit.now)) }
        ensures err { OnErr result (IsKept edit.now.old.now self.new) }
    {
        edit_shifts_all();
        self.lists.reserve_places(changes)?;
        self.shift(edit, changes, lines, shift);
        Ok(Work {
            lexed,
            parsed: 0,
            checked: 0,
        })
    }

    // What an edit makes anew that changes what some item says, with room for it. An error leaves
    // all as it was.
    fn planned(
        &mut self,
        edit: &TextEdit,
        changes: &Changes,
        lines: &LineList,
        lexed: u64,
    ) -> Result<Plan, OutOfMemory>
        requires begun { IsBegun (edit_of edit.now) self.old changes.now lines.now }
        requires lexed { lexed ≡ fresh_pieces_of (edit_of edit.now) }
        ensures kept { IsKept edit.now.old.now self.new }
        ensures plan { IfOk result (IsPlan (edit_of edit.now) changes.now.items) }
        ensures room { IfOk result (HasRoom self.new.lists (vec_capacity self.new.found) changes.now) }
    {
        let alloc = *self.found.allocator();
        let editing = Editing {
            lists: &self.lists,
            tables: &self.tables,
            found: &self.found,
            edit,
            changes,
            lines,
            lexed,
        };
        let plan = plan_of(alloc, &editing)?;
        plan.make_room(changes, &mut self.lists, &mut self.found)?;
        Ok(plan)
    }

    // The other ways of an edit, which changes what some item says.
    fn edit_by_plan(
        &mut self,
        edit: &TextEdit,
        changes: &Changes,
        lines: LineList,
        lexed: u64,
    ) -> Result<Work, OutOfMemory>
        requires begun { IsBegun (edit_of edit.now) self.old changes.now lines }
        requires lexed { lexed ≡ fresh_pieces_of (edit_of edit.now) }
        ensures kept { OnOk result (IsKept edit.now.text.now self.new) }
        ensures cost { IfOk result (IsCost (edit_of edit.now)) }
        ensures err { OnErr result (IsKept edit.now.old.now self.new) }
    {
        let plan = self.planned(edit, changes, &lines, lexed)?;
        let work = plan.work();
        self.put(edit, changes, lines, plan);
        Ok(work)
    }

    // Makes an edit, by what it makes of the parts of the text and by the lines of the new text.
    fn edit_by(
        &mut self,
        edit: &TextEdit,
        changes: &Changes,
        lines: LineList,
        lexed: u64,
    ) -> Result<Work, OutOfMemory>
        requires begun { IsBegun (edit_of edit.now) self.old changes.now lines }
        requires lexed { lexed ≡ fresh_pieces_of (edit_of edit.now) }
        ensures kept { OnOk result (IsKept edit.now.text.now self.new) }
        ensures cost { IfOk result (IsCost (edit_of edit.now)) }
        ensures err { OnErr result (IsKept edit.now.old.now self.new) }
    {
        let editing = Editing {
            lists: &self.lists,
            tables: &self.tables,
            found: &self.found,
            edit,
            changes,
            lines: &lines,
            lexed,
        };
        match shift_of(&editing) {
            Some(shift) => self.edit_by_shift(edit, changes, lines, shift, lexed),
            None => self.edit_by_plan(edit, changes, lines, lexed),
        }
    }

    /// Makes what is kept of the text before an edit that of the text after it, and tells what that
    /// cost. An error leaves all as it was.
    pub fn edit(&mut self, edit: &TextEdit) -> Result<Work, OutOfMemory>
        requires { IsKept edit.now.old.now self.old }
        ensures kept { OnOk result (IsKept edit.now.text.now self.new) }
        ensures cost { IfOk result (IsCost (edit_of edit.now)) }
        ensures err { OnErr result (IsKept edit.now.old.now self.new) }
    {
        pieces_are_fresh();
        let alloc = *self.found.allocator();
        let mut lexed = Count::new();
        let changes = changes_of(alloc, &self.lists, edit, &mut lexed)?;
        let lines = self.lists.lines.after(alloc, edit, &changes.pieces)?;
        let lexed = lexed.ticks();
        self.edit_by(edit, &changes, lines, lexed)
    }
}
