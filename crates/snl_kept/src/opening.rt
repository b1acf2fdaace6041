//! What is kept of a text that comes whole, and not by an edit. In: a text. Out: what is kept of it,
//! and what that cost. The lists that are made of the text become those that are kept, so each is
//! in memory once.
#![tactic(auto)]

ghost use Rattle.std.specs.Prelude.{◌≡◌, ◌^◌, ◌<◌, ◌≤◌, [], IfOk, length, vec_capacity, vec_len};
ghost use Rattle.snl_cut.specs.Cut.{after_ticks};
ghost use Rattle.snl_items.specs.Fresh.{fresh_pieces_of};
ghost use Rattle.snl_lex.specs.Edit.{Edit, edit_of, splice};
ghost use Rattle.snl_kept.specs.Cost.{IsCost};
ghost use Rattle.snl_kept.specs.Diagnostics.{diagnostics_of};
ghost use Rattle.snl_kept.specs.Kept.{HasRoomForItems, IsKept, IsListed};
ghost use Rattle.snl_kept.specs.Planned.{IsBegun, IsChanged, IsWholePlan};
ghost use Rattle.snl_lex.specs.LineList.{IsLineList};

use crate::editing::Editing;
use crate::found::diagnose::{make_room, put_on_lines};
use crate::kept::Kept;
use crate::lists::Lists;
use crate::plan::{Changes, WholePlan};
use crate::ways::changes::changes_of;
use crate::ways::whole::whole_plan::whole_among_all;
use crate::work::Work;
use snl_cut::{Count, OutOfMemory};
use snl_items::pieces_are_fresh;
use snl_lex::{LineList, TextEdit};
use std::alloc::Global;

// What an edit makes of the parts of a text. The lists of a text that is opened are kept as they
// were made: so the room that they have for more, which may be as much again, is given back.
fn opened_changes(
    alloc: Global,
    lists: &Lists,
    edit: &TextEdit,
    work: &mut Count,
) -> Result<Changes, OutOfMemory>
    requires lists { IsListed edit.now.old.now lists.now }
    ensures changes { IfOk result (IsChanged (edit_of edit.now)) }
    ensures ticks { IfOk result (λ c. work.new ≡ after_ticks work.old (vec_len c.pieces.list.ends)) }
{
    let mut changes = changes_of(alloc, lists, edit, work)?;
    changes.pieces.list.ends.shrink_to_fit();
    changes.pieces.list.kinds.shrink_to_fit();
    Ok(changes)
}

impl Kept {
    // What an edit of the empty text makes, with room for what is made of its items.
    fn planned_whole(
        &mut self,
        edit: &TextEdit,
        changes: &Changes,
        lines: &LineList,
        lexed: u64,
    ) -> Result<WholePlan, OutOfMemory>
        requires begun { IsBegun (edit_of edit.now) self.old changes.now lines.now }
        requires lexed { lexed ≡ fresh_pieces_of (edit_of edit.now) }
        ensures kept { IsKept edit.now.old.now self.new }
        ensures plan { IfOk result (IsWholePlan (edit_of edit.now) changes.now.items) }
        ensures items { IfOk result (λ p. HasRoomForItems self.new.lists p.items) }
        ensures findings { IfOk result (λ p. length p.findings.items ≤ vec_capacity self.new.found) }
    {
        let alloc = *self.found.allocator();
        let editing = Editing {
            lists: &self.lists,
            tables: &self.tables,
            found: &self.found,
            edit,
            changes,
            lines,
            lexed,
        };
        let plan = whole_among_all(alloc, &editing)?;
        self.lists.reserve_items(&plan.items)?;
        make_room(&mut self.found, plan.findings.len())?;
        Ok(plan)
    }

    // Puts all that an edit of the empty text makes in its place. There is room for what is made of
    // the items, so it can't fail.
    #[tactic(auto, unfolding(crate::specs::Diagnostics::diagnostics_of))]
    fn fill(&mut self, edit: &TextEdit, changes: Changes, lines: LineList, plan: WholePlan)
        requires nothing { edit.now.old.now ≡ [] }
        requires begun { IsBegun (edit_of edit.now) self.old changes lines }
        requires plan { IsWholePlan (edit_of edit.now) changes.items plan }
        requires items { HasRoomForItems self.old.lists plan.items }
        requires findings { length plan.findings.items ≤ vec_capacity self.old.found }
        ensures { IsKept edit.now.text.now self.new }
    {
        let WholePlan {
            items,
            findings,
            tables,
            work: _,
            pieces: _,
        } = plan;
        put_on_lines(edit.text, &lines, &findings, &mut self.found);
        self.lists.fill(edit, changes, lines, items);
        self.tables = tables;
    }

    // Makes what is kept of the empty text that of another one, and tells what that cost.
    fn open(&mut self, edit: &TextEdit) -> Result<Work, OutOfMemory>
        requires nothing { edit.now.old.now ≡ [] }
        requires kept { IsKept edit.now.old.now self.old }
        ensures kept { IfOk result (λ _. IsKept edit.now.text.now self.new) }
        ensures cost { IfOk result (IsCost (edit_of edit.now)) }
    {
        pieces_are_fresh();
        let alloc = *self.found.allocator();
        let mut lexed = Count::new();
        let changes = opened_changes(alloc, &self.lists, edit, &mut lexed)?;
        let lines = self.lists.lines.after(alloc, edit, &changes.pieces)?;
        let lexed = lexed.ticks();
        let plan = self.planned_whole(edit, &changes, &lines, lexed)?;
        let work = plan.work;
        self.fill(edit, changes, lines, plan);
        Ok(work)
    }

    /// What is kept of a text, and what that cost: as much as the edit that puts the text into the
    /// empty one. The only error is want of memory.
    pub fn over(alloc: Global, text: &[u8]) -> Result<(Kept, Work), OutOfMemory>
        requires { length text.now < 2 ^ 32 }
        ensures kept { IfOk result (λ made. IsKept text.now made.0) }
        ensures cost { IfOk result (λ made. IsCost (splice [] 0 0 text.now) made.1) }
    {
        let mut kept = Kept::empty(alloc)?;
        let edit = TextEdit {
            old: &[],
            text,
            start: 0,
            old_stop: 0,
            new_stop: text.len(),
        };
        let work = kept.open(&edit)?;
        Ok((kept, work))
    }
}
