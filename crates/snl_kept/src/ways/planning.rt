//! The plan of an edit that changes what some item says, and room for it: the edit under way comes
//! in, the plan goes out. It is little where the edit is inside one item that says to the others
//! what it said.
#![tactic(auto)]

ghost use Rattle.std.specs.Prelude.{◌≡◌, IfOk, IfSome, OnOk, vec_capacity};
ghost use Rattle.snl_cut.specs.Cut.{after_ticks, ticked};
ghost use Rattle.snl_kept.specs.OneItem.{IsOneItemEdit, edit_by};
ghost use Rattle.snl_kept.specs.Editing.{AreEntriesIn, IsShiftIn, IsUnderWay, MakesOneItem, ShiftsLinesIn, edit_in, items_in};
ghost use Rattle.snl_kept.specs.ItemPlan.{IsOwnPlan, checks_made};
ghost use Rattle.snl_kept.specs.Kept.{SameLists};
ghost use Rattle.snl_kept.specs.Planned.{HasRoom, HasRoomForAll, IsPlan};

use crate::editing::Editing;
use crate::entries::Entry;
use crate::found::diagnose::make_room;
use crate::found::findings::Diagnostic;
use crate::lists::Lists;
use crate::plan::{Changes, Plan, WholePlan};
use crate::shared::Shared;
use crate::ways::one_item::item_plan::{OwnPlan, item_plan, own_plan};
use crate::ways::one_item::replaced::{OneItem, made_alone, own_tokens, replaces_one};
use crate::ways::whole::whole_plan::{whole_among_all, whole_of_one};
use crate::work::Work;
use snl_cut::{Count, OutOfMemory};
use snl_lex::LineShift;
use std::alloc::Global;

// What is kept of the one item that an edit makes, alone in a list, and what the edit makes of it,
// if it is inside the item. The item is parsed once, and checked only then.
fn made_and_planned(
    alloc: Global,
    one: &OneItem,
    parsed: &mut Count,
    checked: &mut Count,
) -> Result<(Vec<Shared<Entry>>, Option<OwnPlan>), OutOfMemory>
    requires one { IsOneItemEdit one.now }
    ensures made { IfOk result (λ r. AreEntriesIn one.now.editing r.0.items) }
    ensures inside { IfOk result (λ r. IfSome r.1 (λ p. IsOwnPlan (edit_by one.now) one.now.editing.changes.now p.links p.parts)) }
    ensures parsed { IfOk result (λ r. parsed.new ≡ ticked parsed.old) }
    ensures checked { IfOk result (λ r. checked.new ≡ after_ticks checked.old (checks_made r.1)) }
{
    let made = made_alone(alloc, one, parsed)?;
    let plan = own_plan(alloc, one, &made, made[0].get(), checked)?;
    Ok((made, plan))
}

// The plan of an edit that makes one item in the place of one, and shifts lines so.
fn plan_of_one(alloc: Global, editing: &Editing, shift: LineShift) -> Result<Plan, OutOfMemory>
    requires editing { IsUnderWay editing.now }
    requires by { IsShiftIn editing.now shift.by }
    requires lines { ShiftsLinesIn editing.now shift }
    requires one { MakesOneItem editing.now }
    ensures { IfOk result (IsPlan (edit_in editing.now) (items_in editing.now)) }
{
    let own = own_tokens(alloc, editing)?;
    let one = OneItem {
        editing: *editing,
        shift,
        own: &own,
    };
    let (mut parsed, mut checked) = (Count::new(), Count::new());
    let (made, plan) = made_and_planned(alloc, &one, &mut parsed, &mut checked)?;
    drop(own);
    let parsed = parsed.ticks();
    match plan {
        Some(plan) => {
            let work = Work {
                lexed: editing.lexed,
                parsed,
                checked: checked.ticks(),
            };
            Ok(Plan::Item(item_plan(editing, made, plan, work)))
        }
        None => {
            let plan = whole_of_one(alloc, editing, made, parsed, &mut checked)?;
            Ok(Plan::Whole(plan))
        }
    }
}

/// The plan of an edit that changes what some item says.
pub fn plan_of(alloc: Global, editing: &Editing) -> Result<Plan, OutOfMemory>
    requires editing { IsUnderWay editing.now }
    ensures { IfOk result (IsPlan (edit_in editing.now) (items_in editing.now)) }
{
    if let Some(shift) = replaces_one(editing) {
        return plan_of_one(alloc, editing, shift);
    }
    let plan = whole_among_all(alloc, editing)?;
    Ok(Plan::Whole(plan))
}

impl WholePlan {
    // Makes room in the lists and among the diagnostics for what is made. An error leaves all as it
    // was.
    fn make_room(
        &self,
        changes: &Changes,
        lists: &mut Lists,
        found: &mut Vec<Diagnostic>,
    ) -> Result<(), OutOfMemory>
        ensures lists { SameLists lists.old lists.new }
        ensures found { found.new.items ≡ found.old.items }
        ensures room { OnOk result (HasRoomForAll lists.new (vec_capacity found.new) changes.now self.now) }
    {
        lists.reserve_items(&self.items)?;
        lists.reserve_beside(changes, &self.pieces)?;
        make_room(found, self.findings.len())
    }
}

impl Plan {
    /// Makes room in the lists and among the diagnostics for what is made. An error leaves all as
    /// it was.
    pub fn make_room(
        &self,
        changes: &Changes,
        lists: &mut Lists,
        found: &mut Vec<Diagnostic>,
    ) -> Result<(), OutOfMemory>
        ensures lists { SameLists lists.old lists.new }
        ensures found { found.new.items ≡ found.old.items }
        ensures room { OnOk result (HasRoom lists.new (vec_capacity found.new) changes.now self.now) }
    {
        match self {
            Plan::Item(plan) => lists.reserve(changes, &plan.items),
            Plan::Whole(plan) => plan.make_room(changes, lists, found),
        }
    }
}
