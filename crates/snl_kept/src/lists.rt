//! The lists that a session keeps of its text: its pieces, its lines, its tokens and items, and
//! what is kept of each item. In: what an edit makes of them. Out: the lists, those of the new text
//! after a change that can't fail.
#![tactic(auto)]

ghost use Rattle.std.specs.Prelude.{◌≡◌, ◌+◌, ◌≤◌, [], IfSome, length, OnOk};
ghost use Rattle.snl_lex.specs.LineList.{IsLineList};
ghost use Rattle.snl_lex.specs.Edit.{Edit, edit_of};
ghost use Rattle.snl_items.specs.Items.{item_ends};
ghost use Rattle.snl_kept.specs.Kept.{AreItems, ArePlaces, HasRoomFor, HasRoomForItems, HasRoomForPlaces, HasRoomForTokens, IsListed, SameItems, SameLists, SamePlaces};
ghost use Rattle.snl_kept.specs.Planned.{ArePieces, HasRoomBeside, IsChanged, IsItemsPlan};

use crate::entries::Entry;
use crate::kept_checks::put;
use crate::plan::{Changes, ItemsPlan, NewChecks};
use crate::shared::Shared;
use snl_cut::OutOfMemory;
use snl_item_check::Checked;
use snl_items::{ItemChange, ItemList};
use snl_lex::{LineList, PieceList, TextEdit};
use snl_lists::Ordered;
use snl_scope::Links;

/// The pieces of a text, its lines, the marks of its tokens, where its items end among them, what
/// is kept of each item, what names mean among the items, what the check of each item gave, and
/// whether warnings are shown.
#[derive(Drop)]
pub struct Lists {
    pub pieces: PieceList,
    pub lines: LineList,
    pub items: ItemList,
    pub entries: Ordered<Shared<Entry>>,
    pub links: Links,
    pub checks: Ordered<Shared<Option<Checked>>>,
    pub warns: bool,
}

// Puts other lines in the place of these, which are let go here, apart from all else.
fn renew_lines(lines: &mut LineList, new: LineList)
    ensures { lines.new ≡ new }
{
    *lines = new;
}

// Puts other pieces in the place of these, which are let go here, apart from all else.
fn renew_pieces(pieces: &mut PieceList, new: PieceList)
    ensures { pieces.new ≡ new }
{
    *pieces = new;
}

impl Lists {
    /// Makes room for the places that an edit makes. An error leaves the lists as they were.
    pub fn reserve_places(&mut self, changes: &Changes) -> Result<(), OutOfMemory>
        ensures lists { SameLists self.old self.new }
        ensures items { SameItems self.old self.new }
        ensures room { OnOk result (HasRoomForPlaces self.new changes.now) }
    {
        self.pieces.reserve(changes.pieces.list.ends.len())?;
        self.items
            .reserve(changes.tokens.marks.len(), changes.items.made.len())?;
        Ok(())
    }

    /// Makes room for the places that an edit makes, but for those of the pieces where there is a
    /// list of these. An error leaves the lists as they were.
    pub fn reserve_beside(
        &mut self,
        changes: &Changes,
        pieces: &Option<PieceList>,
    ) -> Result<(), OutOfMemory>
        ensures lists { SameLists self.old self.new }
        ensures items { SameItems self.old self.new }
        ensures room { OnOk result (HasRoomBeside self.new changes.now pieces.now) }
    {
        match pieces {
            None => self.reserve_places(changes),
            Some(_) => {
                self.items
                    .reserve(changes.tokens.marks.len(), changes.items.made.len())?;
                Ok(())
            }
        }
    }

    /// Makes room for what is kept of the items that an edit makes. An error leaves the lists as
    /// they were.
    pub fn reserve_items(&mut self, plan: &ItemsPlan) -> Result<(), OutOfMemory>
        ensures lists { SameLists self.old self.new }
        ensures places { SamePlaces self.old self.new }
        ensures room { OnOk result (HasRoomForItems self.new plan.now) }
    {
        self.entries.reserve(plan.made.len())?;
        self.checks.reserve(plan.kept.checks.vacant.len())?;
        Ok(())
    }

    /// Makes room for what an edit makes. An error leaves the lists as they were.
    pub fn reserve(&mut self, changes: &Changes, plan: &ItemsPlan) -> Result<(), OutOfMemory>
        ensures lists { SameLists self.old self.new }
        ensures room { OnOk result (HasRoomFor self.new changes.now plan.now) }
    {
        self.reserve_places(changes)?;
        self.reserve_items(plan)
    }

    /// Makes the places in the old text those in the new one. There is room for those that are
    /// made, so it can't fail.
    pub fn commit_places(&mut self, edit: &TextEdit, changes: &Changes, lines: LineList)
        requires places { ArePlaces edit.now.old.now self.old }
        requires changes { IsChanged (edit_of edit.now) changes.now }
        requires lines { IsLineList edit.now.text.now lines }
        requires room { HasRoomForPlaces self.old changes.now }
        ensures places { ArePlaces edit.now.text.now self.new }
        ensures items { SameItems self.old self.new }
    {
        self.pieces.commit(edit, &changes.pieces);
        renew_lines(&mut self.lines, lines);
        self.items.commit(edit, &changes.tokens, &changes.items);
    }

    // Makes the places in the old text those in the new one, whose pieces are taken over. There is
    // room for those of the tokens and the items, so it can't fail.
    fn take_pieces(
        &mut self,
        edit: &TextEdit,
        changes: &Changes,
        lines: LineList,
        pieces: PieceList,
    )
        requires places { ArePlaces edit.now.old.now self.old }
        requires changes { IsChanged (edit_of edit.now) changes.now }
        requires lines { IsLineList edit.now.text.now lines }
        requires pieces { ArePieces edit.now.text.now pieces }
        requires room { HasRoomForTokens self.old changes.now }
        ensures places { ArePlaces edit.now.text.now self.new }
        ensures items { SameItems self.old self.new }
    {
        renew_pieces(&mut self.pieces, pieces);
        renew_lines(&mut self.lines, lines);
        self.items.commit(edit, &changes.tokens, &changes.items);
    }

    // Makes the places in the old text those in the new one. There is room for those that are made
    // beside the list of the pieces, so it can't fail.
    fn commit_beside(
        &mut self,
        edit: &TextEdit,
        changes: &Changes,
        lines: LineList,
        pieces: Option<PieceList>,
    )
        requires places { ArePlaces edit.now.old.now self.old }
        requires changes { IsChanged (edit_of edit.now) changes.now }
        requires lines { IsLineList edit.now.text.now lines }
        requires pieces { IfSome pieces (ArePieces edit.now.text.now) }
        requires room { HasRoomBeside self.old changes.now pieces }
        ensures places { ArePlaces edit.now.text.now self.new }
        ensures items { SameItems self.old self.new }
    {
        match pieces {
            None => self.commit_places(edit, changes, lines),
            Some(pieces) => self.take_pieces(edit, changes, lines, pieces),
        }
    }

    /// Makes the lists of the old text those of the new one, whose pieces are taken over where
    /// there is a list of them. There is room for what is made beside it, so it can't fail.
    pub fn commit_whole(
        &mut self,
        edit: &TextEdit,
        changes: &Changes,
        lines: LineList,
        plan: ItemsPlan,
        pieces: Option<PieceList>,
    )
        requires lists { IsListed edit.now.old.now self.old }
        requires changes { IsChanged (edit_of edit.now) changes.now }
        requires lines { IsLineList edit.now.text.now lines }
        requires plan { IsItemsPlan (edit_of edit.now) changes.now.items plan }
        requires pieces { IfSome pieces (ArePieces edit.now.text.now) }
        requires places { HasRoomBeside self.old changes.now pieces }
        requires items { HasRoomForItems self.old plan }
        ensures { IsListed edit.now.text.now self.new }
    {
        self.put_items(edit, &changes.items, plan);
        self.commit_beside(edit, changes, lines, pieces);
    }

    /// Makes the lists of the old text those of the new one. There is room for what is made, so it
    /// can't fail.
    pub fn commit(&mut self, edit: &TextEdit, changes: &Changes, lines: LineList, plan: ItemsPlan)
        requires lists { IsListed edit.now.old.now self.old }
        requires changes { IsChanged (edit_of edit.now) changes.now }
        requires lines { IsLineList edit.now.text.now lines }
        requires plan { IsItemsPlan (edit_of edit.now) changes.now.items plan }
        requires room { HasRoomFor self.old changes.now plan }
        ensures { IsListed edit.now.text.now self.new }
    {
        self.put_items(edit, &changes.items, plan);
        self.commit_places(edit, changes, lines);
    }

    // Puts what is made of the items in the place of what was kept of those that are gone. There
    // is room for it, so it can't fail.
    fn put_items(&mut self, edit: &TextEdit, items: &ItemChange, plan: ItemsPlan)
        requires items { AreItems edit.now.old.now self.old }
        requires order { items.now.kept_front + items.now.kept_back ≤ length (item_ends edit.now.old.now) }
        requires plan { IsItemsPlan (edit_of edit.now) items.now plan }
        requires room { HasRoomForItems self.old plan }
        ensures items { AreItems edit.now.text.now self.new }
        ensures places { SamePlaces self.old self.new }
    {
        let ItemsPlan { made, kept, warns } = plan;
        let (
            links,
            NewChecks {
                vacant,
                made: checks,
            },
        ) = kept.parts();
        let back = self.entries.len() - items.kept_back;
        self.entries.replace(items.kept_front, back, made);
        links.put_in(&mut self.links);
        self.checks.replace(items.kept_front, back, vacant);
        put(&mut self.checks, checks);
        self.warns = warns;
    }

    // Takes over the places that an edit of the empty text makes: they are made once.
    fn take_places(&mut self, changes: Changes, lines: LineList)
        ensures places { (e : Edit) → e.old ≡ [] → IsChanged e changes → IsLineList e.text lines → ArePlaces e.text self.new }
        ensures items { SameItems self.old self.new }
    {
        let (pieces, tokens, items) = changes.parts();
        self.pieces = pieces.into_list();
        renew_lines(&mut self.lines, lines);
        self.items = ItemList::of_made(tokens, items);
    }

    /// Makes the lists of the empty text those of the new one. There is room for what is made of
    /// the items, and the places are taken over, so it can't fail.
    pub fn fill(&mut self, edit: &TextEdit, changes: Changes, lines: LineList, plan: ItemsPlan)
        requires nothing { edit.now.old.now ≡ [] }
        requires lists { IsListed edit.now.old.now self.old }
        requires changes { IsChanged (edit_of edit.now) changes }
        requires lines { IsLineList edit.now.text.now lines }
        requires plan { IsItemsPlan (edit_of edit.now) changes.items plan }
        requires room { HasRoomForItems self.old plan }
        ensures { IsListed edit.now.text.now self.new }
    {
        self.put_items(edit, &changes.items, plan);
        self.take_places(changes, lines);
    }
}
