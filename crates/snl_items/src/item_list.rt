//! The items of a text as two lists, which an edit changes in place: what each token is to the cut,
//! and where each item ends.
//! In: tokens; after an edit what it makes of them. Out: the lists, those of the new text after a
//! change that can't fail.

ghost use Rattle.snl_cut.specs.Cut.{last_end};
ghost use Rattle.snl_items.specs.Changes.{IsItemChange, IsTokenChange};
ghost use Rattle.snl_items.specs.Items.{item_ends, marks_of};
ghost use Rattle.snl_lex.specs.Edit.{Edit, edit_of};
ghost use Rattle.std.specs.Prelude.{◌≡◌, ◌+◌, ◌-◌, ◌^◌, ◌<◌, ◌≤◌, ◌++◌, [], All, IfOk, OnOk, drop, false, length, take, vec_capacity, vec_len};

use crate::laws::few_tokens;
use crate::spelled::Spelling;
use crate::tokens::{TokenChange, TokenEdit};
use snl_cut::{
    Count, Narrow, OutOfMemory, cut_all, ends_in_order, made_are_fresh, members_stay, one_cut,
    recut_by, recut_is_cut,
};
use snl_grammar::{Mark, Tokens};
use snl_lex::TextEdit;
use snl_lists::{replace, replace_and_shift};
use std::alloc::Global;

/// What the tokens of a text are to the cut into items, and where the items end, as numbers of
/// tokens of four bytes each.
#[derive(Drop)]
pub struct ItemList {
    pub marks: Vec<Mark>,
    pub ends: Vec<u32>,
}

/// What an edit makes of the items: so many are kept at the front, those between end at these
/// tokens, and so many are kept at the back.
#[derive(Drop)]
pub struct ItemChange {
    pub kept_front: usize,
    pub made: Vec<u32>,
    pub kept_back: usize,
}

// Each of these ends in four bytes.
fn narrowed(alloc: Global, ends: &[usize]) -> Result<Vec<u32>, OutOfMemory>
    requires { All (λ e. e < 2 ^ 32) ends.now }
    ensures { IfOk result (λ r. r.items ≡ ends.now) }
{
    let mut narrow = Vec::new(alloc);
    for end in ends {
        narrow.push(*end as u32)?;
    }
    Ok(narrow)
}

// The list with other marks in the place of those that an edit replaces.
fn edited(
    alloc: Global,
    old: &[Mark],
    edit: TokenEdit,
    made: &[Mark],
) -> Result<Vec<Mark>, OutOfMemory>
    requires start { edit.start ≤ length old.now }
    requires stop { edit.old_stop ≤ length old.now }
    ensures { IfOk result (λ r. r.items ≡ take edit.start old.now ++ (made.now ++ drop edit.old_stop old.now)) }
{
    let room = old.len().saturating_add(made.len());
    let mut marks = Vec::with_capacity(alloc, room)?;
    marks.extend_from_slice(&old[..edit.start])?;
    marks.extend_from_slice(made)?;
    marks.extend_from_slice(&old[edit.old_stop..])?;
    Ok(marks)
}

// Makes the ends of the old text's items those of the new one's. There is room for those that are
// made.
fn change_ends(ends: &mut Vec<u32>, edit: &TextEdit, tokens: &TokenChange, items: &ItemChange)
    requires ends { ends.old.items ≡ item_ends edit.now.old.now }
    requires tokens { IsTokenChange (edit_of edit.now) tokens.now }
    requires items { IsItemChange (edit_of edit.now) tokens.now.edit items.now }
    requires room { vec_len ends.old + vec_len items.now.made ≤ vec_capacity ends.old }
    ensures { ends.new.items ≡ item_ends edit.now.text.now }
{
    few_tokens();
    ends_in_order::<Tokens>();
    let back = ends.len() - items.kept_back;
    replace_and_shift(
        ends,
        items.kept_front,
        back,
        &items.made,
        tokens.edit.old_stop as u32,
        tokens.edit.new_stop as u32,
    );
}

impl ItemList {
    /// The items of a text that an edit puts into the empty one: all are made. The tokens are let
    /// go.
    pub fn of_made(tokens: TokenChange, items: ItemChange) -> ItemList
        ensures marks { (e : Edit) → e.old ≡ [] → IsTokenChange e tokens
            → result.marks.items ≡ marks_of e.text }
        ensures ends { (e : Edit) (t : TokenEdit) → e.old ≡ [] → IsItemChange e t items
            → result.ends.items ≡ item_ends e.text }
    {
        let TokenChange {
            edit: _,
            marks,
            same: _,
            shifted: _,
        } = tokens;
        let ItemChange {
            kept_front: _,
            made: ends,
            kept_back: _,
        } = items;
        ItemList { marks, ends }
    }

    // What an edit makes of the items, where other tokens are spelled in the place of some.
    fn recut(
        &self,
        alloc: Global,
        edit: &TextEdit,
        tokens: &TokenChange,
    ) -> Result<ItemChange, OutOfMemory>
        requires marks { self.now.marks.items ≡ marks_of edit.now.old.now }
        requires ends { self.now.ends.items ≡ item_ends edit.now.old.now }
        requires tokens { IsTokenChange (edit_of edit.now) tokens.now }
        requires other { tokens.now.same ≡ false }
        ensures { IfOk
            result
            (λ r. IsItemChange (edit_of edit.now) tokens.now.edit r) }
    {
        recut_is_cut::<Tokens>();
        members_stay::<Tokens, Spelling>();
        made_are_fresh::<Tokens>();
        one_cut::<Tokens>();
        few_tokens();
        ends_in_order::<Tokens>();
        let marks = edited(alloc, &self.marks, tokens.edit, &tokens.marks)?;
        let cut = recut_by(
            alloc,
            &Tokens,
            &self.marks,
            &Narrow { ends: &self.ends },
            &marks,
            tokens.edit.start,
            tokens.edit.old_stop,
            tokens.edit.new_stop,
            &mut Count::new(),
        )?;
        Ok(ItemChange {
            kept_front: cut.kept_front,
            made: narrowed(alloc, &cut.made)?,
            kept_back: cut.kept_back,
        })
    }

    /// What an edit makes of the items of the old text, of which this is the list. The only error
    /// is want of memory.
    pub fn change(
        &self,
        alloc: Global,
        edit: &TextEdit,
        tokens: &TokenChange,
    ) -> Result<ItemChange, OutOfMemory>
        requires marks { self.now.marks.items ≡ marks_of edit.now.old.now }
        requires ends { self.now.ends.items ≡ item_ends edit.now.old.now }
        requires tokens { IsTokenChange (edit_of edit.now) tokens.now }
        ensures { IfOk
            result
            (λ r. IsItemChange (edit_of edit.now) tokens.now.edit r) }
    {
        if tokens.same {
            ends_in_order::<Tokens>();
            return Ok(ItemChange {
                kept_front: self.ends.len(),
                made: Vec::new(alloc),
                kept_back: 0,
            });
        }
        self.recut(alloc, edit, tokens)
    }

    /// Where the items of the new text end, where this is the list of the old one's. The only error
    /// is want of memory.
    pub fn ends_after(
        &self,
        alloc: Global,
        edit: &TextEdit,
        tokens: &TokenChange,
        items: &ItemChange,
    ) -> Result<Vec<u32>, OutOfMemory>
        requires ends { self.now.ends.items ≡ item_ends edit.now.old.now }
        requires tokens { IsTokenChange (edit_of edit.now) tokens.now }
        requires items { IsItemChange (edit_of edit.now) tokens.now.edit items.now }
        ensures { IfOk result (λ r. r.items ≡ item_ends edit.now.text.now) }
    {
        let mut ends = Vec::new(alloc);
        ends.extend_from_slice(&self.ends)?;
        ends.reserve(items.made.len())?;
        change_ends(&mut ends, edit, tokens, items);
        Ok(ends)
    }

    /// The number of the token with which the item with a number begins.
    pub fn start_of(&self, number: usize) -> usize
        requires { number ≤ length self.now.ends.items }
        ensures { result ≡ last_end 0 (take number self.now.ends.items) }
    {
        if number == 0 {
            0
        } else {
            self.ends[number - 1] as usize
        }
    }

    /// Makes room for so many tokens and items more. An error leaves the lists as they were.
    pub fn reserve(&mut self, tokens: usize, items: usize) -> Result<(), OutOfMemory>
        ensures marks { self.new.marks.items ≡ self.old.marks.items }
        ensures ends { self.new.ends.items ≡ self.old.ends.items }
        ensures marks_room { OnOk result (vec_len self.new.marks + tokens ≤ vec_capacity self.new.marks) }
        ensures ends_room { OnOk result (vec_len self.new.ends + items ≤ vec_capacity self.new.ends) }
    {
        self.marks.reserve(tokens)?;
        self.ends.reserve(items)?;
        Ok(())
    }

    /// Makes the list of the old text's items that of the new one's. There is room for what is
    /// made, so it can't fail.
    pub fn commit(&mut self, edit: &TextEdit, tokens: &TokenChange, items: &ItemChange)
        requires marks { self.old.marks.items ≡ marks_of edit.now.old.now }
        requires ends { self.old.ends.items ≡ item_ends edit.now.old.now }
        requires tokens { IsTokenChange (edit_of edit.now) tokens.now }
        requires items { IsItemChange (edit_of edit.now) tokens.now.edit items.now }
        requires marks_room { vec_len self.old.marks + vec_len tokens.now.marks ≤ vec_capacity self.old.marks }
        requires ends_room { vec_len self.old.ends + vec_len items.now.made ≤ vec_capacity self.old.ends }
        ensures marks { self.new.marks.items ≡ marks_of edit.now.text.now }
        ensures ends { self.new.ends.items ≡ item_ends edit.now.text.now }
    {
        change_ends(&mut self.ends, edit, tokens, items);
        replace(
            &mut self.marks,
            tokens.edit.start,
            tokens.edit.old_stop,
            &tokens.marks,
        );
    }
}
