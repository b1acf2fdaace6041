//! The pieces of a text as two lists, which an edit changes in place: where each piece ends, and
//! its class.
//! In: pieces; after an edit both texts. Out: the lists, those of the new text after a change that
//! can't fail.

ghost use Rattle.snl_cut.specs.Cut.{Counted, after_ticks};
ghost use Rattle.snl_lex.specs.Lines.{is_marker};
ghost use Rattle.snl_lex.specs.Edit.{Edit, IsChange, edit_of};
ghost use Rattle.snl_lex.specs.PieceList.{piece_ends, piece_kinds};
ghost use Rattle.snl_lex.specs.Pieces.{piece_end};
ghost use Rattle.snl_lex.specs.Shift.{marker_count};
ghost use Rattle.snl_lists.specs.Moves.{replaced};
ghost use Rattle.std.specs.Prelude.{◌≡◌, ◌+◌, ◌^◌, ◌<◌, ◌≤◌, [], All, IfOk, OnOk, count_by, length, map, vec_capacity, vec_len};

use crate::cut::{end_by, relex_narrow};
use crate::edit::TextEdit;
use crate::piece::{Class, Piece};
use snl_cut::{Count, Narrow, OutOfMemory};
use snl_lists::{replace, replace_and_shift};
use std::alloc::Global;

/// Where the pieces of a text end, their classes, and how many of them are line markers. Offsets
/// have four bytes each, so the text is shorter than 4 GiB.
#[derive(Drop)]
pub struct PieceList {
    pub ends: Vec<u32>,
    pub kinds: Vec<Class>,
    pub markers: usize,
}

/// What an edit makes of the pieces: so many are kept at the front, those that are made follow,
/// from `made_from` of the new text on, and so many are kept at the back, from `kept_from` of the
/// old text on.
#[derive(Drop)]
pub struct PieceChange {
    pub kept_front: usize,
    pub made_from: u32,
    pub list: PieceList,
    pub kept_back: usize,
    pub kept_from: usize,
}

// How many of these classes are line markers.
fn count_markers(kinds: &[Class]) -> usize
    ensures { result ≡ count_by is_marker kinds.now }
{
    kinds.iter().filter(|kind| kind.is_marker()).count()
}

// Puts other classes in the place of those from `start` up to `stop`, and tells how many line
// markers there are then. There were so many.
fn replace_kinds(
    kinds: &mut Vec<Class>,
    markers: usize,
    start: usize,
    stop: usize,
    made: &[Class],
) -> usize
    requires range { start ≤ stop }
    requires within { stop ≤ vec_len kinds.old }
    requires room { vec_len kinds.old + length made.now ≤ vec_capacity kinds.old }
    requires markers { markers ≡ count_by is_marker kinds.old.items }
    ensures kinds { kinds.new.items ≡ replaced kinds.old.items start stop made.now }
    ensures markers { result ≡ count_by is_marker kinds.new.items }
{
    let gone = count_markers(&kinds[start..stop]);
    replace(kinds, start, stop, made);
    markers - gone + count_markers(made)
}

impl PieceChange {
    /// The pieces that are made, which are all of a text that an edit puts into the empty one.
    pub fn into_list(self) -> PieceList
        ensures ends { (e : Edit) → e.old ≡ [] → IsChange e self
            → result.ends.items ≡ piece_ends e.text }
        ensures kinds { (e : Edit) → e.old ≡ [] → IsChange e self
            → result.kinds.items ≡ piece_kinds e.text }
        ensures markers { (e : Edit) → e.old ≡ [] → IsChange e self
            → result.markers ≡ marker_count e.text }
    {
        let PieceChange {
            kept_front: _,
            made_from: _,
            list,
            kept_back: _,
            kept_from: _,
        } = self;
        let PieceList {
            ends,
            kinds,
            markers: _,
        } = list;
        PieceList {
            markers: count_markers(&kinds),
            ends,
            kinds,
        }
    }
}

impl PieceList {
    /// The only error is want of memory.
    pub fn of(alloc: Global, pieces: &[Piece]) -> Result<PieceList, OutOfMemory>
        requires short { All (λ p. piece_end p < 2 ^ 32) pieces.now }
        ensures ends { IfOk result (λ l. l.ends.items ≡ map piece_end pieces.now) }
        ensures kinds { IfOk result (λ l. l.kinds.items ≡ map (λ p. p.kind) pieces.now) }
        ensures markers { IfOk result (λ l. l.markers ≡ count_by is_marker l.kinds.items) }
    {
        let mut ends = Vec::new(alloc);
        let mut kinds = Vec::new(alloc);
        for piece in pieces {
            ends.push((piece.start + piece.len) as u32)?;
            kinds.push(piece.kind)?;
        }
        let markers = count_markers(&kinds);
        Ok(PieceList {
            ends,
            kinds,
            markers,
        })
    }

    /// What an edit makes of the pieces of the old text, of which this is the list. Each made piece
    /// is one tick. The only error is want of memory.
    pub fn change(
        &self,
        alloc: Global,
        edit: &TextEdit,
        work: &mut Count,
    ) -> Result<PieceChange, OutOfMemory>
        requires { self.now.ends.items ≡ piece_ends edit.now.old.now }
        ensures change { IfOk
            result
            (λ r. IsChange (edit_of edit.now) r) }
        ensures ticks { IfOk result (λ r. work.new ≡ after_ticks work.old (vec_len r.list.ends)) }
        ensures counted { Counted work.old work.new }
    {
        let old = Narrow { ends: &self.ends };
        let relexed = relex_narrow(
            alloc,
            edit.old,
            &old,
            edit.text,
            edit.start,
            edit.old_stop,
            edit.new_stop,
            work,
        )?;
        let made_from = end_by(&old, relexed.kept_front) as u32;
        let kept_from = end_by(&old, self.ends.len() - relexed.kept_back);
        let ends = relexed.made;
        let kinds = relexed.notes;
        let markers = count_markers(&kinds);
        Ok(PieceChange {
            kept_front: relexed.kept_front,
            made_from,
            list: PieceList {
                ends,
                kinds,
                markers,
            },
            kept_back: relexed.kept_back,
            kept_from,
        })
    }

    /// Makes room for so many pieces more. An error leaves the lists as they were.
    pub fn reserve(&mut self, made: usize) -> Result<(), OutOfMemory>
        ensures ends { self.new.ends.items ≡ self.old.ends.items }
        ensures kinds { self.new.kinds.items ≡ self.old.kinds.items }
        ensures markers { self.new.markers ≡ self.old.markers }
        ensures ends_room { OnOk result (vec_len self.new.ends + made ≤ vec_capacity self.new.ends) }
        ensures kinds_room { OnOk result (vec_len self.new.kinds + made ≤ vec_capacity self.new.kinds) }
    {
        self.ends.reserve(made)?;
        self.kinds.reserve(made)?;
        Ok(())
    }

    /// Makes the list of the old text's pieces that of the new one's. There is room for the made
    /// pieces, so it can't fail.
    pub fn commit(&mut self, edit: &TextEdit, change: &PieceChange)
        requires ends { self.old.ends.items ≡ piece_ends edit.now.old.now }
        requires kinds { self.old.kinds.items ≡ piece_kinds edit.now.old.now }
        requires markers { self.old.markers ≡ marker_count edit.now.old.now }
        requires change { IsChange (edit_of edit.now) change.now }
        requires ends_room { vec_len self.old.ends + vec_len change.now.list.ends ≤ vec_capacity self.old.ends }
        requires kinds_room { vec_len self.old.kinds + vec_len change.now.list.ends ≤ vec_capacity self.old.kinds }
        ensures ends { self.new.ends.items ≡ piece_ends edit.now.text.now }
        ensures kinds { self.new.kinds.items ≡ piece_kinds edit.now.text.now }
        ensures markers { self.new.markers ≡ marker_count edit.now.text.now }
    {
        let front = change.kept_front;
        let back = self.ends.len() - change.kept_back;
        replace_and_shift(
            &mut self.ends,
            front,
            back,
            &change.list.ends,
            edit.old_stop as u32,
            edit.new_stop as u32,
        );
        self.markers = replace_kinds(
            &mut self.kinds,
            self.markers,
            front,
            back,
            &change.list.kinds,
        );
    }
}
