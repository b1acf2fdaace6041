//! Outlines are put into flat lists: what items say to the others comes in, with a book of names
//! that is at hand; the same in flat lists goes out.

ghost use Rattle.std.specs.Prelude.{◌≡◌, ◌++◌, ◌∷◌, [], ◌^◌, ◌<◌, ◌≤◌, List, IfOk, IfSome, OnOk, drop, length, map, option_map, take};
ghost use Rattle.snl_summary.specs.declared.summary.Outline.{Outline};
ghost use Rattle.snl_scope.specs.OutlineList.{AddsClauses, AddsDeclared, AreFlat, Extends, IsClauseNumbered, Tells, clause_by, clauses_in, declares_in, name_at, outlines_by, ref_by};

use crate::outlines::flat::{FlatClause, FlatDeclared, FlatOutline, FlatRef};
use crate::outlines::outline_list::OutlineList;
use snl_cut::OutOfMemory;
use snl_names::NameBook;
use snl_summary::{Declared, Name, NameRef, Outline, Summary, VariableClause};
use std::alloc::Global;

// Takes the names of declarations in.
fn add_declared(
    names: &mut NameBook,
    declares: &[Declared],
    flat: &mut Vec<FlatDeclared>,
) -> Result<(), OutOfMemory>
    ensures names { OnOk result (Extends names.old names.new) }
    ensures flat { OnOk result (AddsDeclared names.new flat.old.items flat.new.items declares.now) }
{
    for declared in declares {
        let name = names.add(declared.name.bytes())?;
        flat.push(FlatDeclared {
            name,
            token: declared.token,
            variable: declared.variable,
        })?;
    }
    Ok(())
}

fn flat_ref(names: &mut NameBook, name_ref: &NameRef) -> Result<FlatRef, OutOfMemory>
    ensures names { OnOk result (Extends names.old names.new) }
    ensures told { IfOk result (λ m. ref_by names.new m ≡ name_ref.now) }
    ensures numbered { IfOk result (λ m. m.name < length names.new) }
{
    Ok(FlatRef {
        name: names.add(name_ref.name.bytes())?,
        token: name_ref.token,
    })
}

fn flat_flag(names: &mut NameBook, flag: &Option<NameRef>) -> Result<Option<FlatRef>, OutOfMemory>
    ensures names { OnOk result (Extends names.old names.new) }
    ensures told { IfOk result (λ o. option_map (ref_by names.new) o ≡ flag.now) }
    ensures numbered { IfOk result (λ o. IfSome o (λ m. m.name < length names.new)) }
{
    match flag {
        Some(name_ref) => {
            let flat = flat_ref(names, name_ref)?;
            Ok(Some(flat))
        }
        None => Ok(None),
    }
}

fn flat_clause(names: &mut NameBook, clause: &VariableClause) -> Result<FlatClause, OutOfMemory>
    ensures names { OnOk result (Extends names.old names.new) }
    ensures told { IfOk result (λ c. clause_by names.new c ≡ clause.now) }
    ensures numbered { IfOk result (λ c. IsClauseNumbered names.new c) }
{
    let variable = flat_ref(names, &clause.variable)?;
    let flag = flat_flag(names, &clause.flag)?;
    Ok(FlatClause {
        variable,
        flag,
        coverage: clause.coverage,
        kind: clause.kind,
    })
}

// Takes the names of clauses in.
fn add_clauses(
    names: &mut NameBook,
    clauses: &[VariableClause],
    flat: &mut Vec<FlatClause>,
) -> Result<(), OutOfMemory>
    ensures names { OnOk result (Extends names.old names.new) }
    ensures flat { OnOk result (AddsClauses names.new flat.old.items flat.new.items clauses.now) }
{
    for clause in clauses {
        let made = flat_clause(names, clause)?;
        flat.push(made)?;
    }
    Ok(())
}

fn flat_second(names: &mut NameBook, second: &Option<Name>) -> Result<Option<usize>, OutOfMemory>
    ensures names { OnOk result (Extends names.old names.new) }
    ensures told { IfOk result (λ o. option_map (name_at names.new) o ≡ second.now) }
    ensures numbered { IfOk result (λ o. IfSome o (λ n. n < length names.new)) }
{
    match second {
        Some(name) => {
            let number = names.add(name.bytes())?;
            Ok(Some(number))
        }
        None => Ok(None),
    }
}

/// Flat lists of outlines that are being made.
#[derive(Drop)]
struct Making {
    names: NameBook,
    heads: Vec<FlatOutline>,
    declares: Vec<FlatDeclared>,
    clauses: Vec<FlatClause>,
}

// Takes in what an item says.
fn add_outline(making: &mut Making, outline: &Outline) -> Result<(), OutOfMemory>
    ensures names { OnOk result (Extends making.old.names making.new.names) }
    ensures told { OnOk result ((ss : List Outline) → Tells making.old ss
        → Tells making.new (ss ++ outline.now ∷ [])) }
{
    let names = &mut making.names;
    let second = flat_second(names, &outline.second)?;
    let (declares, clauses) = (outline.declares.as_slice(), outline.clauses.as_slice());
    add_declared(names, declares, &mut making.declares)?;
    add_clauses(names, clauses, &mut making.clauses)?;
    making.heads.push(FlatOutline {
        second,
        declares: declares.len(),
        clauses: clauses.len(),
        role: outline.role,
        opening: outline.opening,
    })?;
    Ok(())
}

fn add_outlines(making: &mut Making, summaries: &[&Summary]) -> Result<(), OutOfMemory>
    ensures names { OnOk result (Extends making.old.names making.new.names) }
    ensures told { OnOk result ((ss : List Outline) → Tells making.old ss
        → Tells making.new (ss ++ map (λ s. s.now.outline) summaries.now)) }
{
    for summary in summaries {
        add_outline(making, &summary.outline)?;
    }
    Ok(())
}

/// How many outlines there is room for, with how many declarations and clauses.
#[derive(Clone, Copy)]
struct Room {
    outlines: usize,
    declares: usize,
    clauses: usize,
}

impl Room {
    // Room for what these items say, too.
    fn with(self, summaries: &[&Summary]) -> Room {
        let mut room = self;
        for summary in summaries {
            let Outline {
                declares,
                clauses,
                ..
            } = &summary.outline;
            room.outlines = room.outlines.saturating_add(1);
            room.declares = room.declares.saturating_add(declares.as_slice().len());
            room.clauses = room.clauses.saturating_add(clauses.as_slice().len());
        }
        room
    }
}

// How many declarations and clauses outlines have before an item.
fn starts(heads: &[FlatOutline], item: usize) -> (usize, usize)
    requires inside { item ≤ length heads.now }
    requires few_declares { declares_in heads.now < 2 ^ 64 }
    requires few_clauses { clauses_in heads.now < 2 ^ 64 }
    ensures { result ≡ (declares_in (take item heads.now), clauses_in (take item heads.now)) }
{
    let (mut declares, mut clauses) = (0, 0);
    for number in 0..item {
        let head = heads[number];
        declares += head.declares;
        clauses += head.clauses;
    }
    (declares, clauses)
}

// Puts the first elements of a list after those of another.
fn put_front<T: Copy + Drop>(from: &[T], count: usize, to: &mut Vec<T>) -> Result<(), OutOfMemory>
    requires { count ≤ length from.now }
    ensures { OnOk result (to.new.items ≡ to.old.items ++ take count from.now) }
{
    to.extend_from_slice(&from[..count])?;
    Ok(())
}

// Puts the elements of a list from one on after those of another.
fn put_back<T: Copy + Drop>(from: &[T], start: usize, to: &mut Vec<T>) -> Result<(), OutOfMemory>
    requires { start ≤ length from.now }
    ensures { OnOk result (to.new.items ≡ to.old.items ++ drop start from.now) }
{
    to.extend_from_slice(&from[start..])?;
    Ok(())
}

impl Making {
    fn with_room(alloc: Global, names: NameBook, room: Room) -> Result<Making, OutOfMemory>
        ensures told { IfOk result (λ m. Tells m []) }
        ensures names { IfOk result (λ m. m.names ≡ names) }
        ensures lists { IfOk result (λ m. (m.heads.items ≡ []) × (m.declares.items ≡ [])
            × (m.clauses.items ≡ [])) }
    {
        let heads = Vec::with_capacity(alloc, room.outlines)?;
        let declares = Vec::with_capacity(alloc, room.declares)?;
        let clauses = Vec::with_capacity(alloc, room.clauses)?;
        Ok(Making {
            names,
            heads,
            declares,
            clauses,
        })
    }

    fn finished(self) -> OutlineList
        requires { AreFlat self.names self.heads.items self.declares.items self.clauses.items }
        ensures { result ≡ record {
          names = self.names;
          outlines = outlines_by self.names self.heads.items self.declares.items
              self.clauses.items;
        } }
    {
        let Making {
            names,
            heads,
            declares,
            clauses,
        } = self;
        OutlineList {
            names,
            heads,
            declares,
            clauses,
        }
    }
}

impl OutlineList {
    /// What these items say to the others.
    pub(crate) fn of(alloc: Global, summaries: &[&Summary]) -> Result<OutlineList, OutOfMemory>
        ensures { IfOk result (λ l. l.outlines ≡ map (λ s. s.now.outline) summaries.now) }
    {
        let none = Room {
            outlines: 0,
            declares: 0,
            clauses: 0,
        };
        let mut making = Making::with_room(alloc, NameBook::new(alloc), none.with(summaries))?;
        add_outlines(&mut making, summaries)?;
        Ok(making.finished())
    }

    // Room for all outlines.
    fn room(&self) -> Room {
        Room {
            outlines: self.heads.len(),
            declares: self.declares.len(),
            clauses: self.clauses.len(),
        }
    }

    // Adds the first outlines to none.
    fn add_front(&self, front: usize, making: &mut Making) -> Result<(), OutOfMemory>
        requires inside { front ≤ length self.now.outlines }
        requires names { making.old.names ≡ self.now.names }
        requires heads { making.old.heads.items ≡ [] }
        requires declares { making.old.declares.items ≡ [] }
        requires clauses { making.old.clauses.items ≡ [] }
        ensures names { OnOk result (making.new.names ≡ making.old.names) }
        ensures told { OnOk result (Tells making.new (take front self.now.outlines)) }
    {
        let (declares, clauses) = starts(&self.heads, front);
        put_front(&self.heads, front, &mut making.heads)?;
        put_front(&self.declares, declares, &mut making.declares)?;
        put_front(&self.clauses, clauses, &mut making.clauses)?;
        Ok(())
    }

    // Adds the outlines from an item on.
    fn add_back(&self, back: usize, making: &mut Making) -> Result<(), OutOfMemory>
        requires inside { back ≤ length self.now.outlines }
        requires names { Extends self.now.names making.old.names }
        ensures { OnOk result ((ss : List Outline) → Tells making.old ss
            → Tells making.new (ss ++ drop back self.now.outlines)) }
    {
        let (declares, clauses) = starts(&self.heads, back);
        put_back(&self.heads, back, &mut making.heads)?;
        put_back(&self.declares, declares, &mut making.declares)?;
        put_back(&self.clauses, clauses, &mut making.clauses)?;
        Ok(())
    }

    /// The outlines with those of other items in the place of the items from `front` up to `back`.
    pub(crate) fn after(
        &self,
        alloc: Global,
        front: usize,
        back: usize,
        summaries: &[&Summary],
    ) -> Result<OutlineList, OutOfMemory>
        requires order { front ≤ back }
        requires inside { back ≤ length self.now.outlines }
        ensures { IfOk result (λ l. l.outlines ≡ take front self.now.outlines
            ++ (map (λ s. s.now.outline) summaries.now ++ drop back self.now.outlines)) }
    {
        let names = self.names.copied(alloc)?;
        let mut making = Making::with_room(alloc, names, self.room().with(summaries))?;
        self.add_front(front, &mut making)?;
        add_outlines(&mut making, summaries)?;
        self.add_back(back, &mut making)?;
        Ok(making.finished())
    }
}
