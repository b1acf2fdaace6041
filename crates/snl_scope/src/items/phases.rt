//! The phases of items, and what the items before one say of its place.

ghost use Rattle.std.specs.Prelude.{◌≡◌, false};
ghost use Rattle.snl_scope.specs.Order.{is_barred_in_sets, is_main, is_program_word, is_state, phase_of};
ghost use Rattle.snl_scope.specs.NameTables.{and_item, barred_at, is_below, misplaced_after, phase_in, with_phase};

use snl_summary::{ItemKind, Opening};

fn is_state(kind: ItemKind) -> bool
    ensures { result ≡ is_state kind }
{
    matches!(kind, ItemKind::State)
}

fn is_main(kind: ItemKind) -> bool
    ensures { result ≡ is_main kind }
{
    matches!(kind, ItemKind::Entry | ItemKind::SsBegin | ItemKind::Exit)
}

fn is_barred_in_sets(kind: ItemKind) -> bool
    ensures { result ≡ is_barred_in_sets kind }
{
    matches!(
        kind,
        ItemKind::Header
            | ItemKind::OptionLine
            | ItemKind::Entry
            | ItemKind::Exit
            | ItemKind::Function
            | ItemKind::StructDef
    )
}

pub(crate) fn begins_with_program(opening: Opening) -> bool
    ensures { result ≡ is_program_word opening }
{
    matches!(opening, Opening::Program)
}

// The phase of an item at program level.
fn phase_of(begun: bool, kind: ItemKind) -> Option<u8>
    ensures { result ≡ phase_of begun kind }
{
    match kind {
        ItemKind::Header => Some(0),
        ItemKind::Entry => Some(2),
        ItemKind::SsBegin => Some(3),
        ItemKind::Exit => Some(4),
        ItemKind::Declaration
        | ItemKind::Foreign
        | ItemKind::Clause
        | ItemKind::OptionLine
        | ItemKind::Function
        | ItemKind::StructDef => Some(if begun { 5 } else { 1 }),
        ItemKind::Faulty | ItemKind::SsEnd | ItemKind::State | ItemKind::CBlock | ItemKind::Empty =>
            None,
    }
}

fn phase_in(begun: bool, enclosing_set: Option<usize>, kind: ItemKind) -> Option<u8>
    ensures { result ≡ phase_in begun enclosing_set kind }
{
    match enclosing_set {
        None => phase_of(begun, kind),
        Some(_) => None,
    }
}

fn is_below(phase: Option<u8>, greatest: u8) -> bool
    ensures { result ≡ is_below phase greatest }
{
    match phase {
        None => false,
        Some(phase) => phase < greatest,
    }
}

fn with_phase(phase: Option<u8>, greatest: u8) -> u8
    ensures { result ≡ with_phase phase greatest }
{
    match phase {
        None => greatest,
        Some(phase) => if greatest < phase { phase } else { greatest },
    }
}

// A state at program level, or an item that may not be in a state set.
fn is_barred(enclosing_set: Option<usize>, kind: ItemKind) -> bool
    ensures { result ≡ barred_at enclosing_set kind }
{
    match enclosing_set {
        None => is_state(kind),
        Some(_) => is_barred_in_sets(kind),
    }
}

/// What the items so far say to the next one: the greatest phase, whether an item of phase 2, 3 or
/// 4 was among them, and whether one began with `program`.
#[derive(Clone, Copy)]
pub(crate) struct Before {
    greatest: u8,
    begun: bool,
    has_program: bool,
}

impl Before {
    pub(crate) fn new() -> Before
        ensures { result ≡ record { greatest = 0; begun = false; has_program = false } }
    {
        Before {
            greatest: 0,
            begun: false,
            has_program: false,
        }
    }

    pub(crate) fn misplaces(
        self,
        enclosing_set: Option<usize>,
        kind: ItemKind,
        opening: Opening,
    ) -> bool
        ensures { result ≡ misplaced_after self enclosing_set kind opening }
    {
        let phase = phase_in(self.begun, enclosing_set, kind);
        let is_later_program = begins_with_program(opening) && self.has_program;
        (is_below(phase, self.greatest) || is_barred(enclosing_set, kind)) && !is_later_program
    }

    pub(crate) fn and(
        self,
        enclosing_set: Option<usize>,
        kind: ItemKind,
        opening: Opening,
    ) -> Before
        ensures { result ≡ and_item self enclosing_set kind opening }
    {
        let phase = phase_in(self.begun, enclosing_set, kind);
        Before {
            greatest: with_phase(phase, self.greatest),
            begun: (is_main(kind) && enclosing_set.is_none()) || self.begun,
            has_program: begins_with_program(opening) || self.has_program,
        }
    }
}
