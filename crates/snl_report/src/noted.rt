//! What a finding is told with: a place that it is related to, or what may come where it stands.
//! In: a text with what is kept of it, and a finding. Out: its note.

ghost use Rattle.std.specs.Prelude.{◌≡◌, IfOk, None, option_map};
ghost use Rattle.snl_kept.specs.Kept.{IsListed};
ghost use Rattle.snl_report.specs.Noted.{fault_text, is_near, is_syntax_error, noted_in};
ghost use Rattle.snl_report.specs.Noted.{noted_text, related_text, said_of};

use snl_codes::Code;
use snl_cut::OutOfMemory;
use snl_kept::Diagnostic;
use snl_questions::{FaultNote, fault_note_of};
use snl_related::{Related, RelatedKind, Relations, words_of};
use snl_tables::Span;

/// Of which kind the note on a finding is, and what it says.
#[derive(Debug, Drop)]
pub enum Noted {
    Nothing,
    Related(Related),
    Fault(FaultNote),
}

/// A note: on which bytes of the text, in which words, and whether it is told beside the marks.
#[derive(Clone, Copy)]
pub struct Note<'a> {
    pub span: Span,
    pub words: &'a [u8],
    pub is_near: bool,
}

/// Whether it is a near name, which is told beside the marks.
fn is_near(kind: RelatedKind) -> bool
    ensures { result ≡ is_near kind }
{
    matches!(kind, RelatedKind::Near)
}

fn is_syntax_error(code: Code) -> bool
    ensures { result ≡ is_syntax_error code }
{
    matches!(code, Code::E02)
}

impl Noted {
    /// The note, if there is one.
    pub fn note(&self) -> Option<Note>
        ensures { option_map said_of result ≡ noted_in self.now }
    {
        match self {
            Noted::Nothing => None,
            Noted::Related(related) => Some(Note {
                span: related.span,
                words: words_of(related.kind),
                is_near: is_near(related.kind),
            }),
            Noted::Fault(fault) => Some(Note {
                span: Span {
                    start: fault.wanted,
                    len: 0,
                },
                words: fault.words.as_bytes(),
                is_near: false,
            }),
        }
    }
}

/// What may come where a token is at fault.
fn fault_noted(relations: &Relations, diagnostic: &Diagnostic) -> Result<Noted, OutOfMemory>
    requires { IsListed relations.now.items.text.now relations.now.lists.now }
    ensures { IfOk result (λ n. noted_in n
        ≡ fault_text relations.now.items.text.now diagnostic.now) }
{
    let note = fault_note_of(
        relations.alloc,
        relations.lists,
        &relations.items,
        diagnostic.offset,
    )?;
    Ok(match note {
        Some(fault) => Noted::Fault(fault),
        None => Noted::Nothing,
    })
}

fn related_noted(relations: &Relations, diagnostic: &Diagnostic) -> Result<Noted, OutOfMemory>
    requires { IsListed relations.now.items.text.now relations.now.lists.now }
    ensures { IfOk result (λ n. noted_in n
        ≡ related_text relations.now.items.text.now diagnostic.now) }
{
    Ok(match relations.related_to(diagnostic)? {
        Some(related) => Noted::Related(related),
        None => Noted::Nothing,
    })
}

/// The note on a diagnostic of a text.
pub fn find_note(relations: &Relations, diagnostic: &Diagnostic) -> Result<Noted, OutOfMemory>
    requires { IsListed relations.now.items.text.now relations.now.lists.now }
    ensures { IfOk result (λ n. noted_in n
        ≡ noted_text relations.now.items.text.now diagnostic.now) }
{
    if is_syntax_error(diagnostic.code) {
        fault_noted(relations, diagnostic)
    } else {
        related_noted(relations, diagnostic)
    }
}
