//! Why a name is not to be another one, as far as words tell. In: what is kept of a text, an
//! offset, and both names. Out: the first objection, if there is one.

ghost use Rattle.snl_kept.specs.Kept.{IsListed};

use crate::faulty::{Names, faulty_use};
use crate::foreign::is_foreign;
use crate::places::line_at;
use crate::refusal::Refusal;
use crate::unread::unread_at;
use snl_cut::OutOfMemory;
use snl_kept::Lists;
use snl_questions::span_bytes;
use std::alloc::Global;

// That one of both names is in what is not read.
fn unread<'a>(text: &'a [u8], lists: &Lists, name: &'a [u8]) -> Option<Refusal<'a>>
    requires { IsListed text.now lists.now }
{
    let offset = unread_at(text, &lists.pieces, name)?;
    Some(Refusal::Unread {
        name,
        line: line_at(text, lists, offset),
    })
}

// That one of both names is in a faulty item.
fn faulty<'a>(
    alloc: Global,
    text: &'a [u8],
    lists: &Lists,
    names: Names<'a>,
) -> Result<Option<Refusal<'a>>, OutOfMemory>
    requires { IsListed text.now lists.now }
{
    let Some(span) = faulty_use(alloc, text, lists, names)? else {
        return Ok(None);
    };
    Ok(Some(Refusal::Faulty {
        name: span_bytes(text, span),
        line: line_at(text, lists, span.start),
    }))
}

/// The first objection to a new name for that near an offset: C code declares the old one, or one
/// of both is in C code, in a line of the preprocessor or in a faulty item, where what it means is
/// not known.
pub fn objection<'a>(
    alloc: Global,
    text: &'a [u8],
    lists: &Lists,
    offset: usize,
    names: Names<'a>,
) -> Result<Option<Refusal<'a>>, OutOfMemory>
    requires { IsListed text.now lists.now }
{
    if is_foreign(alloc, text, lists, offset)? {
        return Ok(Some(Refusal::Foreign { name: names.old }));
    }
    if let Some(refusal) = unread(text, lists, names.old) {
        return Ok(Some(refusal));
    }
    if let Some(refusal) = unread(text, lists, names.new) {
        return Ok(Some(refusal));
    }
    faulty(alloc, text, lists, names)
}
