//! What is answered to a request on a document, whatever its method is.
//! In: the id of the request, the URI of the document, and the answer. Out: the bytes of the
//! answer, after those that are there. Knows nothing of methods, and of texts.

ghost use Rattle.std.specs.Prelude.{◌≡◌, ◌++◌, OnOk};
ghost use Rattle.snl_say.specs.Answered.{answered_of, answered_with};
ghost use Rattle.snl_say.specs.Answers.{id_data};

use crate::answers::{Id, put_null};
use crate::hover::put_hover;
use crate::location::put_location;
use crate::parts::{put_locations, put_ranges};
use crate::symbols::{ShownSymbol, put_symbols};
use snl_place::Place;
use std::alloc::AllocError;

/// An answer by its shape. Methods that answer alike share one.
#[derive(Drop)]
pub enum Answer<'a> {
    /// There is nothing to tell: `null`.
    Nothing,
    /// The part of the document from `start` up to `stop`.
    Location {
        start: Place,
        stop: Place,
    },
    /// What is told of that part, as plain text of one line or more.
    Hover {
        contents: Vec<u8>,
        start: Place,
        stop: Place,
    },
    /// Symbols of the document, in its order, each with its depth.
    Symbols(Vec<ShownSymbol<'a>>),
    /// Parts of the document, each from a place up to another one.
    Locations(Vec<(Place, Place)>),
    /// The same, by their ranges alone: whoever asks knows of which document they are.
    Ranges(Vec<(Place, Place)>),
}

/// An answer. `quoted_uri` is the URI of the document as `put_quoted` writes it. An `Err`, of
/// memory, may leave a front of the bytes.
pub fn put_answer(
    out: &mut Vec<u8>,
    id: Id<'_>,
    quoted_uri: &[u8],
    answer: &Answer<'_>,
) -> Result<(), AllocError>
    ensures { OnOk result (out.new.items ≡ out.old.items
        ++ answered_with (id_data id.entry) quoted_uri.now (answered_of answer.now)) }
{
    match answer {
        Answer::Nothing => put_null(out, id),
        Answer::Location { start, stop } => put_location(out, id, quoted_uri, *start, *stop),
        Answer::Hover {
            contents,
            start,
            stop,
        } => put_hover(out, id, contents, *start, *stop),
        Answer::Symbols(symbols) => put_symbols(out, id, symbols),
        Answer::Locations(parts) => put_locations(out, id, quoted_uri, parts),
        Answer::Ranges(parts) => put_ranges(out, id, parts),
    }
}
