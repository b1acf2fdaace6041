//! The documents that are open.
//! In: what a client tells of a document, by its URI. Out: what the client is told.
//! Knows nothing of messages, and of what is asked.

ghost use Rattle.std.specs.Prelude.{◌≡◌, ◌++◌, ◌∷◌, [], None, OnOk, map, option_map, position};
ghost use Rattle.snl_hear.specs.Changes.{changed_of};
ghost use Rattle.snl_document.specs.Documents.{after_changes, document_of, is_named, lost, opened, put, updated, without};
ghost use Rattle.snl_replies.specs.Replies.{Publish, framed_reply, said_of};
ghost use Rattle.snl_document.specs.Told.{told, told_of_all, told_of_named};

use crate::checked::CheckedText;
use crate::document::{Document, quoted_uri};
use snl_cut::OutOfMemory;
use snl_hear::Change;
use snl_place::Encoding;
use snl_replies::say_found;
use snl_say::WrittenItems;
use std::alloc::AllocError;

/// The number of the document with this URI.
fn find<C: CheckedText + Drop>(documents: &[Document<C>], uri: &str) -> Option<usize>
    ensures { result ≡ position (is_named uri.now) documents.now }
{
    documents.iter().position(|document| document.is_named(uri))
}

/// The document of this URI, if it is open.
pub fn document_of<'a, C: CheckedText + Drop>(
    documents: &'a [Document<C>],
    uri: &str,
) -> Option<&'a Document<C>>
    ensures { option_map (λ document. document.now) result ≡ document_of uri.now documents.now }
{
    match find(documents, uri) {
        Some(at) => Some(&documents[at]),
        None => None,
    }
}

/// Puts a document in the place of that of its URI, or after all others.
fn put<C: CheckedText + Drop>(
    documents: &mut Vec<Document<C>>,
    uri: &str,
    document: Document<C>,
) -> Result<(), OutOfMemory>
    requires { document.uri ≡ uri.now }
    ensures { OnOk result (documents.new.items ≡ put document documents.old.items) }
{
    match find(documents, uri) {
        Some(at) => documents[at] = document,
        None => documents.push(document)?,
    }
    Ok(())
}

/// Opens a document, and tells the client how it is.
pub fn open<C: CheckedText + Drop>(
    documents: &mut Vec<Document<C>>,
    encoding: Encoding,
    uri: &str,
    version: Option<u64>,
    text: &str,
    said: &mut Vec<u8>,
) -> Result<(), OutOfMemory>
    ensures state { OnOk result (documents.new.items
        ≡ put (opened uri.now version text.now) documents.old.items) }
    ensures said { OnOk result (said.new.items ≡ said.old.items
        ++ said_of (told C.says encoding (opened uri.now version text.now))) }
{
    let mut document = Document::open(*said.allocator(), uri, version, text)?;
    document.tell(encoding, said)?;
    put(documents, uri, document)
}

/// Makes the changes of one message in the document of this URI, if it is open.
pub fn change<C: CheckedText + Drop>(
    documents: &mut [Document<C>],
    encoding: Encoding,
    uri: &str,
    version: Option<u64>,
    changes: &[Change<'_>],
    said: &mut Vec<u8>,
) -> Result<(), OutOfMemory>
    ensures state { OnOk result (documents.new ≡ updated uri.now
        (after_changes encoding version (map (λ change. changed_of change) changes.now))
        documents.old) }
    ensures said { OnOk result (said.new.items ≡ said.old.items
        ++ said_of (told_of_named C.says encoding uri.now
        (after_changes encoding version (map (λ change. changed_of change) changes.now))
        documents.old)) }
{
    match find(documents, uri) {
        Some(at) => documents[at].change(encoding, version, changes, said),
        None => Ok(()),
    }
}

fn remove<C: CheckedText + Drop>(documents: &mut Vec<Document<C>>, uri: &str)
    ensures { documents.new.items ≡ without uri.now documents.old.items }
{
    documents.retain(|document| !document.is_named(uri));
}

/// Tells the client that nothing is found any more in a document.
#[tactic(auto, using(snl_replies::specs::ReplyLaws::publish_framed))]
fn say_closed(said: &mut Vec<u8>, uri: &str) -> Result<(), AllocError>
    ensures { OnOk result (said.new.items ≡ said.old.items
        ++ framed_reply (Publish [] uri.now None)) }
{
    let alloc = *said.allocator();
    let quoted = quoted_uri(alloc, uri)?;
    say_found(said, &quoted, None, &[], &mut WrittenItems::new(alloc))
}

/// Closes the document of this URI, if it is open. The client is told so in any case.
#[tactic(auto, unfolding(snl_replies::specs::Replies::said_of))]
pub fn close<C: CheckedText + Drop>(
    documents: &mut Vec<Document<C>>,
    uri: &str,
    said: &mut Vec<u8>,
) -> Result<(), OutOfMemory>
    ensures state { documents.new.items ≡ without uri.now documents.old.items }
    ensures said { OnOk result (said.new.items ≡ said.old.items
        ++ said_of (Publish [] uri.now None ∷ [])) }
{
    remove(documents, uri);
    say_closed(said, uri)?;
    Ok(())
}

/// Lets go the text of the document of this URI, if it is open.
pub fn lose<C: CheckedText + Drop>(
    documents: &mut [Document<C>],
    encoding: Encoding,
    uri: &str,
    said: &mut Vec<u8>,
) -> Result<(), OutOfMemory>
    ensures state { documents.new ≡ updated uri.now lost documents.old }
    ensures said { OnOk result (said.new.items ≡ said.old.items
        ++ said_of (told_of_named C.says encoding uri.now lost documents.old)) }
{
    match find(documents, uri) {
        Some(at) => documents[at].lose(encoding, said),
        None => Ok(()),
    }
}

/// Lets go the texts of all.
pub fn lose_all<C: CheckedText + Drop>(
    documents: &mut [Document<C>],
    encoding: Encoding,
    said: &mut Vec<u8>,
) -> Result<(), OutOfMemory>
    ensures state { OnOk result (documents.new ≡ map lost documents.old) }
    ensures said { OnOk result (said.new.items ≡ said.old.items
        ++ said_of (told_of_all C.says encoding documents.old)) }
{
    for document in documents {
        document.lose(encoding, said)?;
    }
    Ok(())
}
