//! What a client's messages do, and what is answered.
//! In: one message after another. Out: what is said to each, after the bytes that are there.
//! Knows nothing of readers and writers.

ghost use Rattle.std.specs.Prelude.{◌≡◌, ◌++◌, OnOk};
ghost use Rattle.snl_hear.specs.Heard.{heard_in, heard_of};
ghost use Rattle.snl_hear.specs.Json.{json_in};
ghost use Rattle.snl_hear.specs.Notifications.{noted_of};
ghost use Rattle.snl_hear.specs.Requests.{asked_of};
ghost use Rattle.snl_say.specs.Answers.{id_data};
ghost use Rattle.snl_replies.specs.Replies.{framed_reply, said_of};

use crate::phase::Phase;
use crate::requests::answer_ready;
use json::Scratch;
use snl_cut::OutOfMemory;
use snl_document::{CheckedText, Document, change, close, lose, lose_all, open};
use snl_hear::{Body, Message, Notification, Request};
use snl_place::Encoding;
use snl_replies::{say_error, say_initialize};
use snl_say::{ErrorCode, Id};
use snl_talk::Answers;
use snl_turns::Turn;
use std::alloc::{AllocError, Global};
use std::marker::Model;

/// What a longer message is read with is let go.
const LONGEST_KEPT: usize = 65_536;

/// What is kept from one message to the next: the documents that are open, how their places are
/// counted, and how far the talk is.
#[derive(Drop)]
pub struct Docs<C: CheckedText> {
    documents: Vec<Document<C>>,
    encoding: Encoding,
    phase: Phase,
    // What a message is read with, once one was read.
    scratch: Option<Box<Scratch>>,
}

impl<C: CheckedText> Model for Docs<C> {
    ghost use Rattle.snl_docs.specs.Served.{Served};

    ghost Value = { Served };

    ghost view = { λ d. record {
      docs = d.documents.items;
      encoding = d.encoding;
      phase = d.phase;
    } };
}

impl<C: CheckedText + Drop> Docs<C> {
    ghost use Rattle.snl_docs.specs.Served.{after_heard, after_note, after_request, answer_in_phase, answer_first, asked_first, docs_after, replies_to, start, told_by, told_note, with_docs};

    /// Nothing is open, and `initialize` is to come.
    #[tactic(auto, unfolding(crate::specs::Served::start))]
    pub fn new(alloc: Global) -> Docs<C>
        ensures { result ≡ start }
    {
        Docs {
            documents: Vec::new(alloc),
            encoding: Encoding::Utf16,
            phase: Phase::New,
            scratch: None,
        }
    }

    /// What a message is read with: it is large, so it is kept from one message to the next.
    fn scratch(&mut self, alloc: Global) -> Result<Box<Scratch>, AllocError>
        ensures { self.new ≡ self.old }
    {
        match self.scratch.take() {
            Some(scratch) => Ok(scratch),
            None => Ok(Box::new(alloc, Scratch::new(alloc))?),
        }
    }

    /// Keeps it, unless so long a message was read that it takes much memory.
    fn keep(&mut self, scratch: Box<Scratch>, length: usize)
        ensures { self.new ≡ self.old }
    {
        if length <= LONGEST_KEPT {
            self.scratch = Some(scratch);
        }
    }

    #[tactic(auto, unfolding(snl_replies::specs::Replies::said_of))]
    fn hear(&mut self, message: Message<'_>, said: &mut Vec<u8>) -> Result<(), OutOfMemory>
        ensures state { OnOk result (self.new ≡ after_heard self.old (heard_of message.entry)) }
        ensures said { OnOk result (said.new.items ≡ said.old.items
            ++ said_of (replies_to C.says self.old (heard_of message.entry))) }
    {
        match message {
            Message::NoJson => {
                say_error(said, None, ErrorCode::ParseError)?;
                lose_all(&mut self.documents, self.encoding, said)
            }
            Message::NoMessage => {
                say_error(said, None, ErrorCode::InvalidRequest)?;
                Ok(())
            }
            Message::Response => Ok(()),
            Message::Request { id, request } => self.request(id, request, said),
            Message::Notification(told) => self.note(told, said),
        }
    }

    /// Reads the body of a message, and does what it says.
    #[tactic(auto, unfolding(snl_replies::specs::Replies::said_of))]
    fn hear_body(
        &mut self,
        bytes: &[u8],
        scratch: &mut Scratch,
        said: &mut Vec<u8>,
    ) -> Result<(), OutOfMemory>
        ensures state { OnOk result (self.new ≡ after_heard self.old (heard_in (json_in bytes.now))) }
        ensures said { OnOk result (said.new.items ≡ said.old.items
            ++ said_of (replies_to C.says self.old (heard_in (json_in bytes.now)))) }
    {
        let alloc = *said.allocator();
        let body = Body::read(alloc, bytes, scratch)?;
        let message = body.message(alloc)?;
        self.hear(message, said)
    }

    fn request(
        &mut self,
        id: Id<'_>,
        request: Request<'_>,
        said: &mut Vec<u8>,
    ) -> Result<(), OutOfMemory>
        ensures state { self.new ≡ after_request self.old.phase self.old (asked_of request.entry) }
        ensures said { OnOk result (said.new.items ≡ said.old.items
            ++ framed_reply (answer_in_phase C.says self.old.phase self.old.encoding self.old.docs
            (id_data id.entry) (asked_of request.entry))) }
    {
        match self.phase {
            Phase::New => self.request_first(id, request, said)?,
            Phase::Ready => {
                if let Request::Shutdown = request {
                    self.phase = Phase::Shut;
                }
                answer_ready(&self.documents, self.encoding, id, request, said)?;
            }
            Phase::Shut | Phase::Gone(_) => say_error(said, Some(id), ErrorCode::InvalidRequest)?,
        }
        Ok(())
    }

    /// A request before `initialize`, or that one.
    fn request_first(
        &mut self,
        id: Id<'_>,
        request: Request<'_>,
        said: &mut Vec<u8>,
    ) -> Result<(), AllocError>
        ensures state { self.new ≡ asked_first self.old (asked_of request.entry) }
        ensures said { OnOk result (said.new.items ≡ said.old.items
            ++ framed_reply (answer_first (id_data id.entry) (asked_of request.entry))) }
    {
        match request {
            Request::Initialize(encoding) => {
                self.encoding = encoding;
                self.phase = Phase::Ready;
                say_initialize(said, id, encoding)
            }
            Request::Shutdown
            | Request::OfDocument { .. }
            | Request::InvalidParams
            | Request::MethodNotFound => {
                say_error(said, Some(id), ErrorCode::ServerNotInitialized)
            }
        }
    }

    #[tactic(auto, unfolding(snl_replies::specs::Replies::said_of))]
    fn note(&mut self, told: Notification<'_>, said: &mut Vec<u8>) -> Result<(), OutOfMemory>
        ensures state { OnOk result (self.new ≡ after_note self.old (noted_of told.entry)) }
        ensures said { OnOk result (said.new.items ≡ said.old.items
            ++ said_of (told_note C.says self.old (noted_of told.entry))) }
    {
        if let Notification::Exit = told {
            self.phase = Phase::Gone(self.phase.is_shut());
            return Ok(());
        }
        if !self.phase.is_ready() {
            return Ok(());
        }
        self.note_ready(told, said)
    }

    /// A notification between `initialize` and `shutdown`.
    fn note_ready(&mut self, told: Notification<'_>, said: &mut Vec<u8>) -> Result<(), OutOfMemory>
        ensures state { OnOk result (self.new ≡ with_docs self.old
            (docs_after self.old.encoding self.old.docs (noted_of told.entry))) }
        ensures said { OnOk result (said.new.items ≡ said.old.items
            ++ said_of (told_by C.says self.old.encoding self.old.docs (noted_of told.entry))) }
    {
        let encoding = self.encoding;
        let documents = &mut self.documents;
        match told {
            Notification::DidOpen { uri, version, text } => {
                open(documents, encoding, uri, version, text, said)
            }
            Notification::DidChange {
                uri,
                version,
                changes,
            } => change(documents, encoding, uri, version, &changes, said),
            Notification::DidClose { uri } => close(documents, uri, said),
            Notification::InvalidParams { uri: Some(uri) } => lose(documents, encoding, uri, said),
            Notification::InvalidParams { uri: None } => lose_all(documents, encoding, said),
            Notification::Initialized | Notification::Exit | Notification::Other => Ok(()),
        }
    }
}

impl<C: CheckedText + Drop> Answers for Docs<C> {
    ghost use Rattle.snl_docs.specs.Served.{talk_by};

    ghost talk = { talk_by C.says };

    #[tactic(auto, using(snl_replies::specs::ReplyLaws::said_framed), unfolding(crate::specs::Served::after, crate::specs::Served::replies))]
    fn answer(&mut self, turn: Turn<'_>, said: &mut Vec<u8>) -> Result<(), OutOfMemory> {
        let Turn::Body(bytes) = turn else {
            return self.hear(Message::NoJson, said);
        };
        let alloc = *said.allocator();
        let mut scratch = self.scratch(alloc)?;
        self.hear_body(bytes, &mut scratch, said)?;
        self.keep(scratch, bytes.len());
        Ok(())
    }

    #[tactic(auto, unfolding(crate::specs::Served::ended_of))]
    fn ended(&self) -> Option<bool> {
        self.phase.ended()
    }
}
