//! A text that is checked, and what it says, as a client is told it.

ghost use Rattle.std.specs.Prelude.{◌≡◌, ◌≤◌, ℕ, [], IfOk, List, OnErr, OnOk, length, map};
ghost use Rattle.snl_lex.specs.LineList.{line_ends};
ghost use Rattle.snl_lex.specs.Edit.{spliced};
ghost use Rattle.snl_say.specs.Answered.{answered_of};
ghost use Rattle.snl_say.specs.Publish.{found_of};
ghost use Rattle.snl_hear.specs.Requests.{query_of};
ghost use Rattle.snl_document.specs.Says.{Says};
ghost use Rattle.snl_document.specs.Texts.{limit};

use snl_cut::OutOfMemory;
use snl_hear::Question;
use snl_place::Encoding;
use snl_say::{Answer, Shown};
use std::alloc::Global;

/// A text that is checked after each edit, and what it says. All that it says is what the text
/// alone defines.
pub trait CheckedText {
    ghost text_of: { Self → List ℕ };

    ghost says: { Says };

    /// The empty text.
    fn empty(alloc: Global) -> Result<Self, OutOfMemory>
        ensures { IfOk result (λ checked. text_of checked ≡ []) };

    /// Puts other bytes in the place of those from `start` up to `stop`. The only refusal is that
    /// of memory, and changes nothing.
    fn edit(&mut self, start: usize, stop: usize, new: &[u8]) -> Result<(), OutOfMemory>
        requires order { start ≤ stop }
        requires inside { stop ≤ length (text_of self.old) }
        requires fits { length (spliced (text_of self.old) start stop new.now) ≤ limit }
        ensures ok { OnOk result (text_of self.new
            ≡ spliced (text_of self.old) start stop new.now) }
        ensures err { OnErr result (text_of self.new ≡ text_of self.old) };

    /// The text.
    fn text(&self) -> &[u8]
        ensures text { result.now ≡ text_of self.now }
        ensures size { length result.now ≤ limit };

    /// Where its lines end.
    fn line_ends(&self) -> &[usize]
        ensures { result.now ≡ line_ends (text_of self.now) };

    /// What is found in it, as it is published.
    fn found(&self, alloc: Global, encoding: Encoding) -> Result<Vec<Shown<'_>>, OutOfMemory>
        ensures { IfOk result (λ shown. map (λ s. found_of s) shown.items
            ≡ says.found_in encoding (text_of self.now)) };

    /// The answer to a question on it.
    fn answer(
        &self,
        alloc: Global,
        encoding: Encoding,
        question: Question,
    ) -> Result<Answer<'_>, OutOfMemory>
        ensures { IfOk result (λ answer. answered_of answer
            ≡ says.answer_in encoding (text_of self.now) (query_of question)) };
}
