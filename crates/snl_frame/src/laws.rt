//! The laws of messages. A function here does nothing: its contract is the law.

ghost use Rattle.std.specs.Prelude.{◌≡◌, ◌≢◌, ◌≤◌, ◌<◌, ◌+◌, ◌*◌, ◌++◌, ℕ, List, length};
ghost use Rattle.snl_frame.specs.Frame.{Message, Unfinished, after_header, at_front, longest_body, longest_line, most_lines};
ghost use Rattle.snl_frame.specs.Framed.{AreFields, framed, given_by, header_text};
ghost use Rattle.snl_frame.specs.Front.{grown};

/// What is told of the front of some bytes stays told, whatever follows them. So messages are the
/// same in whatever pieces they are read.
pub fn messages_stay()
    ensures { (bytes more : List ℕ) → at_front bytes ≢ Unfinished
        → at_front (bytes ++ more) ≡ grown (at_front bytes) more }
{}

/// Headers read back: of at most 7 fields of any names the last length that is given counts, and
/// what follows the empty line is the body and the rest.
pub fn headers_read_back()
    ensures { (fields : List (List ℕ)) (rest : List ℕ) → length fields < most_lines
        → AreFields fields
        → at_front (header_text fields ++ rest) ≡ after_header (given_by None fields) rest }
{}

/// Messages read back: a body in its frame, followed by anything, is that body and the rest.
pub fn messages_read_back()
    ensures { (body more : List ℕ) → length body ≤ longest_body
        → at_front (framed body ++ more) ≡ Message body more }
{}

/// An unfinished message has at most the bytes of 8 lines with their LF and of the longest body.
/// So whoever waits for more keeps no more than these.
pub fn unfinished_are_bounded()
    ensures { (bytes : List ℕ) → at_front bytes ≡ Unfinished
        → length bytes ≤ most_lines * (longest_line + 1) + longest_body }
{}
