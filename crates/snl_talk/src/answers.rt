//! Whoever answers the messages of a client.

ghost use Rattle.std.specs.Prelude.{◌≡◌, ◌++◌, OnOk, flat_map};
ghost use Rattle.snl_frame.specs.Framed.{framed};
ghost use Rattle.snl_talk.specs.Talks.{Talk, after, ended_of, replies};
ghost use Rattle.snl_turns.specs.Turns.{turn_of};

use snl_cut::OutOfMemory;
use snl_turns::Turn;

/// Answers the messages of a client, one after another.
pub trait Answers {
    ghost talk: { Talk Self };

    /// Answers a message: each answer goes in its frame after the bytes that are there. After an
    /// `Err`, which is want of memory, nothing is known of what is kept, and what is said may be
    /// cut short: whoever asks is to end the talk.
    fn answer(&mut self, turn: Turn<'_>, said: &mut Vec<u8>) -> Result<(), OutOfMemory>
        ensures state { OnOk result (self.new ≡ after talk self.old (turn_of turn.entry)) }
        ensures said { OnOk result (said.new.items ≡ said.old.items
            ++ flat_map framed (replies talk self.old (turn_of turn.entry))) };

    /// Whether the talk ended after `shutdown`, once `exit` came.
    fn ended(&self) -> Option<bool>
        ensures { result ≡ ended_of talk self.now };
}
