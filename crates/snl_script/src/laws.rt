//! The laws of scripts. A function here does nothing: its contract is the law.
#![tactic(auto)]

ghost use Rattle.std.specs.Prelude.{◌≡◌, ℕ, List, ◌++◌};
ghost use Rattle.snl_script.specs.Script.{Request, Then, next_of};
ghost use Rattle.snl_script.specs.Spelled.{IsSpelled};

/// A command that is whole at the front of some bytes is the one at their front, whatever follows
/// them: so a script means the same in whatever pieces it is read.
pub fn whole_commands_stay()
    ensures { (bytes more left : List ℕ) (request : Request) → next_of bytes ≡ Then request left
        → next_of (bytes ++ more) ≡ Then request (left ++ more) }
{}

/// A script reads back: the bytes of a command, followed by anything, are that command and the
/// rest.
pub fn commands_read_back()
    ensures { (request : Request) (bytes more : List ℕ) → IsSpelled request bytes
        → next_of (bytes ++ more) ≡ Then request more }
{}
