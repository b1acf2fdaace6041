//! The letters of options: a tree comes in, findings at the single bytes of tokens that are not
//! known, and what an option says of warnings, go out. It knows nothing of other items' options.

ghost use Rattle.std.specs.Prelude.{◌≡◌, ◌++◌, OnOk};
ghost use Rattle.std.specs.List.{flat_map};
ghost use Rattle.snl_walk.specs.Tokens.{IsSource, token_bytes};
ghost use Rattle.snl_item_check.specs.Options.{is_on, unknown_in_member, unknown_letters, unknown_options, warning_setting};
ghost use Rattle.snl_item_check.specs.View.{is_in_set};

use crate::findings::ItemFault;
use crate::view::View;
use snl_codes::Code;
use snl_cut::OutOfMemory;
use snl_grammar::tree::clause::{OptionLine, OptionSign};
use snl_grammar::tree::item::Item;
use snl_grammar::tree::state::StateMember;
use snl_scope::Links;
use snl_walk::Source;

/// The options of a program.
const PROGRAM_LETTERS: &[u8] = b"acdeilmrswW";

/// The options of a state.
const STATE_LETTERS: &[u8] = b"tex";

/// The option of a program that says whether warnings are shown.
const WARNINGS: u8 = b'w';

// Adds a finding at each letter of an option that is not among the known ones.
fn add_letters(
    source: &Source,
    known: &[u8],
    line: OptionLine,
    faults: &mut Vec<ItemFault>,
) -> Result<(), OutOfMemory>
    requires { IsSource source.now.text.now source.now.tokens.now }
    ensures { OnOk result (faults.new.items ≡ faults.old.items
        ++ unknown_letters (token_bytes source.now.text.now source.now.tokens.now) known.now line) }
{
    let letters = source.bytes(line.letters);
    for (byte, letter) in letters.iter().enumerate() {
        if !known.contains(letter) {
            faults.push(ItemFault {
                token: line.letters,
                byte,
                code: Code::W04,
            })?;
        }
    }
    Ok(())
}

fn add_state(
    source: &Source,
    members: &[StateMember],
    faults: &mut Vec<ItemFault>,
) -> Result<(), OutOfMemory>
    requires { IsSource source.now.text.now source.now.tokens.now }
    ensures { OnOk result (faults.new.items ≡ faults.old.items
        ++ flat_map (unknown_in_member
        (token_bytes source.now.text.now source.now.tokens.now)) members.now) }
{
    for member in members {
        if let StateMember::OptionLine(line) = member {
            add_letters(source, STATE_LETTERS, *line, faults)?;
        }
    }
    Ok(())
}

/// Adds a finding at each unknown letter of the options of an item. One that is in a state set and
/// in no state is out of place, and sets nothing.
pub(crate) fn add_unknown_options(
    source: &Source,
    tree: &Item,
    view: &View,
    faults: &mut Vec<ItemFault>,
) -> Result<(), OutOfMemory>
    requires { IsSource source.now.text.now source.now.tokens.now }
    ensures { OnOk result (faults.new.items ≡ faults.old.items
        ++ unknown_options (token_bytes source.now.text.now source.now.tokens.now)
        (is_in_set view.now.links.now.outlines view.now.item) tree.now) }
{
    match tree {
        Item::OptionLine(line) => {
            if view.is_in_set() {
                return Ok(());
            }
            add_letters(source, PROGRAM_LETTERS, *line, faults)
        }
        Item::StateBlock { name: _, members } => add_state(source, members.as_slice(), faults),
        Item::Header {
            name: _,
            parameters: _,
        }
        | Item::Definition(_)
        | Item::Foreign(_)
        | Item::Clause(_)
        | Item::Entry(_)
        | Item::Exit(_)
        | Item::SsBegin { name: _ }
        | Item::SsEnd
        | Item::Function(_)
        | Item::StructDef {
            name: _,
            members: _,
        }
        | Item::CBlock(_)
        | Item::Empty => Ok(()),
    }
}

/// Whether an option sets its letters.
pub fn is_on(sign: OptionSign) -> bool
    ensures { result ≡ is_on sign }
{
    match sign {
        OptionSign::Plus => true,
        OptionSign::Minus => false,
    }
}

/// Whether an item turns warnings on or off, if it does one of them. One that is in a state set is
/// out of place, and does neither.
pub fn warning_setting(source: &Source, tree: &Item, links: &Links, item: usize) -> Option<bool>
    requires { IsSource source.now.text.now source.now.tokens.now }
    ensures { result ≡ warning_setting (token_bytes source.now.text.now source.now.tokens.now)
        (is_in_set links.now.outlines item) tree.now }
{
    let Item::OptionLine(line) = tree else {
        return None;
    };
    let view = View { links, item };
    if !view.is_in_set() && source.bytes(line.letters).contains(&WARNINGS) {
        Some(is_on(line.sign))
    } else {
        None
    }
}
