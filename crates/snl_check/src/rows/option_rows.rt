//! The rows of options: the items of a text, or the members of a state, come in; the last setting
//! of each known letter goes out.

ghost use Rattle.std.specs.Prelude.{◌≡◌, ◌++◌, IfOk, OnOk, map, option_map};
ghost use Rattle.std.specs.List.{flat_map};
ghost use Rattle.snl_walk.specs.Tokens.{IsSource, token_bytes};
ghost use Rattle.snl_check.specs.ItemTokens.{own_tokens};
ghost use Rattle.snl_check.specs.Collected.{IsRowSource, over};
ghost use Rattle.snl_check.specs.SettingTrees.{as_setting};
ghost use Rattle.snl_check.specs.Settings.{last_setting, option_rows, program_options, program_settings, setting_at, setting_of, settings_in_member, state_options};

use crate::rows::item_source::ItemSource;
use crate::rows::row_source::RowSource;
use snl_cut::OutOfMemory;
use snl_grammar::tree::clause::OptionLine;
use snl_grammar::tree::item::Item;
use snl_grammar::tree::state::StateMember;
use snl_item_check::{View, is_on};
use snl_tables::OptionRow;
use std::alloc::Global;

/// The letters of a program's options, by rising bytes.
const PROGRAM_LETTERS: &[u8] = b"Wacdeilmrsw";

/// The letters of a state's options, by rising bytes.
const STATE_LETTERS: &[u8] = b"etx";

/// The letters of an option, and whether it sets them.
#[derive(Clone, Copy)]
struct LetterSetting<'a> {
    letters: &'a [u8],
    is_set: bool,
}

fn setting_of<'a>(source: &ItemSource<'a>, line: OptionLine) -> LetterSetting<'a>
    requires { IsSource source.now.text.now (own_tokens source.now) }
    ensures { as_setting result
        ≡ setting_of (token_bytes source.now.text.now (own_tokens source.now)) line }
{
    LetterSetting {
        letters: source.bytes(line.letters),
        is_set: is_on(line.sign),
    }
}

// The last setting of a letter.
fn last_setting(letter: u8, settings: &[LetterSetting]) -> Option<bool>
    ensures { result ≡ last_setting letter (map as_setting settings.now) }
{
    let mut last = None;
    for setting in settings {
        if setting.letters.contains(&letter) {
            last = Some(setting.is_set);
        }
    }
    last
}

// A row for each of the letters that is set or unset.
fn option_rows(
    alloc: Global,
    letters: &[u8],
    settings: &[LetterSetting],
) -> Result<Vec<OptionRow>, OutOfMemory>
    ensures { IfOk result (λ rows. rows.items
        ≡ option_rows letters.now (map as_setting settings.now)) }
{
    let mut rows = Vec::new(alloc);
    for letter in letters {
        if let Some(is_set) = last_setting(*letter, settings) {
            rows.push(OptionRow {
                letter: *letter,
                is_set,
            })?;
        }
    }
    Ok(rows)
}

// What an item sets for the program. Its tree is looked at only where it is an option.
fn setting_at<'a>(row_source: &RowSource<'a>, item: usize) -> Option<LetterSetting<'a>>
    requires { IsRowSource row_source.now }
    ensures { option_map as_setting result ≡ over row_source.now setting_at item }
{
    if !row_source.program.kind(item).is_option() {
        return None;
    }
    let view = View {
        links: row_source.links,
        item,
    };
    if view.is_in_set() {
        return None;
    }
    match row_source.program.tree(item)? {
        Item::OptionLine(line) => Some(setting_of(&row_source.program.source(item), *line)),
        _ => None,
    }
}

fn program_settings<'a>(row_source: &RowSource<'a>) -> Result<Vec<LetterSetting<'a>>, OutOfMemory>
    requires { IsRowSource row_source.now }
    ensures { IfOk result (λ settings. map as_setting settings.items
        ≡ over row_source.now program_settings) }
{
    let mut settings = Vec::new(row_source.program.alloc);
    for item in 0..row_source.program.trees.len() {
        if let Some(setting) = setting_at(row_source, item) {
            settings.push(setting)?;
        }
    }
    Ok(settings)
}

/// The options of a program.
pub(crate) fn program_options(row_source: &RowSource) -> Result<Vec<OptionRow>, OutOfMemory>
    requires { IsRowSource row_source.now }
    ensures { IfOk result (λ rows. rows.items ≡ over row_source.now program_options) }
{
    let settings = program_settings(row_source)?;
    option_rows(row_source.program.alloc, PROGRAM_LETTERS, &settings)
}

// Adds the settings among the members of a state.
fn add_settings<'a>(
    source: &ItemSource<'a>,
    members: &[StateMember],
    settings: &mut Vec<LetterSetting<'a>>,
) -> Result<(), OutOfMemory>
    requires { IsSource source.now.text.now (own_tokens source.now) }
    ensures { OnOk result (map as_setting settings.new.items
        ≡ map as_setting settings.old.items
        ++ flat_map (settings_in_member
        (token_bytes source.now.text.now (own_tokens source.now))) members.now) }
{
    for member in members {
        if let StateMember::OptionLine(line) = member {
            settings.push(setting_of(source, *line))?;
        }
    }
    Ok(())
}

/// The options of a state, by its members.
pub(crate) fn state_options(
    source: &ItemSource,
    members: &[StateMember],
) -> Result<Vec<OptionRow>, OutOfMemory>
    requires { IsSource source.now.text.now (own_tokens source.now) }
    ensures { IfOk result (λ rows. rows.items
        ≡ state_options (token_bytes source.now.text.now (own_tokens source.now)) members.now) }
{
    let mut settings = Vec::new(source.alloc);
    add_settings(source, members, &mut settings)?;
    option_rows(source.alloc, STATE_LETTERS, &settings)
}
