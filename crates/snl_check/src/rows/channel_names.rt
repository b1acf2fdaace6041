//! Names of channels: the strings of a clause come in, what is between their quotes goes out,
//! joined.

ghost use Rattle.std.specs.Prelude.{◌≡◌, IfOk};
ghost use Rattle.snl_walk.specs.Tokens.{IsSource};
ghost use Rattle.snl_check.specs.ItemTokens.{own_tokens};
ghost use Rattle.snl_check.specs.Channels.{between_quotes, joined};

use crate::rows::item_source::ItemSource;
use snl_cut::OutOfMemory;
use snl_scope::Name;

// The bytes between the quotes of a string.
fn between_quotes(string: &[u8]) -> &[u8]
    ensures { result.now ≡ between_quotes string.now }
{
    if string.len() < 2 {
        return &[];
    }
    &string[1..string.len() - 1]
}

// What is between the quotes of strings, one after another.
fn joined_all(source: &ItemSource, strings: &[usize]) -> Result<Name, OutOfMemory>
    requires { IsSource source.now.text.now (own_tokens source.now) }
    ensures { IfOk result (λ name. name
        ≡ joined source.now.text.now (own_tokens source.now) strings.now) }
{
    let mut bytes = Vec::new(source.alloc);
    for string in strings {
        if bytes
            .extend_from_slice(between_quotes(source.bytes(*string)))
            .is_err()
        {
            return Err(OutOfMemory);
        }
    }
    Name::new(source.alloc, &bytes)
}

/// What is between the quotes of strings, joined. Nearly all names are of one string, and are
/// copied once.
pub(crate) fn joined(source: &ItemSource, strings: &[usize]) -> Result<Name, OutOfMemory>
    requires { IsSource source.now.text.now (own_tokens source.now) }
    ensures { IfOk result (λ name. name
        ≡ joined source.now.text.now (own_tokens source.now) strings.now) }
{
    match strings {
        [string] => Name::new(source.alloc, between_quotes(source.bytes(*string))),
        _ => joined_all(source, strings),
    }
}
