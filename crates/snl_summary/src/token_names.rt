//! The names at the tokens of an item: the tokens' numbers come in, copies of the names go out.

ghost use Rattle.snl_summary.specs.Summaries.Tokens.{name_ref_at};
ghost use Rattle.snl_walk.specs.Once.{once};
ghost use Rattle.snl_walk.specs.Tokens.{IsSource, bytes_in};
ghost use Rattle.std.specs.Prelude.{◌≡◌, IfOk, map};

use crate::name::Name;
use crate::summary::NameRef;
use snl_cut::OutOfMemory;
use snl_walk::{NameSet, Source};
use sqlite_items::Items;

/// A copy of the bytes of a token.
pub(crate) fn name_at(source: &Source, number: usize) -> Result<Name, OutOfMemory>
    requires { IsSource source.now.text.now source.now.tokens.now }
    ensures { IfOk result (λ n. n ≡ bytes_in source.now number) }
{
    Name::new(source.alloc, source.bytes(number))
}

/// The name at a token.
pub(crate) fn name_ref_at(source: &Source, number: usize) -> Result<NameRef, OutOfMemory>
    requires { IsSource source.now.text.now source.now.tokens.now }
    ensures { IfOk result (λ m. m ≡ name_ref_at source.now.text.now source.now.tokens.now number) }
{
    Ok(NameRef {
        name: name_at(source, number)?,
        token: number,
    })
}

/// The names at tokens, each with its token.
pub(crate) fn name_refs(source: &Source, numbers: &[usize]) -> Result<Items<NameRef>, OutOfMemory>
    requires { IsSource source.now.text.now source.now.tokens.now }
    ensures { IfOk result
        (λ m. m ≡ map (name_ref_at source.now.text.now source.now.tokens.now) numbers.now) }
{
    let mut name_refs = Vec::with_capacity(source.alloc, numbers.len())?;
    for number in numbers {
        name_refs.push(name_ref_at(source, *number)?)?;
    }
    Ok(Items::from_vec(name_refs))
}

/// The names at tokens, each once, in the order in which they come first.
pub(crate) fn names_once(source: &Source, numbers: &[usize]) -> Result<Items<Name>, OutOfMemory>
    requires { IsSource source.now.text.now source.now.tokens.now }
    ensures { IfOk result (λ names. names ≡ once (map (bytes_in source.now) numbers.now)) }
{
    let mut found = NameSet::new(source.alloc);
    let mut names = Vec::new(source.alloc);
    for number in numbers {
        let name = source.bytes(*number);
        if found.add(name)? {
            names.push(Name::new(source.alloc, name)?)?;
        }
    }
    Ok(Items::from_vec(names))
}
