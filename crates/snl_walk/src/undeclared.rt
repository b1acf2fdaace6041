//! Names that nothing declares.

ghost use Rattle.std.specs.Prelude.{◌≡◌, [], ◌∷◌, ◌++◌, IfOk, OnOk, bytes_eq, if◌then◌else◌};
ghost use Rattle.std.specs.List.{list_any};
ghost use Rattle.snl_walk.specs.Once.{with_new};
ghost use Rattle.snl_walk.specs.Undeclared.{is_built_in, is_channel_constant, is_constant, is_undeclared, undeclared};
ghost use Rattle.snl_walk.specs.Tokens.{IsSource, bytes_in};

use crate::name_set::NameSet;
use crate::occurrence::Occurrence;
use crate::other_items::OtherItems;
use crate::rules::passes;
use crate::source::Source;
use crate::used::is_use;
use snl_cut::OutOfMemory;
use snl_facts::are_same_bytes;

fn is_constant(name: &[u8]) -> bool
    ensures { result ≡ is_constant name.now }
{
    are_same_bytes(name, b"TRUE")
        || are_same_bytes(name, b"FALSE")
        || are_same_bytes(name, b"SYNC")
        || are_same_bytes(name, b"ASYNC")
        || are_same_bytes(name, b"NOEVFLAG")
}

fn is_channel_constant(name: &[u8]) -> bool
    ensures { result ≡ is_channel_constant name.now }
{
    name.starts_with(b"pvStat") || name.starts_with(b"pvSevr")
}

fn is_built_in(name: &[u8]) -> bool
    ensures { result ≡ is_built_in name.now }
{
    is_constant(name) || is_channel_constant(name)
}

fn is_undeclared<O: OtherItems>(others: &O, name: &[u8], occurrence: Occurrence) -> bool
    ensures { result ≡ is_undeclared (O.outer_of others.now) name.now occurrence }
{
    is_use(occurrence.what)
        && passes(others, name, occurrence.means).is_none()
        && !is_built_in(name)
}

// Adds a token with a name, if that is no name of those before.
fn add_first<'a>(
    names: &mut NameSet<'a>,
    name: &'a [u8],
    token: usize,
    firsts: &mut Vec<usize>,
) -> Result<(), OutOfMemory>
    ensures names { OnOk result (names.new ≡ with_new names.old name.now) }
    ensures firsts { OnOk result (firsts.new.items ≡ firsts.old.items
        ++ (if list_any (bytes_eq name.now) names.old then [] else token ∷ [])) }
{
    if names.add(name)? {
        firsts.push(token)?;
    }
    Ok(())
}

/// The first use of each name that nothing declares, in the item or outside.
pub(crate) fn undeclared<O: OtherItems>(
    source: &Source,
    others: &O,
    found: &[Occurrence],
) -> Result<Vec<usize>, OutOfMemory>
    requires { IsSource source.now.text.now source.now.tokens.now }
    ensures { IfOk result
        (λ v. v.items ≡ undeclared (bytes_in source.now) (O.outer_of others.now) found.now) }
{
    let mut names = NameSet::new(source.alloc);
    let mut firsts = Vec::new(source.alloc);
    for occurrence in found {
        let name = source.bytes(occurrence.token);
        if is_undeclared(others, name, *occurrence) {
            add_first(&mut names, name, occurrence.token, &mut firsts)?;
        }
    }
    Ok(firsts)
}
