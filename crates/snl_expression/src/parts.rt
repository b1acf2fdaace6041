//! Puts parts of a tree together. The parts are of any type, so that the proof of what is freed on
//! the way out looks into no tree.

ghost use Rattle.std.specs.Prelude.{◌≡◌, [], ◌∷◌, ◌++◌, IfOk, option_to_list};

use sqlite_items::{Boxed, Items};
use std::alloc::{AllocError, Global};

/// A list of one element, with room for no more.
pub fn single<T: Drop>(alloc: Global, item: T) -> Result<Items<T>, AllocError>
    ensures { IfOk result (λ all. all ≡ item ∷ []) }
{
    let mut items = Vec::with_capacity(alloc, 1)?;
    items.push(item)?;
    Ok(Items::from_vec(items))
}

// A list of two elements, with room for no more.
fn two<T: Drop>(alloc: Global, first: T, second: T) -> Result<Items<T>, AllocError>
    ensures { IfOk result (λ all. all ≡ first ∷ second ∷ []) }
{
    let mut items = Vec::with_capacity(alloc, 2)?;
    items.push(first)?;
    items.push(second)?;
    Ok(Items::from_vec(items))
}

/// The elements of a list, and one more. Most lists have one element or two, so these get room for
/// themselves alone.
pub fn with<T: Drop>(alloc: Global, found: Items<T>, item: T) -> Result<Items<T>, AllocError>
    ensures { IfOk result (λ all. all ≡ found ++ item ∷ []) }
{
    let mut found = found;
    if found.len() > 1 {
        found.push(item)?;
        return Ok(found);
    }
    match found.pop() {
        Some(first) => two(alloc, first, item),
        None => single(alloc, item),
    }
}

/// The elements of a list, with a last one if there is one, and a value that comes after them.
pub fn ended<T: Drop, A: Drop>(
    alloc: Global,
    found: Items<T>,
    last: Option<T>,
    value: A,
) -> Result<(Items<T>, A), AllocError>
    ensures { IfOk result (λ all. all ≡ (found ++ option_to_list last, value)) }
{
    let all = match last {
        Some(item) => with(alloc, found, item)?,
        None => found,
    };
    Ok((all, value))
}

/// A value beside another in a box.
pub fn one_boxed<A: Drop, B: Drop>(
    alloc: Global,
    one: A,
    other: B,
) -> Result<(A, Boxed<B>), AllocError>
    ensures { IfOk result (λ r. r ≡ (one, other)) }
{
    let other = Boxed::new(alloc, other)?;
    Ok((one, other))
}

/// Two values in a box each.
pub fn both_boxed<A: Drop, B: Drop>(
    alloc: Global,
    one: A,
    other: B,
) -> Result<(Boxed<A>, Boxed<B>), AllocError>
    ensures { IfOk result (λ r. r ≡ (one, other)) }
{
    let one = Boxed::new(alloc, one)?;
    let other = Boxed::new(alloc, other)?;
    Ok((one, other))
}
