//! Lists that have something for some numbers: what a list has for a number is found with no
//! look-up in a table.

ghost use Rattle.std.specs.Prelude.{◌≡◌, OnOk};
ghost use Rattle.snl_scope.specs.ByNumber.{IsPutAt, at_number};

use snl_cut::OutOfMemory;

/// What a list has for a number.
pub(crate) fn at_number<T: Copy>(list: &[Option<T>], number: usize) -> Option<T>
    ensures { result ≡ at_number list.now number }
{
    *list.get(number)?
}

/// Puts something in a list for a number. The list grows up to the number.
pub(crate) fn put_at<T: Copy + Drop>(
    list: &mut Vec<Option<T>>,
    number: usize,
    value: T,
) -> Result<(), OutOfMemory>
    ensures { OnOk result (IsPutAt list.old.items list.new.items number value) }
{
    while list.len() <= number {
        list.push(None)?;
    }
    list[number] = Some(value);
    Ok(())
}
