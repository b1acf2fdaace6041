//! The rows of event flags.

ghost use Rattle.std.specs.Prelude.{◌≡◌, IfOk};
ghost use Rattle.snl_check.specs.Collected.{IsRowSource, items_in};
ghost use Rattle.snl_check.specs.Tables.{flag_row_at, flag_rows};

use crate::rows::row_source::RowSource;
use snl_cut::OutOfMemory;
use snl_tables::FlagRow;

// The row of the flag that is the declaration with a number.
fn flag_row_at(row_source: &RowSource, number: usize) -> Option<FlagRow>
    requires { IsRowSource row_source.now }
    ensures { result ≡ flag_row_at
        (items_in row_source.now.program) row_source.now.links.now.outlines number }
{
    let declaration = row_source.links.declared(number)?;
    Some(FlagRow {
        name: row_source.program.span(declaration.item, declaration.token),
        scope: row_source.scope_name(declaration.scope),
    })
}

/// The event flags in the order of the text.
pub(crate) fn flag_rows(row_source: &RowSource) -> Result<Vec<FlagRow>, OutOfMemory>
    requires { IsRowSource row_source.now }
    ensures { IfOk result (λ rows. rows.items
        ≡ flag_rows (items_in row_source.now.program) row_source.now.links.now.outlines) }
{
    let mut rows = Vec::new(row_source.program.alloc);
    for number in row_source.links.flags() {
        if let Some(row) = flag_row_at(row_source, *number) {
            rows.push(row)?;
        }
    }
    Ok(rows)
}
