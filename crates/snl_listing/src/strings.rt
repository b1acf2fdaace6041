//! Listings that are kept.
#![tactic(auto)]

ghost use Rattle.std.specs.Prelude.{◌≡◌, ◌++◌, ℕ, List, IfOk, string_bytes};
ghost use Rattle.snl_listing.specs.Listing.{listing_of};
ghost use Rattle.snl_listing.specs.Sink.{GrewByFront};
ghost use Rattle.snl_listing.specs.Kept.{strings_go_on};

use crate::lister::Lister;
use crate::sink::Sink;
use snl_cut::OutOfMemory;
use snl_tables::Tables;
use std::alloc::Global;

impl Sink for String {
    type Error = OutOfMemory;

    ghost Took = { λ s t bytes. string_bytes t ≡ string_bytes s ++ bytes };

    ghost Broke = { λ s t bytes. GrewByFront (string_bytes s) (string_bytes t) bytes };

    ghost goes_on = { strings_go_on string_bytes };

    fn put(&mut self, text: &str) -> Result<(), OutOfMemory> {
        self.push_str(text).map_err(|_| OutOfMemory)
    }
}

/// The listing of the tables of a text.
pub fn listing(alloc: Global, text: &[u8], tables: &Tables) -> Result<String, OutOfMemory>
    ensures { IfOk result (λ listing. string_bytes listing ≡ listing_of text.now tables.now) }
{
    let lister = Lister::new(alloc, tables)?;
    let mut listing = String::new(alloc);
    lister.write(text, tables, &mut listing)?;
    Ok(listing)
}
