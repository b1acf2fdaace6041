//! The writer of listings.
#![tactic(auto)]

ghost use Rattle.std.specs.Prelude.{◌≡◌, ℕ, List, IfOk};
ghost use Rattle.snl_listing.specs.Lister.{IsFor};
ghost use Rattle.snl_listing.specs.Listing.{listing_of};
ghost use Rattle.snl_listing.specs.Sink.{Put};

use crate::lines::{put_channels, put_flags, put_options, put_program};
use crate::sink::Sink;
use crate::states::put_state_sets;
use snl_cut::OutOfMemory;
use snl_tables::{Tables, WakeMarks};
use std::alloc::Global;

/// What the writing of a listing needs of memory.
#[derive(Drop)]
pub struct Lister {
    marks: WakeMarks,
}

impl Lister {
    /// Takes all the memory that is needed to write the listing of these tables.
    pub fn new(alloc: Global, tables: &Tables) -> Result<Lister, OutOfMemory>
        ensures { IfOk result (IsFor tables.now) }
    {
        Ok(Lister {
            marks: WakeMarks::new(alloc, tables)?,
        })
    }

    /// Writes the listing of the tables of a text, and takes no memory. It ends with the first
    /// fault of the sink.
    #[tactic(auto, unfolding(crate::specs::Listing::listing_of))]
    pub fn write<S: Sink>(
        mut self,
        text: &[u8],
        tables: &Tables,
        sink: &mut S,
    ) -> Result<(), S::Error>
        requires { IsFor tables.now self }
        ensures { Put result (S.Took sink.old sink.new) (S.Broke sink.old sink.new)
            (listing_of text.now tables.now) }
    {
        put_program(sink, text, tables.program)?;
        put_options(sink, "", tables.options.as_slice())?;
        put_flags(sink, text, tables.flags.as_slice())?;
        put_channels(sink, text, tables.channels.as_slice())?;
        put_state_sets(sink, &mut self.marks, text, tables, tables.sets.as_slice())
    }
}
