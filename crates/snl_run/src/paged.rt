//! A page and its writer, as a sink of listings.
#![tactic(auto)]

use snl_script::{Page, Watched, WriteFault};
use snl_session::Sink;
use std::io::Write;

/// Bytes on their way to a writer.
#[derive(Drop)]
pub struct Paged<'a, W> {
    pub page: Page,
    pub out: &'a mut Watched<W>,
}

impl<W: Write> Sink for Paged<'_, W> {
    ghost use Rattle.snl_run.specs.Paged.{Broke, Took, desk_of};
    ghost use Rattle.snl_run.specs.PagedLaws.{desks_go_on};

    type Error = WriteFault;

    ghost Took = { λ s t bytes. Took (desk_of W.contents s) (desk_of W.contents t) bytes };

    ghost Broke = { λ s t bytes. Broke (desk_of W.contents s) (desk_of W.contents t) bytes };

    fn put(&mut self, text: &str) -> Result<(), WriteFault> {
        self.page.put(self.out, text.as_bytes())
    }

    ghost goes_on = { desks_go_on (desk_of W.contents) };
}
