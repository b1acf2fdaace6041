//! The answer to `list`.
#![tactic(auto)]

ghost use Rattle.std.specs.Prelude.{◌≡◌, ℕ, ◌||◌, [], false, is_err};
ghost use Rattle.snl_listing.specs.Lister.{IsFor};
ghost use Rattle.snl_kept.specs.Tables.{tables_in};
ghost use Rattle.snl_run.specs.Answers.{list_text};
ghost use Rattle.snl_run.specs.Paged.{Listed, desk_of};
ghost use Rattle.snl_script.specs.Said.{Written};
ghost use Rattle.snl_script.specs.Watched.{failed_of, inner_of};

use crate::paged::Paged;
use snl_script::{Page, Watched, WriteFault, write_out};
use snl_session::{Lister, Session, Sink};
use std::io::Write;

/// Writes the listing of a session, and `end`; or that there is no memory for it.
pub fn list<W: Write>(out: &mut Watched<W>, session: &Session) -> Result<(), WriteFault>
    ensures listed { Listed result session.now (W.contents (inner_of out.old)) (W.contents (inner_of out.new)) }
    ensures failed { failed_of out.new ≡ (failed_of out.old || is_err result) }
{
    match session.lister() {
        Ok(lister) => put_listing(out, session, lister),
        Err(_) => write_out(out, b"refused memory\n"),
    }
}

fn put_listing<W: Write>(
    out: &mut Watched<W>,
    session: &Session,
    lister: Lister,
) -> Result<(), WriteFault>
    requires { IsFor (tables_in session.now) lister }
    ensures written { Written result (W.contents (inner_of out.old)) (W.contents (inner_of out.new)) (list_text session.now false) }
    ensures failed { failed_of out.new ≡ (failed_of out.old || is_err result) }
{
    let mut paged = Paged {
        page: Page::new(),
        out,
    };
    put_to_the_end(&mut paged, session, lister)
}

// Puts the listing and `end` on an empty page, and writes all that is on it.
fn put_to_the_end<W: Write>(
    paged: &mut Paged<'_, W>,
    session: &Session,
    lister: Lister,
) -> Result<(), WriteFault>
    requires fit { IsFor (tables_in session.now) lister }
    requires empty { paged.old.page ≡ [] }
    ensures written { Written result (desk_of W.contents paged.old).contents (desk_of W.contents paged.new).contents (list_text session.now false) }
    ensures failed { failed_of paged.new.out.now ≡ (failed_of paged.old.out.now || is_err result) }
    ensures same_writer { paged.new.out.ghost_name ≡ paged.old.out.ghost_name }
{
    lister.write(session.text(), session.tables(), paged)?;
    paged.put("end\n")?;
    paged.page.finish(paged.out)
}
