//! The place that a diagnostic is related to.

ghost use Rattle.std.specs.Prelude.{◌≡◌, IfOk};
ghost use Rattle.snl_kept.specs.Kept.{IsListed};
ghost use Rattle.snl_lex.specs.Pieces.{tokens_of};
ghost use Rattle.snl_related.specs.Related.{name_of, first_of, near_related, place_of_clause};

use crate::clauses::earlier_clause;
use crate::near::is_measured;
use crate::nearest::{Nearest, UnknownName, Wanted};
use crate::related::{Related, RelatedKind};
use crate::sets::{ends_at, first_set, last_end};
use snl_codes::Code;
use snl_cut::OutOfMemory;
use snl_kept::{Diagnostic, Lists};
use snl_lex::Piece;
use snl_questions::{ItemTokens, TextItems, TokenPlace, meaning_of, span_bytes};
use snl_scope::{ClauseLink, Links};
use snl_tables::Span;
use std::alloc::Global;

fn name_of(item: usize) -> TokenPlace
    ensures { result ≡ name_of item }
{
    TokenPlace { item, token: 1 }
}

fn first_of(item: usize) -> TokenPlace
    ensures { result ≡ first_of item }
{
    TokenPlace { item, token: 0 }
}

fn place_of_clause(clause: ClauseLink) -> TokenPlace
    ensures { result ≡ place_of_clause clause }
{
    TokenPlace {
        item: clause.item,
        token: clause.token,
    }
}

fn near_related(found: Option<Nearest>) -> Option<Related>
    ensures { result ≡ near_related found }
{
    let best = found?;
    Some(Related {
        kind: RelatedKind::Near,
        span: best.span,
    })
}

/// A text, with what is kept of it and its tokens, of which such places are asked.
#[derive(Clone, Copy)]
pub struct Relations<'a> {
    pub alloc: Global,
    pub lists: &'a Lists,
    pub items: TextItems<'a>,
}

impl<'a> Relations<'a> {
    ghost use Rattle.snl_scope.specs.Clauses.{clause_links};
    ghost use Rattle.snl_related.specs.Related.{clause_related, declaration_related, end_related, flag_related, near_name_related};
    ghost use Rattle.snl_related.specs.Related.{near_state_related, related_by_code, related_to, related_at, quoted_of, set_related, state_related};

    /// By what is kept of the text, and its tokens (`all_tokens`).
    pub fn of_text(
        alloc: Global,
        text: &'a [u8],
        lists: &'a Lists,
        tokens: &'a [Piece],
    ) -> Relations<'a>
        requires listed { IsListed text.now lists.now }
        requires tokens { tokens.now ≡ tokens_of text.now }
        ensures text { result.items.text.now ≡ text.now }
        ensures listed { IsListed result.items.text.now result.lists.now }
    {
        let items = TextItems {
            text,
            items: ItemTokens::of_text(text, tokens, &lists.items.ends),
        };
        Relations {
            alloc,
            lists,
            items,
        }
    }

    fn links(&self) -> &'a Links
        ensures { result.now ≡ self.now.lists.now.links }
    {
        &self.lists.links
    }

    // The place of a token.
    fn related_at(&self, kind: RelatedKind, place: TokenPlace) -> Option<Related>
        ensures { result ≡ related_at self.now.items.text.now kind place }
    {
        let span = self.items.span_at(place)?;
        Some(Related { kind, span })
    }

    // Where the name at an offset is declared.
    fn declaration_related(
        &self,
        kind: RelatedKind,
        offset: usize,
    ) -> Result<Option<Related>, OutOfMemory>
        requires { IsListed self.now.items.text.now self.now.lists.now }
        ensures { IfOk result (λ n. n ≡ declaration_related self.now.items.text.now kind offset) }
    {
        let Some(meaning) = meaning_of(self.alloc, self.lists, &self.items, offset)? else {
            return Ok(None);
        };
        Ok(Some(Related {
            kind,
            span: meaning.declared,
        }))
    }

    fn set_related(&self, name: &[u8]) -> Option<Related>
        ensures { result
            ≡ set_related self.now.items.text.now self.now.lists.now.links.outlines name.now }
    {
        let item = first_set(self.links(), &self.items, name)?;
        self.related_at(RelatedKind::FirstNamed, name_of(item))
    }

    fn state_related(&self, item: usize, name: &[u8]) -> Option<Related>
        ensures { result ≡ state_related self.now.items.text.now
            self.now.lists.now.links.outlines item name.now }
    {
        let first = self.links().state(item, name)?;
        self.related_at(RelatedKind::FirstNamed, name_of(first))
    }

    // Of a `}` that closes no state set: where the last one was closed.
    fn end_related(&self, item: usize) -> Option<Related>
        ensures { result
            ≡ end_related self.now.items.text.now self.now.lists.now.links.kinds item }
    {
        let kinds = self.links().kinds();
        if !ends_at(kinds, item) {
            return None;
        }
        let last = last_end(kinds, item)?;
        self.related_at(RelatedKind::SetEnded, first_of(last))
    }

    fn clause_related(&self, kind: RelatedKind, place: TokenPlace) -> Option<Related>
        ensures { result ≡ clause_related self.now.items.text.now
            self.now.lists.now.links.outlines kind place }
    {
        let earlier = earlier_clause(self.links().clauses(), place)?;
        self.related_at(kind, place_of_clause(earlier))
    }

    // A name in an item that nothing declares there.
    fn unknown<'n>(&'n self, item: usize, name: &'n [u8]) -> UnknownName<'n>
        ensures links { result.links.now ≡ self.now.lists.now.links }
        ensures text { result.items.text.now ≡ self.now.items.text.now }
        ensures item { result.item ≡ item }
        ensures name { result.name.now ≡ name.now }
    {
        UnknownName {
            alloc: self.alloc,
            links: self.links(),
            items: self.items,
            item,
            name,
        }
    }

    fn near_state_related(&self, item: usize, name: &[u8]) -> Result<Option<Related>, OutOfMemory>
        ensures { IfOk result (λ n. n ≡ near_state_related self.now.items.text.now
            self.now.lists.now.links.outlines item name.now) }
    {
        if !is_measured(name) {
            return Ok(None);
        }
        Ok(near_related(self.unknown(item, name).nearest_state()?))
    }

    fn near_name_related(
        &self,
        item: usize,
        wanted: Wanted,
        name: &[u8],
    ) -> Result<Option<Related>, OutOfMemory>
        ensures { IfOk result (λ n. n ≡ near_name_related self.now.items.text.now
            self.now.lists.now.links.outlines item wanted name.now) }
    {
        if !is_measured(name) {
            return Ok(None);
        }
        Ok(near_related(self.unknown(item, name).nearest_declaration(wanted)?))
    }

    // The bytes that a diagnostic quotes.
    fn quoted_of(&self, found: &Diagnostic) -> &'a [u8]
        ensures { result.now ≡ quoted_of self.now.items.text.now found.now }
    {
        let span = Span {
            start: found.offset,
            len: found.subject,
        };
        span_bytes(self.items.text, span)
    }

    // Of what no event flag is: where it is declared, or else the nearest flag.
    fn flag_related(&self, found: &Diagnostic, item: usize) -> Result<Option<Related>, OutOfMemory>
        requires { IsListed self.now.items.text.now self.now.lists.now }
        ensures { IfOk result (λ n. n ≡ flag_related self.now.items.text.now
            self.now.lists.now.links.outlines found.now item) }
    {
        if let Some(related) = self.declaration_related(RelatedKind::Declared, found.offset)? {
            return Ok(Some(related));
        }
        self.near_name_related(item, Wanted::EventFlag, self.quoted_of(found))
    }

    // The place that a diagnostic at a token is related to.
    fn related_by_code(
        &self,
        found: &Diagnostic,
        place: TokenPlace,
    ) -> Result<Option<Related>, OutOfMemory>
        requires { IsListed self.now.items.text.now self.now.lists.now }
        ensures { IfOk result (λ n. n ≡ related_by_code found.now.code self.now.items.text.now
            self.now.lists.now.links found.now place) }
    {
        let quoted = self.quoted_of(found);
        match found.code {
            Code::E04 => Ok(self.end_related(place.item)),
            Code::E07 => self.declaration_related(RelatedKind::FirstDeclared, found.offset),
            Code::E08 => Ok(self.set_related(quoted)),
            Code::E09 => Ok(self.state_related(place.item, quoted)),
            Code::E10 => self.near_state_related(place.item, quoted),
            Code::E11 | Code::W01 => self.near_name_related(place.item, Wanted::Any, quoted),
            Code::E12 => Ok(self.clause_related(RelatedKind::Assigned, place)),
            Code::E13 | Code::E15 | Code::E16 | Code::E21 => {
                self.declaration_related(RelatedKind::Declared, found.offset)
            }
            Code::E14 | Code::E20 => self.flag_related(found, place.item),
            Code::E22 => Ok(self.clause_related(RelatedKind::Synced, place)),
            Code::W05 => Ok(self.clause_related(RelatedKind::Monitored, place)),
            _ => Ok(None),
        }
    }

    /// The place that a diagnostic of the text is related to, if there is one. The only error is want
    /// of memory; the time is that of the text's tokens.
    #[tactic(auto, unfolding(crate::specs::Related::related_to))]
    pub fn related_to(&self, found: &Diagnostic) -> Result<Option<Related>, OutOfMemory>
        requires { IsListed self.now.items.text.now self.now.lists.now }
        ensures { IfOk result (λ n. n ≡ related_to self.now.items.text.now found.now) }
    {
        let Some(place) = self.items.place_at(found.offset) else {
            return Ok(None);
        };
        let Some(related) = self.related_by_code(found, place)? else {
            return Ok(None);
        };
        Ok(related.elsewhere(found.offset))
    }
}
