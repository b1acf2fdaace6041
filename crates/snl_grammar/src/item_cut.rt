//! The cut into items: the marks of tokens come in, the length of the first item goes out. It knows
//! no grammar.

ghost use Rattle.snl_cut.specs.Cut.{ticked};
ghost use Rattle.snl_grammar.specs.ItemLaws.{item_front, item_local};
ghost use Rattle.snl_grammar.specs.Items.{is_close, is_close_paren, is_name, is_open};
ghost use Rattle.snl_grammar.specs.Items.{is_open_paren, is_plain, is_text, some_is};
ghost use Rattle.snl_grammar.specs.Items.{balance_after, is_after, item, plain_ends_at};
ghost use Rattle.snl_grammar.specs.declared.marks.Mark.TheVariants as mark;
ghost use Rattle.std.specs.List.{slice_get};
ghost use Rattle.std.specs.Prelude.{◌≡◌, ◌==◌, ◌&&◌, ◌+◌, ◌^◌, ◌<◌, ◌≤◌};
ghost use Rattle.std.specs.Prelude.{cond, false, length, true, ℕ};

use crate::marks::Mark;
use snl_cut::{Count, Front};

// The mark with this number, if there is one.
fn mark_at(marks: &[Mark], number: usize) -> Option<Mark>
    ensures { result ≡ slice_get marks.now number }
{
    marks.get(number).copied()
}

fn is_name_at(marks: &[Mark], number: usize) -> bool
    ensures { result ≡ some_is is_name (slice_get marks.now number) }
{
    matches!(mark_at(marks, number), Some(Mark::Name))
}

fn is_text_at(marks: &[Mark], number: usize) -> bool
    ensures { result ≡ some_is is_text (slice_get marks.now number) }
{
    matches!(mark_at(marks, number), Some(Mark::Text))
}

fn is_open_at(marks: &[Mark], number: usize) -> bool
    ensures { result ≡ some_is is_open (slice_get marks.now number) }
{
    matches!(mark_at(marks, number), Some(Mark::OpenBrace))
}

fn is_open_paren_at(marks: &[Mark], number: usize) -> bool
    ensures { result ≡ some_is is_open_paren (slice_get marks.now number) }
{
    matches!(mark_at(marks, number), Some(Mark::OpenParen))
}

fn is_close_paren_at(marks: &[Mark], number: usize) -> bool
    ensures { result ≡ some_is is_close_paren (slice_get marks.now number) }
{
    matches!(mark_at(marks, number), Some(Mark::CloseParen))
}

// `ss NAME {`, or as much of it as is there.
fn state_set_length(rest: &[Mark]) -> usize
    requires { slice_get rest.now 0 ≡ Some mark.Ss }
    ensures { result ≡ item rest.now }
{
    if !is_name_at(rest, 1) {
        1
    } else if !is_open_at(rest, 2) {
        2
    } else {
        3
    }
}

// Where the texts end that follow one another from this mark on.
fn texts_end(rest: &[Mark], start: usize) -> usize
    requires { start ≤ length rest.now }
    ensures low { start ≤ result }
    ensures high { result ≤ length rest.now }
    ensures texts { (k : ℕ) → start ≤ k → k < result →
        some_is is_text (slice_get rest.now k) ≡ true }
    ensures stop { some_is is_text (slice_get rest.now result) ≡ false }
{
    let mut end = start;
    while is_text_at(rest, end) {
        end += 1;
    }
    end
}

// `program NAME ( TEXT .. TEXT )`, or as much of it as is there.
fn header_length(rest: &[Mark]) -> usize
    requires { slice_get rest.now 0 ≡ Some mark.Program }
    ensures { result ≡ item rest.now }
{
    if !is_name_at(rest, 1) {
        return 1;
    }
    if !is_open_paren_at(rest, 2) {
        return 2;
    }
    if !is_text_at(rest, 3) {
        return 3;
    }
    let end = texts_end(rest, 4);
    if is_close_paren_at(rest, end) {
        end + 1
    } else {
        end
    }
}

fn is_after_close_paren(marks: &[Mark], number: usize) -> bool
    ensures { result ≡ is_after is_close_paren marks.now number }
{
    number > 0 && is_close_paren_at(marks, number - 1)
}

// Whether the last brace that raised the balance from 0 followed a `)`, after the mark with this
// number.
fn opened_by_paren(marks: &[Mark], number: usize, balance: usize, before: bool) -> bool
    ensures { result
        ≡ cond
        (balance == 0 && some_is is_open (slice_get marks.now number))
        (is_after is_close_paren marks.now number)
        before }
{
    if balance == 0 && is_open_at(marks, number) {
        is_after_close_paren(marks, number)
    } else {
        before
    }
}

// The balance of the braces after one more mark.
fn balance_after(balance: usize, mark: Mark) -> usize
    requires room { balance + 1 < 2 ^ 64 }
    requires open { is_close mark ≡ true → 0 < balance }
    ensures { result ≡ balance_after balance mark }
{
    if mark.is_open() {
        balance + 1
    } else if mark.is_close() {
        balance - 1
    } else {
        balance
    }
}

// Whether an item that begins with no mark of its own kind ends between these two marks.
fn ends_between(is_level: bool, last: Mark, has_body: bool, next: Option<Mark>) -> bool
    ensures { result ≡ plain_ends_at is_level last has_body next }
{
    let Some(next) = next else {
        return true;
    };
    if next.is_head() {
        return true;
    }
    is_level && (last.is_semicolon() || (last.is_close() && has_body) || next.is_close())
}

// An item that begins with no mark of its own kind, by the balance of its braces.
fn plain_length(rest: &[Mark]) -> usize
    requires { some_is is_plain (slice_get rest.now 0) ≡ true }
    ensures { result ≡ item rest.now }
{
    let is_body = rest[0].is_body();
    let mut balance = 0;
    let mut by_paren = false;
    let mut end = 0;
    loop {
        let last = rest[end];
        by_paren = opened_by_paren(rest, end, balance, by_paren);
        balance = balance_after(balance, last);
        end += 1;
        if ends_between(balance == 0, last, is_body || by_paren, mark_at(rest, end)) {
            return end;
        }
    }
}

/// Cuts the marks of tokens into items.
pub struct Tokens;

impl Front for Tokens {
    type Unit = Mark;

    ghost first_of = { item };

    ghost within = { item_front };

    ghost local = { item_local };

    fn first(&self, rest: &[Mark], work: &mut Count) -> usize {
        work.tick();
        match rest[0] {
            Mark::Ss => state_set_length(rest),
            Mark::Program => header_length(rest),
            Mark::CloseBrace | Mark::CCode | Mark::Semicolon => 1,
            _ => plain_length(rest),
        }
    }
}
