//! What may come at a place, as a sentence. In: what may come, by groups and single kinds, and the
//! word that may have been meant. Out: the words.

ghost use Rattle.std.specs.Prelude.{◌≡◌, ◌<◌, ◌++◌, IfOk, OnOk, codes, length, map, string_bytes};
ghost use Rattle.snl_expected.specs.Groups.{described, group_phrase};
ghost use Rattle.snl_expected.specs.Kinds.{phrase_of};
ghost use Rattle.snl_notes.specs.Words.{expectation, listed, phrases_of, sentence, separator};
ghost use Rattle.snl_notes.specs.Words.{suggestion};

use snl_cut::OutOfMemory;
use snl_expected::{Description, Group, phrase};
use snl_lex::Kind;
use std::alloc::{AllocError, Global};

fn add_kinds(phrases: &mut Vec<&'static str>, kinds: &[Kind]) -> Result<(), AllocError>
    ensures { OnOk result (map (λ p. p.now) phrases.new.items
        ≡ map (λ p. p.now) phrases.old.items ++ map phrase_of kinds.now) }
{
    for kind in kinds {
        phrases.push(phrase(*kind))?;
    }
    Ok(())
}

fn add_groups(phrases: &mut Vec<&'static str>, groups: &[Group]) -> Result<(), AllocError>
    ensures { OnOk result (map (λ p. p.now) phrases.new.items
        ≡ map (λ p. p.now) phrases.old.items ++ map group_phrase groups.now) }
{
    for group in groups {
        phrases.push(group.phrase())?;
    }
    Ok(())
}

// What may come, phrase by phrase.
fn phrases_of(alloc: Global, description: &Description) -> Result<Vec<&'static str>, OutOfMemory>
    ensures { IfOk result (λ phrases. map (λ p. p.now) phrases.items
        ≡ phrases_of (described description.now)) }
{
    let mut phrases: Vec<&'static str> = Vec::new(alloc);
    add_kinds(&mut phrases, &description.kinds)?;
    add_groups(&mut phrases, &description.groups)?;
    Ok(phrases)
}

// What is put before the phrase with a number, of so many.
fn separator(index: usize, count: usize) -> &'static str
    requires { index < count }
    ensures { result.now ≡ separator index count }
{
    if index == 0 {
        ""
    } else if index + 1 == count {
        " or "
    } else {
        ", "
    }
}

fn put_phrase(out: &mut String, index: usize, count: usize, phrase: &str) -> Result<(), AllocError>
    requires { index < count }
    ensures { OnOk result (string_bytes out.new ≡ string_bytes out.old ++ (separator index count ++ phrase.now)) }
{
    out.push_str(separator(index, count))?;
    out.push_str(phrase)
}

fn put_listed(out: &mut String, phrases: &[&'static str]) -> Result<(), AllocError>
    ensures { OnOk result (string_bytes out.new ≡ string_bytes out.old
        ++ listed (map (λ p. p.now) phrases.now)) }
{
    for (index, phrase) in phrases.iter().enumerate() {
        put_phrase(out, index, phrases.len(), phrase)?;
    }
    Ok(())
}

fn put_expectation(out: &mut String, phrases: &[&'static str]) -> Result<(), AllocError>
    ensures { OnOk result (string_bytes out.new ≡ string_bytes out.old
        ++ expectation (map (λ p. p.now) phrases.now)) }
{
    if phrases.is_empty() {
        return out.push_str("nothing may come here within 100 levels");
    }
    out.push_str("expected ")?;
    put_listed(out, phrases)
}

fn put_question(out: &mut String, word: &str) -> Result<(), AllocError>
    ensures { OnOk result (string_bytes out.new ≡ string_bytes out.old ++ (word.now ++ codes "?")) }
{
    out.push_str(word)?;
    out.push_str("?")
}

fn put_suggestion(out: &mut String, meant: Option<Kind>) -> Result<(), AllocError>
    ensures { OnOk result (string_bytes out.new ≡ string_bytes out.old ++ suggestion meant) }
{
    let Some(word) = meant else {
        return Ok(());
    };
    out.push_str("; did you mean ")?;
    put_question(out, phrase(word))?;
    Ok(())
}

/// The sentence that says what may come, and which word may have been meant.
pub fn sentence(
    alloc: Global,
    description: &Description,
    meant: Option<Kind>,
) -> Result<String, OutOfMemory>
    ensures { IfOk result (λ words. string_bytes words ≡ sentence (described description.now) meant) }
{
    let phrases = phrases_of(alloc, description)?;
    let mut words = String::new(alloc);
    put_expectation(&mut words, &phrases)?;
    put_suggestion(&mut words, meant)?;
    Ok(words)
}
