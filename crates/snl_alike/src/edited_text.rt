//! The text after replacements. In: a text and what is replaced in it. Out: the new text, and where
//! in it the new bytes end.

ghost use Rattle.std.specs.Prelude.{◌≡◌, ◌-◌, ◌≤◌, IfOk, drop, length, take};
ghost use Rattle.snl_alike.specs.Edits.{Rise, edits_of, new_stops, with_edits};

use crate::replacement::Replacement;
use snl_cut::OutOfMemory;
use std::alloc::Global;

/// A text after replacements.
#[derive(Drop)]
pub struct EditedText {
    pub text: Vec<u8>,
    /// Where the bytes of each replacement end.
    pub stops: Vec<usize>,
}

// The bytes of a text from one place up to another.
fn bytes_between(text: &[u8], start: usize, stop: usize) -> &[u8]
    requires order { start ≤ stop }
    requires inside { stop ≤ length text.now }
    ensures { result.now ≡ take (stop - start) (drop start text.now) }
{
    &text[start..stop]
}

/// A text after replacements.
#[tactic(auto, unfolding(crate::specs::Edits::with_edits))]
pub fn edited(
    alloc: Global,
    old: &[u8],
    replacements: &[Replacement<'_>],
) -> Result<EditedText, OutOfMemory>
    requires { Rise 0 (length old.now) (edits_of replacements.now) }
    ensures text { IfOk result (λ e. e.text.items
        ≡ with_edits old.now (edits_of replacements.now)) }
    ensures stops { IfOk result (λ e. e.stops.items
        ≡ new_stops 0 0 (edits_of replacements.now)) }
{
    let mut text = Vec::new(alloc);
    let mut stops = Vec::with_capacity(alloc, replacements.len())?;
    let mut base = 0;
    for replacement in replacements {
        text.extend_from_slice(bytes_between(old, base, replacement.start))?;
        text.extend_from_slice(replacement.new)?;
        stops.push(text.len())?;
        base = replacement.stop;
    }
    text.extend_from_slice(bytes_between(old, base, old.len()))?;
    Ok(EditedText { text, stops })
}
