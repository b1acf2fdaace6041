//! Rows that are known before they are made: those of a text before an edit that the edit leaves.

ghost use Rattle.std.specs.Prelude.{◌≡◌, [], IfSome, MatchOption};

use snl_tables::{ChannelRow, SetRow};

/// The rows of all channels, and those of the first state sets.
#[derive(Clone, Copy)]
pub struct KnownRows<'a> {
    pub channels: &'a [ChannelRow],
    pub sets: &'a [SetRow],
}

/// The rows of channels, if they are known.
pub(crate) fn known_channels<'a>(known: Option<KnownRows<'a>>) -> Option<&'a [ChannelRow]>
    ensures { MatchOption known.entry (IfSome result (λ rows. ⊥))
        (λ k. MatchOption result ⊥ (λ rows. rows.now ≡ k.channels.now)) }
{
    match known {
        Some(rows) => Some(rows.channels),
        None => None,
    }
}

/// The rows of state sets that are known.
pub(crate) fn known_sets<'a>(known: Option<KnownRows<'a>>) -> &'a [SetRow]
    ensures { MatchOption known.entry (result.now ≡ []) (λ k. result.now ≡ k.sets.now) }
{
    match known {
        Some(rows) => rows.sets,
        None => &[],
    }
}
