//! What becomes of places of a text by replacements. In: a place of the text and one of the new
//! text. Out: whether the first becomes the second. A search halves the list of replacements.

ghost use Rattle.std.specs.Prelude.{◌≡◌, ◌≤◌, IsTrue, length, nat_le, nat_lt};
ghost use Rattle.std.specs.List.Sorted.{IsNonDecreasingBy};
ghost use Rattle.snl_alike.specs.Edits.{AreSplit, edits_of, last_stops, moved_after};
ghost use Rattle.snl_alike.specs.Edits.{moved_start, moved_stop, new_stops};

use crate::edited_text::EditedText;
use crate::replacement::Replacement;
use snl_tables::Span;

/// Replacements in a text, and where the new bytes of each end in the new text.
#[derive(Clone, Copy)]
pub struct Moves<'a> {
    pub replacements: &'a [Replacement<'a>],
    pub stops: &'a [usize],
    ghost starts_rise: { IsNonDecreasingBy (λ r. r.start) replacements.now },
    ghost stops_rise: { IsNonDecreasingBy (λ r. r.stop) replacements.now },
    ghost stops_are: { stops.now ≡ new_stops 0 0 (edits_of replacements.now) },
}

impl<'a> Moves<'a> {
    ghost use Rattle.snl_alike.specs.Edits.{Rise};
    ghost use Rattle.snl_alike.specs.Moved.{edits_in, moved_span};

    /// Replacements that follow one another in the old text, and what is made of it.
    pub fn of(_old: &[u8], replacements: &'a [Replacement<'a>], edited: &'a EditedText) -> Moves<'a>
        requires rise { Rise 0 (length _old.now) (edits_of replacements.now) }
        requires stops { edited.now.stops.items ≡ new_stops 0 0 (edits_of replacements.now) }
        ensures { edits_in result ≡ edits_of replacements.now }
    {
        Moves {
            replacements,
            stops: &edited.stops,
        }
    }

    // How many of the replacements stop at a place or before it.
    fn stopped_before(&self, place: usize) -> usize
        ensures inside { result ≤ length self.now.replacements.now }
        ensures split { AreSplit (λ e. nat_le e.stop place) self.now.replacements.now result }
    {
        self.replacements
            .partition_point(|replacement| replacement.stop <= place)
    }

    // How many of the replacements start before a place.
    fn started_before(&self, place: usize) -> usize
        ensures inside { result ≤ length self.now.replacements.now }
        ensures split { AreSplit (λ e. nat_lt e.start place) self.now.replacements.now result }
    {
        self.replacements
            .partition_point(|replacement| replacement.start < place)
    }

    // Where the last of so many replacements stops, in the old text and in the new one.
    fn last_stops(&self, count: usize) -> (usize, usize)
        requires { count ≤ length self.now.replacements.now }
        ensures { result ≡ last_stops 0 0 (edits_in self.now) count }
    {
        if count == 0 {
            (0, 0)
        } else {
            (self.replacements[count - 1].stop, self.stops[count - 1])
        }
    }

    // Whether a place after so many replacements becomes another one.
    fn becomes_after(&self, count: usize, old: usize, new: usize) -> bool
        requires { count ≤ length self.now.replacements.now }
        ensures { IsTrue result → new ≡ moved_after (last_stops 0 0 (edits_in self.now) count) old }
    {
        let (base, made) = self.last_stops(count);
        new >= made && new - made == old.saturating_sub(base)
    }

    /// Whether a place where something begins becomes another one.
    #[tactic(auto, unfolding(crate::specs::Edits::moved_start))]
    pub fn starts(&self, old: usize, new: usize) -> bool
        ensures { IsTrue result → new ≡ moved_start (edits_in self.now) old }
    {
        self.becomes_after(self.stopped_before(old), old, new)
    }

    /// Whether a place where something ends becomes another one.
    #[tactic(auto, unfolding(crate::specs::Edits::moved_stop))]
    pub fn stops(&self, old: usize, new: usize) -> bool
        ensures { IsTrue result → new ≡ moved_stop (edits_in self.now) old }
    {
        self.becomes_after(self.started_before(old), old, new)
    }

    /// Whether a span becomes another one.
    pub fn span_becomes(&self, old: Span, new: Span) -> bool
        ensures { IsTrue result → new ≡ moved_span (edits_in self.now) old }
    {
        let Some(old_stop) = old.start.checked_add(old.len) else {
            return false;
        };
        let Some(new_stop) = new.start.checked_add(new.len) else {
            return false;
        };
        self.starts(old.start, new.start) && self.stops(old_stop, new_stop)
    }
}
