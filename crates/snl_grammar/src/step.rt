//! A step over a list that something else ends.

/// An element, or what ends the list with perhaps a last element before.
#[derive(Drop)]
pub enum Step<A, B> {
    More(A),
    Last(Option<A>, B),
}
