//! Two lists that differ in one place, and where the members of each end, come in; which members of
//! the new list are fresh goes out.

/// In the place of what was from `start` up to `old_stop`, the new list has what is from `start` up
/// to `new_stop`.
#[derive(Clone, Copy)]
pub struct Change {
    pub start: usize,
    pub old_stop: usize,
    pub new_stop: usize,
}

/// The members of the new list, which are fresh or are kept.
#[derive(Clone, Copy)]
pub struct Recount<'a> {
    old_ends: &'a [usize],
    new_ends: &'a [usize],
    start: usize,
    meet: usize,
}

// The list's begin and the end of each member are boundaries.
fn is_boundary(ends: &[usize], place: usize) -> bool {
    place == 0 || ends.contains(&place)
}

impl Change {
    /// The place of the old list where that was which is at this place of the new one; none for a
    /// place before the change's end.
    pub fn old_place(self, place: usize) -> Option<usize> {
        place.checked_sub(self.new_stop)?.checked_add(self.old_stop)
    }

    // Whether a boundary of the new list is after the change, and one of the old list too.
    fn is_shared(self, old_ends: &[usize], place: usize) -> bool {
        match self.old_place(place) {
            Some(place) => is_boundary(old_ends, place),
            None => false,
        }
    }

    // The least boundary after the change that both lists have.
    fn meet(self, old_ends: &[usize], new_ends: &[usize]) -> usize {
        if self.is_shared(old_ends, 0) {
            return 0;
        }
        for end in new_ends {
            if self.is_shared(old_ends, *end) {
                return *end;
            }
        }
        usize::MAX
    }
}

impl<'a> Recount<'a> {
    /// What a change makes of the members that end at these places.
    pub fn of(old_ends: &'a [usize], new_ends: &'a [usize], change: Change) -> Recount<'a> {
        Recount {
            old_ends,
            new_ends,
            start: change.start,
            meet: change.meet(old_ends, new_ends),
        }
    }

    /// The least boundary after the change that both lists have.
    pub fn meet(self) -> usize {
        self.meet
    }

    // Whether a member ends before the change.
    fn is_before(self, number: usize) -> bool {
        match self.new_ends.get(number) {
            Some(end) => *end < self.start,
            None => false,
        }
    }

    // Whether a member begins where the lists meet, or after that.
    fn is_after(self, number: usize) -> bool {
        let begin = match number.checked_sub(1) {
            Some(last) => self.new_ends.get(last).copied().unwrap_or(usize::MAX),
            None => 0,
        };
        begin >= self.meet
    }

    /// The number that a member of the new list has in the old one; none for a fresh one.
    pub fn old_number(self, number: usize) -> Option<usize> {
        if self.is_before(number) {
            return Some(number);
        }
        if self.is_after(number) {
            let to_the_end = self.new_ends.len().checked_sub(number)?;
            return self.old_ends.len().checked_sub(to_the_end);
        }
        None
    }

    /// How many members are fresh.
    pub fn fresh(self) -> usize {
        (0..self.new_ends.len())
            .filter(|number| !self.is_before(*number) && !self.is_after(*number))
            .count()
    }
}
