//! The states of a state set that a walk along targets reaches from the initial one: the targets of
//! each state come in; for each state, whether it is reached, goes out. States are numbers here. It
//! knows nothing of their names, nor of items.

ghost use Rattle.std.specs.Prelude.{◌≡◌, ◌<◌, ◌↔◌, ℕ, [], ◌∷◌, false, true, All, IfOk, OnOk, Some, length, replicate, slice_get};
ghost use Rattle.snl_check.specs.Reach.{AreStates, Enters, IsReached, is_reached, target_lists};

use snl_cut::OutOfMemory;
use std::alloc::Global;

/// What a search has come to. Its lists serve one search after another.
#[derive(Drop)]
pub(crate) struct Search {
    /// Of each state, whether it is reached.
    pub reached: Vec<bool>,
    // The reached states whose targets it has yet to look at.
    waiting: Vec<usize>,
}

impl Search {
    /// Lists for searches.
    pub(crate) fn new(alloc: Global) -> Search {
        Search {
            reached: Vec::new(alloc),
            waiting: Vec::new(alloc),
        }
    }

    // Begins a search, which has come to none of so many states.
    fn begin(&mut self, count: usize) -> Result<(), OutOfMemory>
        ensures reached { OnOk result (self.new.reached.items ≡ replicate count false) }
        ensures waiting { OnOk result (self.new.waiting.items ≡ []) }
    {
        self.waiting.clear();
        self.reached.clear();
        self.reached.resize(count, false)?;
        Ok(())
    }

    // Comes to a state, which waits if it is new.
    fn enter(&mut self, state: usize) -> Result<(), OutOfMemory>
        requires { state < length self.old.reached.items }
        ensures { OnOk result (Enters self.old self.new (state ∷ [])) }
    {
        if !self.reached[state] {
            self.waiting.push(state)?;
            self.reached[state] = true;
        }
        Ok(())
    }

    fn enter_all(&mut self, states: &[usize]) -> Result<(), OutOfMemory>
        requires { All (λ s. s < length self.old.reached.items) states.now }
        ensures { OnOk result (Enters self.old self.new states.now) }
    {
        for state in states {
            self.enter(*state)?;
        }
        Ok(())
    }

    /// Finds of each state whether a walk along targets leads to it from the first one. Each state
    /// is taken once, and each of its targets looked at once.
    pub(crate) fn follow(&mut self, targets: &[Vec<usize>]) -> Result<(), OutOfMemory>
        requires { AreStates (target_lists targets.now) }
        ensures each { OnOk result (length self.new.reached.items ≡ length targets.now) }
        ensures reached { OnOk result ((s : ℕ) → (slice_get self.new.reached.items s ≡ Some true)
            ↔ IsReached (target_lists targets.now) s) }
        ensures decided { OnOk result ((s : ℕ) → s < length targets.now
            → slice_get self.new.reached.items s
            ≡ Some (is_reached (target_lists targets.now) s)) }
    {
        self.begin(targets.len())?;
        if !targets.is_empty() {
            self.enter(0)?;
        }
        while let Some(state) = self.waiting.pop() {
            self.enter_all(&targets[state])?;
        }
        Ok(())
    }
}

/// Of each state, whether a walk along targets leads to it from the first one.
pub fn reach(alloc: Global, targets: &[Vec<usize>]) -> Result<Vec<bool>, OutOfMemory>
    requires { AreStates (target_lists targets.now) }
    ensures each { IfOk result (λ reached. length reached.items ≡ length targets.now) }
    ensures reached { IfOk result (λ reached. (s : ℕ)
        → (slice_get reached.items s ≡ Some true) ↔ IsReached (target_lists targets.now) s) }
    ensures decided { IfOk result (λ reached. (s : ℕ) → s < length targets.now
        → slice_get reached.items s ≡ Some (is_reached (target_lists targets.now) s)) }
{
    let mut search = Search::new(alloc);
    search.follow(targets)?;
    let Search {
        reached,
        waiting: _,
    } = search;
    Ok(reached)
}
