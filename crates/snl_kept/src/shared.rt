//! Values that many places hold, each in memory once. It knows nothing of what they are.
#![tactic(auto)]

ghost use Rattle.std.specs.Prelude.{◌≡◌, IfOk};

use std::alloc::{AllocError, Global};
use std::marker::Model;
use std::rc::Rc;

/// A value that others may hold too, and that nobody changes. Contracts see the value.
pub struct Shared<T> {
    held: Rc<T, Global>,
}

// By hand, so that whoever holds one need not know what is shared to let it go.
impl<T: Drop> Drop for Shared<T> {
    fn drop(self) {
        let Shared { held: _ } = self;
    }
}

impl<T> Model for Shared<T> {
    ghost Value = { T };

    ghost coded = { T.code };

    ghost view = { λ s. s.held.value };
}

impl<T> Shared<T> {
    pub fn get(&self) -> &T
        ensures { result.now ≡ self.now }
    {
        self.held.as_ref()
    }
}

impl<T: Drop> Shared<T> {
    pub fn new(alloc: Global, value: T) -> Result<Shared<T>, AllocError>
        ensures { IfOk result (λ s. s ≡ value) }
    {
        match Rc::new(alloc, value) {
            Ok(held) => Ok(Shared { held }),
            Err(_) => Err(AllocError),
        }
    }

    /// The same value once more.
    pub fn share(&self) -> Result<Shared<T>, AllocError>
        ensures { IfOk result (λ s. s ≡ self.now) }
    {
        let held = self.held.clone()?;
        Ok(Shared { held })
    }
}
