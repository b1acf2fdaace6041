//! What takes bytes.

ghost use Rattle.std.specs.Prelude.{ℕ, List};
ghost use Rattle.snl_listing.specs.Sink.{IsSink, Put};

/// Takes text, piece by piece. After an `Err` no more is put.
pub trait Sink {
    type Error;

    // From the first state to the second it took just these bytes.
    ghost Took: { Self → Self → List ℕ → Type 0 };

    // It broke off, and took a front of them at most.
    ghost Broke: { Self → Self → List ℕ → Type 0 };

    fn put(&mut self, text: &str) -> Result<(), Self::Error>
        ensures { Put result (Took self.old self.new) (Broke self.old self.new) text.now };

    ghost goes_on: { IsSink Took Broke };
}
