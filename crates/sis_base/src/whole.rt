//! A wrapper that drops a value of many parts in one call.

ghost use Rattle.std.specs.Prelude.{◌≡◌};

/// A value that is dropped as a whole. A check goes through what is dropped at each way out of a
/// function, part by part; a value in here is one part.
pub struct Whole<T: Drop> {
    /// The value.
    pub it: T,
}

impl<T: Drop> Drop for Whole<T> {
    fn drop(self) {
        let Whole { it: _it } = self;
    }
}

impl<T: Drop> Whole<T> {
    /// Takes the value out.
    pub fn into_it(self) -> T
        ensures { result ≡ self.it }
    {
        let Whole { it } = self;
        it
    }
}
