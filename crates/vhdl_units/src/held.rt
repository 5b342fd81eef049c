//! A large value whose drop is a call.

ghost use Rattle.std.specs.Prelude.{◌≡◌};

use std::marker::Model;

/// A value that contracts see as it is, and whose drop is a call.
///
/// A derived drop is written out wherever a value may be let go: variant by variant, and of two values each variant of
/// the one with each of the other. So a local variable of a type with many variants that is alive where a call may fail
/// is held.
pub struct Held<T: Drop> {
    inner: T,
}

impl<T: Drop> Drop for Held<T> {
    fn drop(self) {
        let Held { inner } = self;
        drop(inner);
    }
}

impl<T: Drop> Model for Held<T> {
    ghost Value = { T };

    ghost coded = { T.code };

    ghost view = { λ held. held.inner };
}

impl<T: Drop> Held<T> {
    pub fn new(value: T) -> Held<T>
        ensures { result ≡ value }
    {
        Held { inner: value }
    }

    pub fn get(&self) -> &T
        ensures { result.now ≡ self.now }
    {
        &self.inner
    }

    pub fn into_inner(self) -> T
        ensures { result ≡ self }
    {
        let Held { inner } = self;
        inner
    }
}
