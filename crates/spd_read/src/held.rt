// A value that one call lets go.

ghost use Rattle.std.specs.Prelude.{◌≡◌};

/// A value between two steps that may fail. One call lets it go, whatever its type is; an enum by itself would be taken
/// apart, case by case, wherever a step fails.
pub struct Held<T: Drop> {
    pub value: T,
}

impl<T: Drop> Held<T> {
    /// The value.
    pub fn release(self) -> T
        ensures { result ≡ self.value }
    {
        let Held { value } = self;
        value
    }
}

impl<T: Drop> Drop for Held<T> {
    fn drop(self) {
        let Held { value: _value } = self;
    }
}
