// What a statement needs to know of its place.

ghost use Rattle.std.specs.Prelude.{◌≡◌};
ghost use Rattle.spd_check.specs.Places as spec;

/// The kind of item that a statement stands in.
#[derive(Clone, Copy)]
pub(crate) enum Home {
    Main,
    Function,
    Task,
}

/// Where a statement stands.
#[derive(Clone, Copy)]
pub(crate) struct Place {
    pub(crate) home: Home,
    /// It stands in a finish or async block.
    pub(crate) inside: bool,
    /// How many names were visible where the innermost of these blocks stands, or 0.
    pub(crate) outer: usize,
}

impl Place {
    /// The place of an item's own statements.
    pub(crate) fn of(home: Home) -> Place
        ensures { result ≡ spec.place_in home }
    {
        Place {
            home,
            inside: false,
            outer: 0,
        }
    }

    /// The place of a finish or async block here, where so many names are visible.
    pub(crate) fn inside(self, visible: usize) -> Place
        ensures { result ≡ spec.place_inside self visible }
    {
        Place {
            home: self.home,
            inside: true,
            outer: visible,
        }
    }

    /// An `offer`, `async` or `run` here has a finish that it belongs to.
    pub(crate) fn may_collect(self) -> bool
        ensures { result ≡ spec.may_collect self }
    {
        self.inside || matches!(self.home, Home::Task)
    }

    pub(crate) fn may_print(self) -> bool
        ensures { result ≡ spec.may_print self }
    {
        matches!(self.home, Home::Main) && !self.inside
    }

    pub(crate) fn may_return(self) -> bool
        ensures { result ≡ spec.may_return self }
    {
        matches!(self.home, Home::Function) && !self.inside
    }
}
