// Events and parts with and without pointers.

ghost use Rattle.std.specs.Prelude.{◌≡◌};
ghost use Rattle.spd_boxed.specs.BoxedBodies.{unboxed};

use crate::boxed_body::{BoxedBody, InnerBody};
use spd_words::Part;

/// The part, without its pointer.
pub(crate) fn unboxed_part<B: Drop>(part: Part<BoxedBody<B>>) -> Part<B>
    ensures { result ≡ unboxed part }
{
    match part {
        Part::Async(body) => Part::Async(body.into_body()),
        Part::Finish(kind, body) => Part::Finish(kind, body.into_body()),
    }
}

impl<B: Drop> BoxedBody<B> {
    fn into_body(self) -> B
        ensures { result ≡ self.inner.value.body }
    {
        let BoxedBody { inner } = self;
        let InnerBody { body, lacks: _ } = Box::into_inner(inner);
        body
    }
}
