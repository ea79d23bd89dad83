// What a step is told of a body that it can't see.

use std::marker::Brand;

/// What a body means that a caller has and a step can't see: a promise that is put into a view.
///
/// A caller takes `Brand`, and picks what is told where it makes the call.
pub trait Told {
    ghost use Rattle.spd_words.specs.Meaning.{Meaning};

    ghost told: { Meaning };
}

impl Told for Brand {
    ghost use Rattle.spd_rule.specs.Nobody.{nobody};

    ghost told = { nobody };
}
