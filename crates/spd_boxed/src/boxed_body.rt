// A body that lies behind a pointer.

ghost use Rattle.std.specs.Prelude.{◌≡◌, true, false, IfOk};
ghost use Rattle.spd_words.specs.declared.event.Event.TheVariants as event;
ghost use Rattle.spd_boxed.specs.BoxedBodies.{boxed_view};

use crate::parts::unboxed_part;
use spd_words::{Body, Event, FinishKind, Part};
use std::alloc::{AllocError, Global};

/// A body in memory of its own. It is what the inner body is, until that gives a body for which there is no
/// memory: then it answers `NoMemory`, and has ended.
#[derive(Drop)]
pub struct BoxedBody<B> {
    pub(crate) inner: Box<InnerBody<B>>,
}

/// What lies behind the pointer.
#[derive(Drop)]
pub struct InnerBody<B> {
    pub(crate) body: B,
    /// It gave a body for which there was no memory.
    pub(crate) lacks: bool,
}

impl<B: Body> BoxedBody<B> {
    /// Puts a body into memory of its own. `AllocError` where there is none.
    pub fn new(alloc: Global, body: B) -> Result<BoxedBody<B>, AllocError>
        ensures { IfOk result (λ boxed. boxed_view B.view boxed ≡ B.view body) }
    {
        let boxed = BoxedBody::boxing(alloc, body)?;
        Ok(boxed)
    }
}

impl<B: Drop> BoxedBody<B> {
    // `new`, of anything.
    fn boxing(alloc: Global, body: B) -> Result<BoxedBody<B>, AllocError>
        ensures { IfOk result (λ boxed. boxed.inner.value ≡ record { body = body; lacks = false }) }
    {
        let inner = InnerBody { body, lacks: false };
        match Box::new(alloc, inner) {
            Ok(inner) => Ok(BoxedBody { inner }),
            Err(_) => Err(AllocError),
        }
    }

    // There was no memory for a body that it gave.
    fn starve(&mut self) -> Event<BoxedBody<B>>
        ensures ended { self.new.inner.value ≡ record self.old.inner.value { lacks = true } }
        ensures tells { result ≡ event.NoMemory }
    {
        self.inner.lacks = true;
        Event::NoMemory
    }
}

impl<B: Body> Body for BoxedBody<B> {
    ghost use Rattle.std.specs.Prelude.{◌≡◌, IfOk, OnErr};
    ghost use Rattle.spd_words.specs.Meaning.{Going, Ended};
    ghost use Rattle.spd_words.specs.BodyCalls.{TakesIn, part_seen};
    ghost use Rattle.spd_boxed.specs.BoxedBodies.{boxed_view, boxed_fits, boxed_resumed};

    ghost view = { boxed_view B.view };

    ghost fits = { boxed_fits B.fits };

    ghost resumed = { boxed_resumed B.resumed };

    fn kind(&self) -> FinishKind {
        self.inner.body.kind()
    }

    fn waits(&self) -> Option<FinishKind> {
        if self.inner.lacks {
            None
        } else {
            self.inner.body.waits()
        }
    }

    fn advance(&mut self, alloc: Global) -> Event<BoxedBody<B>> {
        match self.inner.body.advance(alloc) {
            Event::Offer(value) => Event::Offer(value),
            Event::Fault(code) => Event::Fault(code),
            Event::Async(body) => match BoxedBody::boxing(alloc, body) {
                Ok(body) => Event::Async(body),
                Err(_) => self.starve(),
            },
            Event::Finish(kind, body) => match BoxedBody::boxing(alloc, body) {
                Ok(body) => Event::Finish(kind, body),
                Err(_) => self.starve(),
            },
            Event::Over => Event::Over,
            Event::NoMemory => Event::NoMemory,
        }
    }

    fn inside(&mut self, alloc: Global, part: Part<BoxedBody<B>>) -> Result<(), AllocError>
        requires fits { boxed_fits B.fits self.old part }
        requires stage { (boxed_view B.view self.old).stage ≡ Going }
        ensures part { IfOk result (λ _.
            TakesIn (boxed_view B.view self.old) (boxed_view B.view self.new) (part_seen (boxed_view B.view) part)) }
        ensures memory { OnErr result ((boxed_view B.view self.new).stage ≡ Ended) }
    {
        self.inner.body.inside(alloc, unboxed_part(part))
    }

    fn resume(&mut self, gift: i64, fault: u64) {
        self.inner.body.resume(gift, fault);
    }
}
