//! Bodies whose bytes are counted as they come.
ghost use Rattle.std.specs.Prelude.{◌≡◌};

use bytes::Bytes;
use futures::task::{Context, Poll};
use http_body::{Body, Frame, SizeHint};
use hyper::body::Incoming;
use std::sync::atomic::{AtomicU64, Ordering};

/// A body that adds to a count how many bytes came.
#[derive(Drop)]
pub(crate) struct Counted<'a, I> {
    body: Incoming<I>,
    came: &'a AtomicU64,
}

impl<'a, I> Counted<'a, I> {
    pub(crate) fn new(body: Incoming<I>, came: &'a AtomicU64) -> Counted<'a, I> {
        Counted { body, came }
    }
}

impl<I: Drop> Body for Counted<'_, I> {
    ghost use Rattle.hyper.specs.Incoming.{IncomingNeeds, IncomingYields};

    type Data = Bytes;

    type Error = hyper::Error;

    ghost needs = { λ counted. IncomingNeeds counted.body };

    ghost yields = { λ counted. IncomingYields counted.body };

    fn poll_frame(
        &mut self,
        cx: &mut Context<'_>,
    ) -> Poll<Option<Result<Frame<Bytes>, hyper::Error>>> {
        let polled = self.body.poll_frame(cx);
        if let Poll::Ready(Some(Ok(frame))) = &polled
            && let Some(data) = frame.data_ref()
        {
            self.came.fetch_add(data.len() as u64, Ordering::SeqCst);
        }
        polled
    }

    fn is_end_stream(&self) -> bool {
        self.body.is_end_stream()
    }

    fn size_hint(&self) -> SizeHint {
        self.body.size_hint()
    }
}
