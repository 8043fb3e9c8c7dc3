//! A source that keeps what was read of it, for a second look.
ghost use Rattle.std.specs.Prelude.{◌≡◌};

use slate_store::{ReadFault, Source};
use std::alloc::Global;

/// A source, and the bytes that were read of it, while memory suffices for them.
#[derive(Drop)]
pub(crate) struct Kept<S> {
    source: S,
    bytes: Option<Vec<u8>>,
}

impl<S: Source> Kept<S> {
    /// This source, of which nothing was read.
    pub(crate) fn new(alloc: Global, source: S) -> Kept<S> {
        Kept {
            source,
            bytes: Some(Vec::new(alloc)),
        }
    }

    // Keeps bytes that were read, or lets all go where memory runs out.
    fn keep(&mut self, read: &[u8])
        ensures { self.new.source ≡ self.old.source }
    {
        let fits = match &mut self.bytes {
            Some(bytes) => bytes.extend_from_slice(read).is_ok(),
            None => true,
        };
        if !fits {
            self.bytes = None;
        }
    }
}

impl<S: Source + Drop> Kept<S> {
    /// The bytes that were read, none of them where memory ran out.
    pub(crate) fn into_bytes(self, alloc: Global) -> Vec<u8> {
        let Kept {
            source: _source,
            bytes,
        } = self;
        match bytes {
            Some(bytes) => bytes,
            None => Vec::new(alloc),
        }
    }
}

impl<S: Source> Source for Kept<S> {
    ghost left = { λ k. S.left k.source };

    ghost faults = { λ k. S.faults k.source };

    fn read(&mut self, buf: &mut [u8]) -> Result<usize, ReadFault> {
        let count = self.source.read(buf)?;
        self.keep(&buf[..count]);
        Ok(count)
    }
}
