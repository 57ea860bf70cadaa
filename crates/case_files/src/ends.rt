//! A link and a terminal in memory that keep to an order.
ghost use Rattle.std.specs.Prelude.{drop, Some};

use crate::order::Order;
use con_outside::{Failed, Fault, MemorySink, MemorySource, Sink, Source};

/// A link that gives the bytes of a place once what they wait for has come.
#[derive(Drop)]
pub struct OrderedSource<'a> {
    pub inner: MemorySource,
    pub order: &'a Order,
}

impl Source for OrderedSource<'_> {
    ghost left = { λ s. Some (drop s.inner.at s.inner.bytes) };

    ghost faults = { λ s. s.inner.faults };

    fn read(&mut self, buf: &mut [u8]) -> Result<usize, Failed> {
        self.order.wait_at(self.inner.at);
        self.inner.read(buf)
    }
}

/// A terminal that tells what it is sent, and writes it once what it waits for has come.
#[derive(Drop)]
pub struct OrderedSink<'a> {
    pub inner: MemorySink,
    pub order: &'a Order,
}

impl Sink for OrderedSink<'_> {
    ghost written = { λ s. Some s.inner.written };

    ghost faults = { λ s. s.inner.faults };

    fn write(&mut self, bytes: &[u8]) -> Result<usize, Fault> {
        self.order.send(bytes);
        self.inner.write(bytes)
    }
}
