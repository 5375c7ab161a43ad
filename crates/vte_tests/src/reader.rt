//! A reader for the random streams.

use event_log::Source;

/// A reader that gives one chunk per call, and skips empty ones.
#[derive(Drop)]
pub(crate) struct ChunkReader<'a, 'b> {
    chunks: &'a [&'b [u8]],
    given: usize,
}

impl<'a, 'b> ChunkReader<'a, 'b> {
    pub(crate) fn new(chunks: &'a [&'b [u8]]) -> Self {
        ChunkReader { chunks, given: 0 }
    }
}

impl Source for ChunkReader<'_, '_> {
    ghost use Rattle.std.specs.Prelude.{false, None};

    ghost remaining = { λ reader. None };

    ghost has_failed = { λ reader. false };

    fn read(&mut self, buffer: &mut [u8]) -> Result<usize, ()> {
        let chunks = self.chunks;
        for index in self.given..chunks.len() {
            self.given = index.saturating_add(1);
            let chunk = chunks[index];
            if !chunk.is_empty() {
                let count = chunk.len().min(buffer.len());
                buffer[..count].copy_from_slice(&chunk[..count]);
                return Ok(count);
            }
        }
        Ok(0)
    }
}
