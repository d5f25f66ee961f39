//! The line that is being read.
#![tactic(auto)]

ghost use Rattle.std.specs.Prelude.{◌≡◌, ◌≤◌, [], IfOk, vec_len, vec_capacity};
ghost use Rattle.lines.specs.Kept.{with_byte};
ghost use Rattle.lines.specs.declared.TheConstants.{KEPT};

use std::alloc::{AllocError, Global};

/// How many bytes of a line are kept; so many tell that the line is too long.
const KEPT: usize = 4097;

/// The first `KEPT` bytes of a line.
#[derive(Drop)]
pub struct LineBuffer {
    bytes: Vec<u8>,
    ghost within: { vec_len bytes ≤ KEPT },
    ghost room: { KEPT ≤ vec_capacity bytes },
}

impl LineBuffer {
    /// Room for a line, and none of its bytes yet.
    pub fn new(heap: Global) -> Result<LineBuffer, AllocError>
        ensures { IfOk result (λ b. b.bytes.items ≡ []) }
    {
        let bytes = Vec::with_capacity(heap, KEPT)?;
        Ok(LineBuffer { bytes })
    }

    /// Takes the line's next byte; past the first `KEPT` it is passed over.
    pub fn push(&mut self, byte: u8)
        ensures { self.new.bytes.items ≡ with_byte self.old.bytes.items byte }
    {
        if self.bytes.len() < KEPT {
            self.bytes.push_reserved(byte);
        }
    }

    /// Begins another line.
    pub fn clear(&mut self)
        ensures { self.new.bytes.items ≡ [] }
    {
        self.bytes.clear();
    }

    /// The bytes of the line so far.
    pub fn as_slice(&self) -> &[u8]
        ensures { result.now ≡ self.now.bytes.items }
    {
        self.bytes.as_slice()
    }
}
