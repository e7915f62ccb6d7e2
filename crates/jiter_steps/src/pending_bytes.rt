//! A small buffer for the bytes of an incomplete character or escape.
ghost use Rattle.std.specs.Prelude.{◌≡◌, ◌+◌, ◌≤◌, ◌++◌, [], length};

use std::marker::Model;

// The escapes of a surrogate pair have twelve bytes. An incomplete character has three at most; four are added at most.
const LIMIT: usize = 20;

#[derive(Drop)]
pub(crate) struct PendingBytes {
    bytes: [u8; LIMIT],
    count: usize,
}

impl Model for PendingBytes {
    ghost use Rattle.std.specs.Prelude.{◌≤◌, List, ℕ, take};

    ghost Value = { List ℕ };

    ghost view = { λ h. take h.count h.bytes };

    ghost invariant = { λ h. h.count ≤ 20 };
}

impl PendingBytes {
    pub(crate) fn new() -> PendingBytes
        ensures { result ≡ [] }
    {
        PendingBytes {
            bytes: [0; LIMIT],
            count: 0,
        }
    }

    pub(crate) fn as_slice(&self) -> &[u8]
        ensures value { result.now ≡ self.now }
        ensures few { length result.now ≤ 20 }
    {
        &self.bytes[..self.count]
    }

    pub(crate) fn with(&self, more: &[u8]) -> PendingBytes
        requires { length self.now + length more.now ≤ 20 }
        ensures { result ≡ self.now ++ more.now }
    {
        let mut bytes = self.bytes;
        let count = self.count + more.len();
        bytes[self.count..count].copy_from_slice(more);
        PendingBytes { bytes, count }
    }
}
