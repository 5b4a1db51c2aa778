//! The first bytes of a line.
ghost use Rattle.std.specs.Prelude.{◌≡◌, ◌==◌, ◌≤◌, ◌++◌, ℕ, List, [], length, take};

use std::marker::Model;

/// How many bytes of a line are kept: one more than a valid line may have.
const ROOM: usize = 81;

/// The first bytes of a line, at most 81. They are in the struct and not allocated. Contracts see the list of them.
#[derive(Drop)]
pub struct Line {
    bytes: [u8; ROOM],
    count: usize,
}

impl Model for Line {
    ghost Value = { List ℕ };

    ghost view = { λ line. take line.count line.bytes };

    ghost invariant = { λ line. line.count ≤ 81 };
}

impl Line {
    /// No bytes.
    pub fn new() -> Self
        ensures { result ≡ [] }
    {
        Line {
            bytes: [0; ROOM],
            count: 0,
        }
    }

    /// The bytes.
    pub fn as_slice(&self) -> &[u8]
        ensures { result.now ≡ self.now }
    {
        &self.bytes[..self.count]
    }

    /// Whether there are no bytes.
    pub fn is_empty(&self) -> bool
        ensures { result ≡ (length self.now == 0) }
    {
        self.count == 0
    }

    /// Keeps the next bytes of the line, as many as there is space for.
    pub fn keep(&mut self, bytes: &[u8])
        ensures { self.new ≡ take 81 (self.old ++ bytes.now) }
    {
        let start = self.count;
        let count = bytes.len().min(ROOM - start);
        if count == 0 {
            return;
        }
        let end = start + count;
        self.bytes[start..end].copy_from_slice(&bytes[..count]);
        self.count = end;
    }
}
