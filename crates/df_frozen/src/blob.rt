//! Bytes that are a value.

ghost use Rattle.std.specs.Prelude.{◌≡◌, IfOk};

use df_memory::NoMemory;
use std::alloc::Global;
use std::marker::Model;

/// Bytes.
#[derive(Drop)]
pub struct Blob {
    bytes: Vec<u8>,
}

impl Model for Blob {
    ghost use Rattle.std.specs.Prelude.{ℕ, List};

    ghost Value = { List ℕ };

    ghost view = { λ b. b.bytes.items };
}

impl Blob {
    /// Copies the bytes.
    pub fn new(alloc: Global, bytes: &[u8]) -> Result<Blob, NoMemory>
        ensures { IfOk result (λ blob. blob ≡ bytes.now) }
    {
        Ok(Blob {
            bytes: Vec::from_slice(alloc, bytes)?,
        })
    }

    pub fn as_slice(&self) -> &[u8]
        ensures { result.now ≡ self.now }
    {
        self.bytes.as_slice()
    }

    pub fn copy(&self) -> Result<Blob, NoMemory>
        ensures { IfOk result (λ blob. blob ≡ self.now) }
    {
        Blob::new(*self.bytes.allocator(), self.as_slice())
    }
}

/// Those bytes and no copy.
impl From<Vec<u8>> for Blob {
    ghost from_gives = { λ bytes blob. blob ≡ bytes.items };

    fn from(bytes: Vec<u8>) -> Blob {
        Blob { bytes }
    }
}
