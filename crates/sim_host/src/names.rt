ghost use Rattle.std.specs.Prelude.{◌≡◌, ◌↔◌, IfOk, IsTrue, bytes_eq};

use sim_memory::NoMemory;
use std::alloc::Global;
use std::marker::Model;

/// The name of a file, seen as its bytes. `name` makes one of a text.
#[derive(Drop)]
pub struct Name {
    bytes: Vec<u8>,
}

impl Model for Name {
    ghost use Rattle.std.specs.Prelude.{ℕ, List};

    ghost Value = { List ℕ };

    ghost view = { λ n. n.bytes.items };
}

impl Name {
    pub(crate) fn from_text(alloc: Global, text: &str) -> Result<Name, NoMemory>
        ensures { IfOk result (λ n. n ≡ text.now) }
    {
        let bytes = Vec::from_slice(alloc, text.as_bytes())?;
        Ok(Name { bytes })
    }

    /// The name's bytes.
    pub fn bytes(&self) -> &[u8]
        ensures { result.now ≡ self.now }
    {
        self.bytes.as_slice()
    }

    /// Another name of the same bytes.
    pub fn copy(&self, alloc: Global) -> Result<Name, NoMemory>
        ensures { IfOk result (λ n. n ≡ self.now) }
    {
        let bytes = Vec::from_slice(alloc, self.bytes.as_slice())?;
        Ok(Name { bytes })
    }

    /// Whether the two names have the same bytes.
    pub fn is(&self, other: &Name) -> bool
        ensures same { IsTrue result ↔ (self.now ≡ other.now) }
        ensures value { result ≡ bytes_eq self.now other.now }
    {
        self.bytes.as_slice() == other.bytes.as_slice()
    }
}

/// What a host was asked for, with the name that it was given.
#[derive(Drop)]
pub enum Asked {
    /// `start` was to begin the file of this name.
    Start(Name),
    /// `create` was to begin the channel File under this name.
    Create(Name),
}
