ghost use Rattle.std.specs.Prelude.{◌≡◌, ◌+◌, ◌<◌, ◌≤◌, ◌^◌, ◌++◌, ◌∷◌, [], length, get_or, OnOk, OnErr};

use cook_bits::NoMemory;
use std::alloc::Global;
use std::marker::Model;

/// Where a text begins among the bytes, and how many bytes it has.
#[derive(Clone, Copy, Debug, Drop)]
struct Span {
    start: u32,
    len: u16,
}

/// Texts, one behind the other in one list of bytes. Contracts see a list of texts.
#[derive(Drop)]
pub(crate) struct Texts {
    bytes: Vec<u8>,
    spans: Vec<Span>,
}

impl Model for Texts {
    ghost use Rattle.std.specs.Prelude.{List, ℕ};

    ghost Value = { List (List ℕ) };

    ghost use Rattle.name_tree.specs.Texts.{texts_of, AreWithin};

    ghost view = { λ t. texts_of t.bytes.items t.spans.items };

    ghost invariant = { λ t. AreWithin t.bytes.items t.spans.items };
}

impl Texts {
    pub(crate) fn new(alloc: Global) -> Texts
        ensures { result ≡ [] }
    {
        Texts {
            bytes: Vec::new(alloc),
            spans: Vec::new(alloc),
        }
    }

    pub(crate) fn len(&self) -> usize
        ensures { result ≡ length self.now }
    {
        self.spans.len()
    }

    #[inline]
    pub(crate) fn get(&self, at: usize) -> &[u8]
        requires { at < length self.now }
        ensures { result.now ≡ get_or self.now at [] }
    {
        let span = self.spans[at];
        let start = span.start as usize;
        &self.bytes[start..start + span.len as usize]
    }

    /// Adds a text. After a refusal the texts are as before.
    pub(crate) fn push(&mut self, text: &[u8]) -> Result<(), NoMemory>
        requires { length text.now < 2 ^ 16 }
        ensures ok { OnOk result (self.new ≡ self.old ++ text.now ∷ []) }
        ensures err { OnErr result (self.new ≡ self.old) }
    {
        let start = self.bytes.len();
        if start > u32::MAX as usize {
            return Err(NoMemory);
        }
        let span = Span {
            start: start as u32,
            len: text.len() as u16,
        };
        self.spans.reserve(1)?;
        self.bytes.extend_from_slice(text)?;
        self.spans.push(span)?;
        Ok(())
    }
}
