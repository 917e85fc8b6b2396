// Vectors that contracts see as lists.
ghost use Rattle.std.specs.Prelude.{◌≡◌};

use crate::program::{HeapName, Segment};
use std::marker::Model;

/// A list of bytes.
#[derive(Debug, Drop)]
pub struct Bytes {
    items: Vec<u8>,
}

impl Model for Bytes {
    ghost use Rattle.std.specs.Prelude.{List, ℕ};

    ghost Value = { List ℕ };

    ghost view = { λ b. b.items.items };
}

impl Bytes {
    pub fn new(items: Vec<u8>) -> Self
        ensures { result ≡ items.items }
    {
        Bytes { items }
    }

    pub fn as_slice(&self) -> &[u8]
        ensures { result.now ≡ self.now }
    {
        &self.items
    }
}

/// A list of segments.
#[derive(Debug, Drop)]
pub struct Segments {
    items: Vec<Segment>,
}

impl Model for Segments {
    ghost use Rattle.std.specs.Prelude.{List};
    ghost use Rattle.infinite_heap.specs.declared.program.Segment.{Segment};

    ghost Value = { List Segment };

    ghost view = { λ s. s.items.items };
}

impl Segments {
    pub fn new(items: Vec<Segment>) -> Self
        ensures { result ≡ items.items }
    {
        Segments { items }
    }

    pub fn into_vec(self) -> Vec<Segment>
        ensures { result.items ≡ self }
    {
        self.items
    }

    pub fn as_slice(&self) -> &[Segment]
        ensures { result.now ≡ self.now }
    {
        &self.items
    }
}

/// A list of heap functions.
#[derive(Debug, Drop)]
pub struct HeapNames {
    items: Vec<HeapName>,
}

impl Model for HeapNames {
    ghost use Rattle.std.specs.Prelude.{List};
    ghost use Rattle.infinite_heap.specs.declared.program.HeapName.{HeapName};

    ghost Value = { List HeapName };

    ghost view = { λ n. n.items.items };
}

impl HeapNames {
    pub fn new(items: Vec<HeapName>) -> Self
        ensures { result ≡ items.items }
    {
        HeapNames { items }
    }

    pub fn as_slice(&self) -> &[HeapName]
        ensures { result.now ≡ self.now }
    {
        &self.items
    }
}
