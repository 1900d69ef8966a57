ghost use Rattle.std.specs.Prelude.{◌≡◌, ◌↔◌, ◌⊎◌, ◌<◌, ℕ, false, IsTrue, OnOk, OnErr, Some, slice_index_or, if◌then◌else◌};
ghost use Rattle.std.specs.Ordering.{is_eq};
ghost use Rattle.year_labels.specs.declared.label.Fact.{Fact as AnyFact};
ghost use Rattle.year_labels.specs.Order.{fact_cmp};
ghost use Rattle.label_spread.specs.FactSets as spec;

use std::alloc::Global;
use std::collections::BTreeMap;
use y2k_base::{BytePlace, Memory};
use year_labels::Fact;

/// A set of facts. It says of each block of 64 bytes and each label which of the bytes bear the label, so that it has
/// one entry for up to 64 facts. The key is the fact of the block's first byte.
#[derive(Drop)]
pub(crate) struct FactSet {
    blocks: BTreeMap<Fact, [bool; 64]>,
}

impl FactSet {
    pub(crate) fn new(alloc: Global) -> FactSet
        ensures { (fact : AnyFact) → spec.IsIn result fact → ⊥ }
    {
        FactSet {
            blocks: BTreeMap::new(alloc),
        }
    }

    pub(crate) fn has(&self, fact: Fact) -> bool
        ensures { IsTrue result ↔ spec.IsIn self.now fact }
    {
        let byte = byte_of(fact);
        match self.bytes_at(block_of(fact)) {
            Some(bytes) => bytes[byte],
            None => false,
        }
    }

    pub(crate) fn insert(&mut self, fact: Fact) -> Result<(), Memory>
        ensures ok { OnOk result ((other : AnyFact) → spec.IsIn self.new other ↔ (spec.IsIn self.old other ⊎ (other ≡ fact))) }
        ensures err { OnErr result ((other : AnyFact) → spec.IsIn self.new other ↔ spec.IsIn self.old other) }
    {
        let block = block_of(fact);
        let bytes = with_byte(self.bytes_of(block), byte_of(fact));
        self.put(block, bytes)?;
        Ok(())
    }

    /// Which bytes of the block bear its label, where that is known of one.
    fn bytes_at(&self, block: Fact) -> Option<[bool; 64]>
        ensures { result ≡ spec.held self.now block }
    {
        self.blocks.get(&block).copied()
    }

    /// Which bytes of the block bear its label.
    fn bytes_of(&self, block: Fact) -> [bool; 64]
        ensures { (byte : ℕ) → IsTrue (slice_index_or result byte false) ↔ spec.Bears (spec.held self.now block) byte }
    {
        match self.bytes_at(block) {
            Some(bytes) => bytes,
            None => no_bytes(),
        }
    }

    fn put(&mut self, block: Fact, bytes: [bool; 64]) -> Result<(), Memory>
        ensures ok { OnOk result ((other : AnyFact) → spec.held self.new other ≡ (if is_eq (fact_cmp block other) then Some bytes else spec.held self.old other)) }
        ensures err { OnErr result ((other : AnyFact) → spec.held self.new other ≡ spec.held self.old other) }
    {
        self.blocks.insert(block, bytes)?;
        Ok(())
    }
}

/// That the first byte of the fact's block bears the label.
fn block_of(fact: Fact) -> Fact
    ensures { result ≡ spec.block_of fact }
{
    let area = fact.place.area;
    let offset = fact.place.offset - fact.place.offset % 64;
    Fact {
        place: BytePlace { area, offset },
        label: fact.label,
    }
}

/// Which byte of its block the byte of the fact is.
fn byte_of(fact: Fact) -> usize
    ensures small { result < 64 }
    ensures value { result ≡ spec.byte_of fact }
{
    (fact.place.offset % 64) as usize
}

fn no_bytes() -> [bool; 64]
    ensures { (byte : ℕ) → IsTrue (slice_index_or result byte false) → ⊥ }
{
    [false; 64]
}

/// The bytes, of which that one bears the label too.
fn with_byte(bytes: [bool; 64], byte: usize) -> [bool; 64]
    requires { byte < 64 }
    ensures { (other : ℕ) → IsTrue (slice_index_or result other false) ↔ (IsTrue (slice_index_or bytes other false) ⊎ (other ≡ byte)) }
{
    let mut more = bytes;
    more[byte] = true;
    more
}
