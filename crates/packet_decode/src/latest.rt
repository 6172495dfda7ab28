//! The latest known vectors, and what the parts of a packet are.

ghost use Rattle.std.specs.Prelude.{◌≡◌, ◌↔◌, ◌&&◌, false, length, replicate, None, IfOk, IsTrue};
ghost use Rattle.packet_decode.specs.Parts.{tells_content, tells_mask};
ghost use Rattle.bit_vectors.specs.Vectors.{IsPlaces};

use bit_vectors::{Bits, NoMemory};
use std::alloc::Global;

/// The latest mask that became known and the latest content that did, each with the number of its packet. Before the
/// first they are zero.
#[derive(Debug, Drop)]
pub struct Latest {
    pub mask_number: Option<u64>,
    /// The mask: ones where the content can't be predicted.
    pub mask: Bits,
    pub content_number: Option<u64>,
    pub content: Bits,
}

/// What the parts after the first one are.
#[derive(Clone, Copy, Debug, PartialEq, Eq)]
pub enum DataKind {
    /// They are read under the deduced mask. Whether they tell the content.
    Deduced(bool),
    /// They have a mask, and none was deduced. Whether they tell the content.
    Sent(bool),
    /// They have whole content, and no mask is known.
    Maskless,
    /// They have too little to be understood.
    Opaque,
}

impl Latest {
    /// Nothing is known yet; the vectors have `f` places.
    pub fn none(alloc: Global, f: u32) -> Result<Latest, NoMemory>
        requires valid { IsPlaces f }
        ensures mask_number { IfOk result (λ latest. latest.mask_number ≡ None) }
        ensures content_number { IfOk result (λ latest. latest.content_number ≡ None) }
        ensures mask { IfOk result (λ latest. latest.mask ≡ replicate f false) }
        ensures content { IfOk result (λ latest. latest.content ≡ replicate f false) }
    {
        let mask = Bits::zeros(alloc, f)?;
        let content = Bits::zeros(alloc, f)?;
        Ok(Latest {
            mask_number: None,
            mask,
            content_number: None,
            content,
        })
    }

    /// Nothing is known any more; the vectors have as many places as before.
    pub fn reset(&mut self)
        ensures mask_number { self.new.mask_number ≡ None }
        ensures content_number { self.new.content_number ≡ None }
        ensures mask { self.new.mask ≡ replicate (length self.old.mask) false }
        ensures content { self.new.content ≡ replicate (length self.old.content) false }
    {
        self.mask_number = None;
        self.mask.clear();
        self.content_number = None;
        self.content.clear();
    }
}

impl DataKind {
    /// Whether they have too little to be understood.
    pub fn is_opaque(self) -> bool
        ensures { IsTrue result ↔ (self ≡ DataKind.Opaque) }
    {
        matches!(self, DataKind::Opaque)
    }

    /// Whether they tell the content.
    pub fn tells_content(self) -> bool
        ensures { result ≡ tells_content self }
    {
        match self {
            DataKind::Deduced(known) | DataKind::Sent(known) => known,
            DataKind::Maskless => true,
            DataKind::Opaque => false,
        }
    }

    /// Whether they tell the mask and the content.
    pub fn tells_both(self) -> bool
        ensures { result ≡ (tells_mask self && tells_content self) }
    {
        matches!(self, DataKind::Deduced(true) | DataKind::Sent(true))
    }
}
