//! The second part of a packet: the mask and the content, whole or in part (CCSDS 124.0-B-1).

ghost use Rattle.std.specs.Prelude.{◌≡◌, ◌+◌, ◌*◌, ◌≤◌, ◌++◌, length, if◌then◌else◌, IfOk, None};
ghost use Rattle.std.specs.Vec.{vec_capacity};
ghost use Rattle.bit_vectors.specs.Vectors.{IsPlaces, or_bits};
ghost use Rattle.bit_vectors.specs.Words.{word_count};
ghost use Rattle.count_code.specs.Code.{count_bits};
ghost use Rattle.run_code.specs.Extraction.{extract};
ghost use Rattle.packet_encode.specs.Encoder.{HavePlaces};
ghost use Rattle.packet_encode.specs.Forms.{Part, data_bits, mask_bits, sent_content, sent_of};

use bit_vectors::{BitPen, Bits, Flags, NoMemory};
use count_code::put_count;
use run_code::{WordMoves, edges, moves_of_zeros, put_extract_with, put_runs};
use std::alloc::Global;

/// What writing a packet needs beside its parts, and what it leaves for the next one.
#[derive(Debug, Drop)]
pub(crate) struct Scratch {
    /// The edges of a mask, or the places of the content that are extracted.
    pub(crate) workspace: Bits,
    /// How the extracted bits of each word of the content moved. If the next packet extracts the same places, they are not
    /// found anew.
    pub(crate) moves: Vec<WordMoves>,
    // The moves have the room that `open` took.
    ghost moves_taken: { vec_capacity moves ≡ word_count (length workspace) },
}

impl Scratch {
    /// For inputs of `f` places.
    pub(crate) fn open(alloc: Global, f: u32) -> Result<Scratch, NoMemory>
        requires valid { IsPlaces f }
        ensures { IfOk result (λ scratch. length scratch.workspace ≡ f) }
    {
        let workspace = Bits::zeros(alloc, f)?;
        let moves = moves_of_zeros(alloc, f)?;
        Ok(Scratch { workspace, moves })
    }
}

/// Appends a 1 if neither the mask nor the whole content is sent, and otherwise a 0, the mask if it is sent,
/// and whether the content is whole; then the content, or its bits at the places of the mask, and also of the recent
/// changes if `wide` is true. The workspace vector of `scratch` may then have any bits.
pub(crate) fn put_data(
    pen: &mut BitPen,
    input: &Bits,
    flags: Flags,
    mask: &Bits,
    recent: &Bits,
    wide: bool,
    scratch: &mut Scratch,
)
    requires places { HavePlaces (length input.now) mask.now recent.now scratch.old.workspace }
    requires room { length pen.old.bits + (5 * length input.now + 34) ≤ pen.old.room }
    ensures bits { let places = if wide then or_bits mask.now recent.now else mask.now in
        pen.new.bits ≡ pen.old.bits
        ++ data_bits (sent_of flags.f mask.now) (sent_content flags.r input.now places) }
    ensures room { pen.new.room ≡ pen.old.room }
    ensures workspace { length scratch.new.workspace ≡ length scratch.old.workspace }
{
    let is_short = !flags.f && !flags.r;
    pen.put(is_short);
    if !is_short {
        put_mask(pen, flags.f, mask, &mut scratch.workspace);
        pen.put(flags.r);
    }
    if flags.r {
        put_whole(pen, input);
    } else {
        put_part(pen, input, mask, recent, wide, scratch);
    }
}

/// Makes the bits those of the data if neither the mask nor the whole content is sent and there is no recent change.
pub(crate) fn set_plain_data(pen: &mut BitPen, content: &Bits, mask: &Bits, scratch: &mut Scratch)
    requires places { length mask.now ≡ length content.now }
    requires workspace { length scratch.old.workspace ≡ length content.now }
    requires room { length content.now + 1 ≤ pen.old.room }
    ensures bits { pen.new.bits ≡ data_bits None (Part (extract content.now mask.now)) }
    ensures room { pen.new.room ≡ pen.old.room }
    ensures workspace { length scratch.new.workspace ≡ length scratch.old.workspace }
{
    pen.clear();
    pen.put(true);
    put_extract_with(pen, content, mask, &mut scratch.moves);
}

/// Appends whether the mask is sent, and if it is, the runs of its edges.
#[cold]
fn put_mask(pen: &mut BitPen, send: bool, mask: &Bits, workspace: &mut Bits)
    requires workspace { length workspace.old ≡ length mask.now }
    requires room { length pen.old.bits + (4 * length mask.now + 3) ≤ pen.old.room }
    ensures bits { pen.new.bits ≡ pen.old.bits ++ mask_bits (sent_of send mask.now) }
    ensures most { length pen.new.bits ≤ length pen.old.bits + (4 * length mask.now + 3) }
    ensures room { pen.new.room ≡ pen.old.room }
    ensures workspace { length workspace.new ≡ length workspace.old }
{
    pen.put(send);
    if send {
        edges(mask, workspace);
        put_runs(pen, workspace);
    }
}

/// Appends the number of places and all bits of the content.
#[cold]
fn put_whole(pen: &mut BitPen, content: &Bits)
    requires { length pen.old.bits + (length content.now + 29) ≤ pen.old.room }
    ensures bits { pen.new.bits ≡ pen.old.bits ++ (count_bits (length content.now) ++ content.now) }
    ensures room { pen.new.room ≡ pen.old.room }
{
    put_count(pen, content.len());
    pen.put_bits(content);
}

/// Appends the bits of the content at the places of the mask, and also of the recent changes if `wide` is true.
fn put_part(
    pen: &mut BitPen,
    content: &Bits,
    mask: &Bits,
    recent: &Bits,
    wide: bool,
    scratch: &mut Scratch,
)
    requires places { HavePlaces (length content.now) mask.now recent.now scratch.old.workspace }
    requires room { length pen.old.bits + length content.now ≤ pen.old.room }
    ensures bits { pen.new.bits
        ≡ pen.old.bits ++ extract content.now
        (if wide then or_bits mask.now recent.now else mask.now) }
    ensures room { pen.new.room ≡ pen.old.room }
    ensures workspace { length scratch.new.workspace ≡ length scratch.old.workspace }
{
    if wide {
        scratch.workspace.copy_from(mask);
        scratch.workspace.or_in(recent);
        put_extract_with(pen, content, &scratch.workspace, &mut scratch.moves);
    } else {
        put_extract_with(pen, content, mask, &mut scratch.moves);
    }
}
