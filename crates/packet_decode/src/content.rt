//! The content of a packet: all of it, or its extracted bits (CCSDS 124.0-B-1).

ghost use Rattle.std.specs.Prelude.{◌≡◌, true, length, None, Some};
ghost use Rattle.bit_vectors.specs.Reading.{bits_left, Gives, MovesOn};
ghost use Rattle.run_code.specs.Extraction.{parse_filled, places_down};
ghost use Rattle.packet_encode.specs.Forms.{wide_by};
ghost use Rattle.packet_decode.specs.PacketReading.{parse_kept, parse_whole_with, parse_whole_alone, parse_part_with, parse_content, Spelled};
ghost use Rattle.packet_decode.specs.Parts.{IsReady, TakesPart, lent, content_outcome};

use crate::change::FirstPart;
use crate::draft::Draft;
use bit_vectors::{BitEye, BitFault, Bits};
use count_code::match_count;
use run_code::take_into_with;

/// Takes whether the content is whole, and the content into the draft, under a mask. Answers whether it is known then:
/// if no content was known, extracted bits are read, as many as the mask and the first part say, and tell no content.
#[tactic(auto, unfolding(crate::specs::PacketReading::parse_content))]
#[cold]
pub fn take_content(
    eye: &mut BitEye,
    change: &FirstPart,
    mask: &Bits,
    known: Option<&Bits>,
    draft: &mut Draft,
) -> Result<bool, BitFault>
    requires { IsReady change.now (Some mask.now) (lent known) draft.old }
    ensures places { length draft.new.content ≡ length draft.old.content }
    ensures taken { TakesPart
        (λ known. content_outcome known mask.now draft.new.content) result eye.old eye.new
        (parse_content (length draft.old.content) change.now mask.now (lent known.entry)) }
{
    if eye.take_bit()? {
        take_whole(eye, change, mask, known, draft)?;
        Ok(true)
    } else {
        take_part(eye, change, mask, known, draft)
    }
}

/// Takes the extracted bits, and answers whether they tell the content, which they do if a content is known.
#[tactic(auto, unfolding(crate::specs::PacketReading::parse_part_with))]
#[inline(always)]
pub fn take_part(
    eye: &mut BitEye,
    change: &FirstPart,
    mask: &Bits,
    known: Option<&Bits>,
    draft: &mut Draft,
) -> Result<bool, BitFault>
    requires { IsReady change.now (Some mask.now) (lent known) draft.old }
    ensures places { length draft.new.content ≡ length draft.old.content }
    ensures taken { TakesPart
        (λ known. content_outcome known mask.now draft.new.content) result eye.old eye.new
        (parse_part_with change.now mask.now (lent known.entry)) }
{
    let Some(known) = known else {
        take_untold(eye, change, mask, draft)?;
        return Ok(false);
    };
    draft.content.copy_from(known);
    take_extracted(eye, change, mask, draft)?;
    Ok(true)
}

/// Takes the extracted bits, which tell no content, since none is known. The draft may have any content afterwards.
#[cold]
fn take_untold(
    eye: &mut BitEye,
    change: &FirstPart,
    mask: &Bits,
    draft: &mut Draft,
) -> Result<(), BitFault>
    requires { IsReady change.now (Some mask.now) None draft.old }
    ensures places { length draft.new.content ≡ length draft.old.content }
    ensures taken { TakesPart
        (λ _. Spelled (Some mask.now) None) result eye.old eye.new
        (parse_part_with change.now mask.now None) }
{
    take_extracted(eye, change, mask, draft)
}

/// Takes the extracted bits into the content of the draft.
#[inline(always)]
fn take_extracted(
    eye: &mut BitEye,
    change: &FirstPart,
    mask: &Bits,
    draft: &mut Draft,
) -> Result<(), BitFault>
    requires { IsReady change.now (Some mask.now) None draft.old }
    ensures places { length draft.new.content ≡ length draft.old.content }
    ensures moves { MovesOn eye.old eye.new }
    ensures reading { Gives (λ _. draft.new.content) result eye.new
        (parse_filled (places_down (wide_by change.now.directions change.now.recent mask.now))
        draft.old.content (bits_left eye.old)) }
{
    if change.is_wide() {
        draft.places.copy_from(mask);
        change.widen(&mut draft.places);
        take_into_with(eye, &mut draft.content, &draft.places, &mut draft.moves)
    } else {
        take_into_with(eye, &mut draft.content, mask, &mut draft.moves)
    }
}

/// Takes the whole content. If a content is known, the whole one agrees with it outside the extracted places.
#[tactic(auto, unfolding(crate::specs::PacketReading::parse_whole_with, crate::specs::PacketReading::parse_whole))]
#[cold]
pub fn take_whole(
    eye: &mut BitEye,
    change: &FirstPart,
    mask: &Bits,
    known: Option<&Bits>,
    draft: &mut Draft,
) -> Result<(), BitFault>
    requires { IsReady change.now (Some mask.now) (lent known) draft.old }
    ensures places { length draft.new.content ≡ length draft.old.content }
    ensures taken { TakesPart
        (λ _. content_outcome true mask.now draft.new.content) result eye.old eye.new
        (parse_whole_with (length draft.old.content) change.now mask.now (lent known.entry)) }
{
    match_count(eye, draft.content.len())?;
    let Some(known) = known else {
        return eye.take_bits(&mut draft.content);
    };
    draft.places.copy_from(mask);
    change.widen(&mut draft.places);
    take_kept(eye, known, draft)
}

/// Takes the whole content, which may be any, since no mask is known.
#[tactic(auto, unfolding(crate::specs::PacketReading::parse_whole_alone, crate::specs::PacketReading::parse_whole))]
pub fn take_whole_alone(eye: &mut BitEye, draft: &mut Draft) -> Result<(), BitFault>
    ensures places { length draft.new.content ≡ length draft.old.content }
    ensures taken { TakesPart
        (λ _. Spelled None (Some draft.new.content)) result eye.old eye.new
        (parse_whole_alone (length draft.old.content)) }
{
    match_count(eye, draft.content.len())?;
    eye.take_bits(&mut draft.content)
}

/// Takes a content that is the known one outside the draft's places. The first bit that differs is wrong. It is taken at
/// once, so that the eye may stand after a wrong bit.
fn take_kept(eye: &mut BitEye, known: &Bits, draft: &mut Draft) -> Result<(), BitFault>
    requires { length known.now ≡ length draft.old.content }
    ensures places { length draft.new.content ≡ length draft.old.content }
    ensures taken { TakesPart (λ _. draft.new.content) result eye.old eye.new
        (parse_kept draft.old.places known.now) }
{
    let start = eye.at();
    let left = eye.size() - start;
    draft.content.copy_from(known);
    let taken = eye.take_bits(&mut draft.content);
    draft.workspace.copy_from(&draft.content);
    draft.workspace.xor_in(known);
    draft.workspace.drop_in(&draft.places);
    match draft.workspace.next_one_up(0) {
        Some(place) => {
            prove!(place < left);
            Err(BitFault::Wrong { bit: start + place })
        }
        None => taken,
    }
}
