//! The parts of a packet after the first one, by a deduced mask and a known content, if there are such
//! (CCSDS 124.0-B-1).

ghost use Rattle.std.specs.Prelude.{◌≡◌, Bool, List, length, IfOk, IsSome};
ghost use Rattle.bit_vectors.specs.Reading.{bits_left, MovesOn};
ghost use Rattle.packet_decode.specs.PacketReading.{Tells, parse_unsent, parse_maskless, parse_masked, parse_data};
ghost use Rattle.packet_decode.specs.Parts.{IsReadyForMask, IsDeduced, IsReady, TakesPart, lent, outcome_of};

use crate::change::FirstPart;
use crate::content::{take_content, take_part, take_whole, take_whole_alone};
use crate::draft::Draft;
use crate::latest::DataKind;
use crate::mask::{match_mask, read_mask};
use bit_vectors::{BitEye, BitFault, Bits};

/// Takes the parts after the first one: a mask that is sent and can't be deduced into `sent`, and the content into
/// the draft.
#[tactic(auto, unfolding(crate::specs::PacketReading::parse_data, crate::specs::PacketReading::parse_sent))]
#[inline(always)]
pub fn take_data(
    eye: &mut BitEye,
    change: &FirstPart,
    deduced: Option<&Bits>,
    known: Option<&Bits>,
    sent: &mut Bits,
    draft: &mut Draft,
) -> Result<DataKind, BitFault>
    requires { IsReadyForMask change.now (lent deduced) (lent known) sent.old draft.old }
    ensures deduced { IfOk result (λ kind. IsDeduced kind → IsSome (lent deduced.entry)) }
    ensures places { length draft.new.content ≡ length draft.old.content }
    ensures sent { length sent.new ≡ length sent.old }
    ensures taken { TakesPart
        (λ kind. outcome_of kind (lent deduced.entry) sent.new draft.new.content) result eye.old eye.new
        (parse_data (length draft.old.content) change.now (lent deduced.entry) (lent known.entry)) }
{
    if eye.take_bit()? {
        take_unsent(eye, change, deduced, known, draft)
    } else if eye.take_bit()? {
        take_masked(eye, change, deduced, known, sent, draft)
    } else {
        take_maskless(eye, change, deduced, known, draft)
    }
}

/// Takes what follows if neither a mask nor a whole content is sent.
#[tactic(auto, unfolding(crate::specs::PacketReading::parse_unsent))]
#[inline(always)]
fn take_unsent(
    eye: &mut BitEye,
    change: &FirstPart,
    deduced: Option<&Bits>,
    known: Option<&Bits>,
    draft: &mut Draft,
) -> Result<DataKind, BitFault>
    requires { IsReady change.now (lent deduced) (lent known) draft.old }
    ensures deduced { IfOk result (λ kind. IsDeduced kind → IsSome (lent deduced.entry)) }
    ensures places { length draft.new.content ≡ length draft.old.content }
    ensures moves { MovesOn eye.old eye.new }
    ensures reading { (sent : List Bool) → Tells
        (λ kind. outcome_of kind (lent deduced.entry) sent draft.new.content) result eye.new
        (parse_unsent change.now (lent deduced.entry) (lent known.entry) (bits_left eye.old)) }
{
    let Some(mask) = deduced else {
        return Ok(DataKind::Opaque);
    };
    Ok(DataKind::Deduced(take_part(eye, change, mask, known, draft)?))
}

/// Takes whole content, which follows if no mask is sent here.
#[tactic(auto, unfolding(crate::specs::PacketReading::parse_maskless))]
#[cold]
fn take_maskless(
    eye: &mut BitEye,
    change: &FirstPart,
    deduced: Option<&Bits>,
    known: Option<&Bits>,
    draft: &mut Draft,
) -> Result<DataKind, BitFault>
    requires { IsReady change.now (lent deduced) (lent known) draft.old }
    ensures deduced { IfOk result (λ kind. IsDeduced kind → IsSome (lent deduced.entry)) }
    ensures places { length draft.new.content ≡ length draft.old.content }
    ensures moves { MovesOn eye.old eye.new }
    ensures reading { (sent : List Bool) → Tells
        (λ kind. outcome_of kind (lent deduced.entry) sent draft.new.content) result eye.new
        (parse_maskless (length draft.old.content) change.now (lent deduced.entry)
        (lent known.entry) (bits_left eye.old)) }
{
    eye.take_allowed(false, true)?;
    let Some(mask) = deduced else {
        take_whole_alone(eye, draft)?;
        return Ok(DataKind::Maskless);
    };
    take_whole(eye, change, mask, known, draft)?;
    Ok(DataKind::Deduced(true))
}

/// Takes what follows if a mask is sent, which is the deduced one if there is one.
#[tactic(auto, unfolding(crate::specs::PacketReading::parse_masked))]
#[cold]
fn take_masked(
    eye: &mut BitEye,
    change: &FirstPart,
    deduced: Option<&Bits>,
    known: Option<&Bits>,
    sent: &mut Bits,
    draft: &mut Draft,
) -> Result<DataKind, BitFault>
    requires { IsReadyForMask change.now (lent deduced) (lent known) sent.old draft.old }
    ensures deduced { IfOk result (λ kind. IsDeduced kind → IsSome (lent deduced.entry)) }
    ensures places { length draft.new.content ≡ length draft.old.content }
    ensures sent { length sent.new ≡ length sent.old }
    ensures taken { TakesPart
        (λ kind. outcome_of kind (lent deduced.entry) sent.new draft.new.content) result eye.old eye.new
        (parse_masked (length draft.old.content) change.now (lent deduced.entry)
        (lent known.entry)) }
{
    let Some(mask) = deduced else {
        read_mask(eye, sent, &mut draft.workspace)?;
        return Ok(DataKind::Sent(take_content(eye, change, sent, known, draft)?));
    };
    match_mask(eye, mask, &mut draft.workspace)?;
    Ok(DataKind::Deduced(take_content(eye, change, mask, known, draft)?))
}
