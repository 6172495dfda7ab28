//! The calls of a receiver.

ghost use Rattle.std.specs.Prelude.{◌≡◌, ℕ, ◌<◌, ◌↔◌, ◌++◌, ◌∷◌, [], List, Err, None, Some, length, drop};
ghost use Rattle.ground_chain.specs.Reception.{next_judged, HasJudged, Judges, Reckoning, nothing_judged};
ghost use Rattle.ground_chain.specs.Report.{kind_value, tells_mask_alone, written_bytes};
ghost use Rattle.ground_chain.specs.Run.{Arrival};
ghost use Rattle.packet_calls.specs.Refusals.{opening_fault};
ghost use Rattle.pocket_c.specs.Answers.{opening_status, receiving_status};
ghost use Rattle.pocket_c.specs.Kinds.{HasOtherThanReceiver};
ghost use Rattle.pocket_c.specs.Statuses.{IsOneOf, status_number};
ghost use Rattle.pocket_c.specs.Verdicts.{counts_told, finding_of, first_lost, kind_number, lost_number};

use crate::held::{Handle, Held};
use crate::status::CallStatus;
use bit_vectors::BitFault;
use ground_chain::{Kind, Lost, Restored, Verdict};
use packet_calls::Receiver;
use std::alloc::Global;

/// What is found of an arrival, as C sees it.
#[repr(C)]
#[derive(Clone, Copy, Debug, PartialEq, Eq)]
pub struct Finding {
    /// The packet's number, from 0.
    pub number: u64,
    /// The first number that did not arrive before it, and 0 if none is missing.
    pub first_lost: u64,
    /// How many numbers did not arrive before it.
    pub lost: u64,
    /// 0 if it is written, 1 for a repeat, 2 if nothing is known yet, 3 for a gap, 4 for a wrong bit, 5 for an early end.
    pub kind: u32,
    /// The effective robustness level at a gap, the bit's number at a wrong bit or an early end, and otherwise 0.
    pub value: u32,
    /// Its mask became known, and its content did not.
    pub mask_alone: bool,
}

/// The numbers of the arrivals so far, as C sees them.
#[repr(C)]
#[derive(Clone, Copy, Debug, PartialEq, Eq)]
pub struct Counts {
    /// The packets that arrived, repeats too.
    pub packets: u64,
    /// The packets that were written.
    pub written: u64,
    /// The repeats.
    pub repeats: u64,
    /// The packets up to the last arrival that are not written.
    pub listed: u64,
}

/// What C sees of a verdict.
fn found_by(verdict: &Verdict) -> Finding
    ensures { result ≡ finding_of verdict.now }
{
    let (first_lost, lost) = lost_before(verdict.lost);
    let (kind, value) = numbers_of(verdict.kind);
    Finding {
        number: verdict.t,
        first_lost,
        lost,
        kind,
        value,
        mask_alone: is_mask_alone(verdict.kind),
    }
}

/// The first lost number, and how many there are.
fn lost_before(lost: Option<Lost>) -> (u64, u64)
    ensures first { result.0 ≡ first_lost lost }
    ensures count { result.1 ≡ lost_number lost }
{
    match lost {
        None => (0, 0),
        Some(lost) => (
            lost.first,
            lost.last.saturating_sub(lost.first).saturating_add(1),
        ),
    }
}

/// The number of a kind, and what belongs to it.
fn numbers_of(kind: Kind) -> (u32, u32)
    ensures kind { result.0 ≡ kind_number kind }
    ensures value { result.1 ≡ kind_value kind }
{
    match kind {
        Kind::Written => (0, 0),
        Kind::Repeat => (1, 0),
        Kind::Unsynced { .. } => (2, 0),
        Kind::Gap { level, .. } => (3, u32::from(level)),
        Kind::Refused {
            fault: BitFault::Wrong { bit },
        } => (4, bit),
        Kind::Refused {
            fault: BitFault::EndsEarly { bit },
        } => (5, bit),
    }
}

/// Whether the mask of an arrival became known, and its content did not.
fn is_mask_alone(kind: Kind) -> bool
    ensures { result ≡ tells_mask_alone kind }
{
    match kind {
        Kind::Unsynced { mask } => mask,
        Kind::Gap { mask, .. } => mask,
        Kind::Written | Kind::Repeat | Kind::Refused { .. } => false,
    }
}

/// The numbers of the arrivals so far, as C sees them.
fn counts_by(restored: &Restored) -> Counts
    ensures { result ≡ counts_told restored.now }
{
    Counts {
        packets: restored.packets,
        written: restored.written,
        repeats: restored.repeats,
        listed: restored.listed,
    }
}

/// Opens a receiver of vectors of 1 to 49,152 places in a handle that holds nothing. It takes all memory that later calls
/// need.
#[unsafe(no_mangle)]
pub extern "C" fn pocket_receiver_open(alloc: Global, handle: &mut Handle, places: u32) -> u32
    ensures answer { (result ≡ status_number CallStatus.NoMemory → ⊥)
        → result ≡ status_number (opening_status handle.old.held places None) }
    ensures no_memory { result ≡ status_number CallStatus.NoMemory
        → (handle.old.held ≡ None) × (opening_fault places None ≡ None) }
    ensures opened { result ≡ status_number CallStatus.Done
        → (r : Reckoning) × (handle.new.held ≡ Some (Held.Receiver r))
        × (r ≡ nothing_judged places) × HasJudged places [] r }
    ensures unchanged { (result ≡ status_number CallStatus.Done → ⊥)
        → handle.new.held ≡ handle.old.held }
{
    if handle.is_open(alloc) {
        return CallStatus::Open.number();
    }
    match Receiver::open(alloc, places) {
        Ok(receiver) => handle.hold(alloc, Held::Receiver(receiver)).number(),
        Err(fault) => CallStatus::from(fault).number(),
    }
}

/// Begins a new stream by the receiver that a handle holds, in the memory that it has: nothing has arrived. Its contents have as many
/// bits as before. It takes no memory.
#[unsafe(no_mangle)]
pub extern "C" fn pocket_receiver_reset(alloc: Global, handle: &mut Handle) -> u32
    ensures only { IsOneOf result (CallStatus.Done ∷ CallStatus.Closed ∷ CallStatus.OtherKind ∷ []) }
    ensures closed { (result ≡ status_number CallStatus.Closed) ↔ (handle.old.held ≡ None) }
    ensures other { (result ≡ status_number CallStatus.OtherKind)
        ↔ HasOtherThanReceiver handle.old.held }
    ensures unchanged { (result ≡ status_number CallStatus.Done → ⊥)
        → handle.new.held ≡ handle.old.held }
    ensures right { (r : Reckoning) → handle.old.held ≡ Some (Held.Receiver r)
        → result ≡ status_number CallStatus.Done }
    // It is what `pocket_receiver_open` gives for as many bits.
    ensures anew { (r : Reckoning) → handle.old.held ≡ Some (Held.Receiver r)
        → let f = r.reception.decoder.places in
        (next : Reckoning) × (handle.new.held ≡ Some (Held.Receiver next))
        × (next ≡ nothing_judged f) × HasJudged f [] next }
{
    let Some(mut held) = handle.take(alloc) else {
        return CallStatus::Closed.number();
    };
    let status = match &mut *held {
        Held::Receiver(receiver) => {
            receiver.reset();
            CallStatus::Done
        }
        Held::Sender(_) | Held::Bench(_) => CallStatus::OtherKind,
    };
    handle.put(alloc, held);
    status.number()
}

/// Judges the next arrival by the receiver that a handle holds: `finding` tells what is found of it, and if it is written its
/// content is in the first bytes of `out`. It takes no memory.
#[unsafe(no_mangle)]
pub extern "C" fn pocket_receive(
    alloc: Global,
    handle: &mut Handle,
    count: u16,
    bytes: &[u8],
    out: &mut [u8],
    found: &mut Finding,
) -> u32
    ensures answer { result
        ≡ status_number (receiving_status handle.old.held count bytes.now (length out.old)) }
    ensures unchanged { (result ≡ status_number CallStatus.Done → ⊥)
        → (handle.new.held ≡ handle.old.held) × (out.new ≡ out.old) × (found.new ≡ found.old) }
    ensures found { (r : Reckoning) → handle.old.held ≡ Some (Held.Receiver r)
        → result ≡ status_number CallStatus.Done
        → found.new ≡ finding_of (next_judged r.reception count bytes.now).verdict }
    ensures stands { (r : Reckoning) → handle.old.held ≡ Some (Held.Receiver r)
        → result ≡ status_number CallStatus.Done
        → (next : Reckoning) × (handle.new.held ≡ Some (Held.Receiver next))
        × (next.reception.decoder.places ≡ r.reception.decoder.places)
        × Judges r next count bytes.now
        × ((f : ℕ) (arrivals : List Arrival) → HasJudged f arrivals r
        → HasJudged f (arrivals ++ record { count = count; body = bytes.now } ∷ []) next) }
    ensures content { (r : Reckoning) → handle.old.held ≡ Some (Held.Receiver r)
        → result ≡ status_number CallStatus.Done
        → let content = written_bytes (next_judged r.reception count bytes.now) in
        out.new ≡ content ++ drop (length content) out.old }
{
    let Some(mut held) = handle.take(alloc) else {
        return CallStatus::Closed.number();
    };
    let verdict = match &mut *held {
        Held::Receiver(receiver) => match receiver.receive(count, bytes, out) {
            Ok(verdict) => Ok(verdict),
            Err(fault) => Err(CallStatus::from(fault)),
        },
        Held::Sender(_) | Held::Bench(_) => Err(CallStatus::OtherKind),
    };
    handle.put(alloc, held);
    match verdict {
        Ok(verdict) => {
            *found = found_by(&verdict);
            CallStatus::Done.number()
        }
        Err(status) => status.number(),
    }
}

/// The numbers of the arrivals so far of the receiver that a handle holds.
#[unsafe(no_mangle)]
pub extern "C" fn pocket_counts(alloc: Global, handle: &mut Handle, told: &mut Counts) -> u32
    ensures only { IsOneOf result (CallStatus.Done ∷ CallStatus.Closed ∷ CallStatus.OtherKind ∷ []) }
    ensures closed { (result ≡ status_number CallStatus.Closed) ↔ (handle.old.held ≡ None) }
    ensures other { (result ≡ status_number CallStatus.OtherKind)
        ↔ HasOtherThanReceiver handle.old.held }
    ensures told { (r : Reckoning) → handle.old.held ≡ Some (Held.Receiver r)
        → (result ≡ status_number CallStatus.Done) × (told.new ≡ counts_told r.restored) }
    ensures unchanged { handle.new.held ≡ handle.old.held }
    ensures untold { (result ≡ status_number CallStatus.Done → ⊥) → told.new ≡ told.old }
{
    let Some(held) = handle.take(alloc) else {
        return CallStatus::Closed.number();
    };
    let status = match &*held {
        Held::Receiver(receiver) => {
            *told = counts_by(receiver.restored());
            CallStatus::Done
        }
        Held::Sender(_) | Held::Bench(_) => CallStatus::OtherKind,
    };
    handle.put(alloc, held);
    status.number()
}
