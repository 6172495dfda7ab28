//! One packet of a store, as it is read.

ghost use Rattle.std.specs.Prelude.{◌≡◌, ◌+◌, ◌<◌, [], take, IfErr};
ghost use Rattle.std.specs.Io.KnownBytes.{IsAtEnd};
ghost use Rattle.desk_ports.specs.Meanings.{IsReadyIn, left, ReadsOn};
ghost use Rattle.packet_store.specs.SpacePackets.{header_of};
ghost use Rattle.packet_store.specs.Walks.{IsGood};
ghost use Rattle.packet_store.specs.Answers.{IfGiven, OnEnd};
ghost use Rattle.packet_store.specs.StoreReader.{HasStoreCause, AfterUnread, BeginsWithPacket, front_packet};

use crate::fault::StoreFault;
use crate::header::{HEADER_BYTES, Header, first_header};
use desk_ports::{Desk, Inlet, ReadAhead};

/// Makes sure that the whole packet at this offset is ahead, and tells its header. `None`: the input is at its end.
#[inline(always)]
pub fn hold_packet<D: Desk>(
    input: &mut ReadAhead,
    desk: &mut D,
    chosen: Option<u16>,
    offset: u64,
) -> Result<Option<Header>, StoreFault>
    requires open { IsReadyIn (D.meaning desk.old) Inlet.Main }
    ensures good { IfGiven result (λ h. IsGood chosen (front_packet h input.new)) }
    ensures header { IfGiven result (λ h. take 6 input.new ≡ header_of h) }
    ensures read { ReadsOn input.old input.new (D.meaning desk.old) (D.meaning desk.new) }
    ensures none { OnEnd result (input.new ≡ []) }
    ensures at_end { OnEnd result (IsAtEnd (left (D.meaning desk.new) Inlet.Main)) }
    ensures unread { IfErr result (AfterUnread chosen offset input.new (D.meaning desk.new)) }
    ensures whole { BeginsWithPacket chosen input.old → desk.new ≡ desk.old }
    ensures cause { HasStoreCause (D.counts desk.old) (D.counts desk.new) result }
{
    if !input.hold(desk, HEADER_BYTES)? {
        if input.bytes().is_empty() {
            return Ok(None);
        }
        return Err(StoreFault::Cut { byte: offset });
    }
    let header = first_header(input.bytes());
    if header.version != 0 {
        return Err(StoreFault::Version { byte: offset });
    }
    if header.is_misshapen(chosen) {
        return Err(StoreFault::Shape { byte: offset });
    }
    if !input.hold(desk, HEADER_BYTES + header.size())? {
        return Err(StoreFault::Cut { byte: offset });
    }
    Ok(Some(header))
}
