//! What is written of an arrival: its rows with the APID in front, and its content as a Space Packet.

ghost use Rattle.std.specs.Prelude.{◌≡◌, ◌+◌, ◌%◌, ◌≤◌, ◌++◌, ◌∷◌, [], codes, length, true};
ghost use Rattle.std.specs.Fmt.{decimal};
ghost use Rattle.bit_vectors.specs.Vectors.{vector_bytes};
ghost use Rattle.desk_ports.specs.Meanings.{IsReadyOut, HasWriteCause};
ghost use Rattle.desk_ports.specs.Courses.{to_output, to_report};
ghost use Rattle.desk_ports.specs.Turns.{AreReady, Writes};
ghost use Rattle.packet_decode.specs.State.{latest_content};
ghost use Rattle.packet_store.specs.SpacePackets.{period, space_packet};
ghost use Rattle.ground_chain.specs.Reception.{AgreesWith};
ghost use Rattle.ground_chain.specs.Report.{lost_row, own_row};
ghost use Rattle.ground_chain.specs.Run.{Judged};
ghost use Rattle.multi_ground.specs.MultiOutputs.{multi_header, outputs_of, shape_row, tagged};

use bit_vectors::byte_len;
use desk_ports::{Desk, Failed, Outlet, Row, write_all};
use ground_chain::{HEADER, Kind, Verdict, rows_of};
use packet_decode::Decoder;
use packet_store::{PERIOD, header_bytes};

/// The bytes of the longest Space Packet that is written: its header, and a content of 49,152 bits.
pub const LINE_BYTES: usize = 6 + 6144;

/// Writes the report's first line.
pub fn write_header<D: Desk>(desk: &mut D) -> Result<(), Failed>
    requires { IsReadyOut (D.meaning desk.old) Outlet.Report }
    ensures { Writes D.meaning D.counts desk.old desk.new (to_report multi_header) result }
{
    write_all(desk, Outlet::Report, b"apid,")?;
    write_all(desk, Outlet::Report, HEADER.as_bytes())
}

/// Writes what there is to write of an arrival, under the decoder as it stands after it: its rows, and its content as a
/// Space Packet if it is written.
pub fn write_arrival<D: Desk>(
    desk: &mut D,
    line: &mut [u8],
    apid: u16,
    verdict: &Verdict,
    decoder: &Decoder,
) -> Result<(), Failed>
    requires line { length line.old ≡ LINE_BYTES }
    requires chosen { apid ≤ 2046 }
    requires ready { AreReady (λ _. true) (D.meaning desk.old) }
    ensures written { (judged : Judged) → judged.verdict ≡ verdict.now → AgreesWith decoder.now judged
        → Writes D.meaning D.counts desk.old desk.new
        (outputs_of (record { apid = apid; judged = judged } ∷ [])) result }
    ensures cause { HasWriteCause (D.counts desk.old) (D.counts desk.new) result }
{
    write_rows(desk, apid, verdict)?;
    if verdict.kind.is_written() {
        write_packet(desk, line, apid, verdict.t, decoder)?;
    }
    Ok(())
}

/// Writes the rows of a verdict.
fn write_rows<D: Desk>(desk: &mut D, apid: u16, verdict: &Verdict) -> Result<(), Failed>
    requires { IsReadyOut (D.meaning desk.old) Outlet.Report }
    ensures { Writes D.meaning D.counts desk.old desk.new
        (to_report (tagged apid (lost_row verdict.now.lost)
        ++ tagged apid (own_row verdict.now.t verdict.now.kind))) result }
{
    let lost = Verdict {
        kind: Kind::Written,
        ..*verdict
    };
    let own = Verdict {
        lost: None,
        ..*verdict
    };
    write_tagged(desk, apid, &rows_of(&lost))?;
    write_tagged(desk, apid, &rows_of(&own))
}

/// Writes a row with the APID and a comma in front, if it is not empty.
pub fn write_tagged<D: Desk>(desk: &mut D, apid: u16, row: &Row) -> Result<(), Failed>
    requires { IsReadyOut (D.meaning desk.old) Outlet.Report }
    ensures { Writes D.meaning D.counts desk.old desk.new (to_report (tagged apid row.now)) result }
{
    let bytes = row.as_bytes();
    if bytes.is_empty() {
        return Ok(());
    }
    write_all(desk, Outlet::Report, tag(apid).as_bytes())?;
    write_all(desk, Outlet::Report, bytes)
}

/// An APID and a comma.
fn tag(apid: u16) -> Row
    ensures { result ≡ decimal apid ++ codes "," }
{
    let mut row = Row::new();
    row.put_number(u64::from(apid));
    row.put_text(",");
    row
}

/// The report's last line.
pub fn shape_row(count: u64) -> Row
    ensures { result ≡ shape_row count }
{
    let mut row = Row::new();
    row.put_text("shape,");
    row.put_number(count);
    row.put_text("\n");
    row
}

/// Writes the content of the latest written packet, which has this number, as a Space Packet.
fn write_packet<D: Desk>(
    desk: &mut D,
    line: &mut [u8],
    apid: u16,
    t: u64,
    decoder: &Decoder,
) -> Result<(), Failed>
    requires line { length line.old ≡ LINE_BYTES }
    requires chosen { apid ≤ 2046 }
    requires output { IsReadyOut (D.meaning desk.old) Outlet.Main }
    ensures { Writes D.meaning D.counts desk.old desk.new
        (to_output (space_packet apid (t % period)
        (vector_bytes (latest_content decoder.now.places decoder.now.state)))) result }
{
    let content = decoder.content();
    let size = byte_len(content.len());
    let header = header_bytes(apid, (t % PERIOD) as u16, size);
    let packet = &mut line[..header.len() + size as usize];
    packet[..6].copy_from_slice(&header);
    content.store(&mut packet[6..]);
    write_all(desk, Outlet::Main, packet)
}
