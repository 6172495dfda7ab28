//! The desk over real files.

ghost use Rattle.std.specs.Prelude.{◌≡◌, ◌≤◌, ◌<◌, false, [], length, take, IsTrue, IsFalse, IsErr, IfOk, OnOk, OnErr};
ghost use Rattle.std.specs.Bool.{OnFalse, OnTrue};
ghost use Rattle.std.specs.Io.KnownBytes.{IsAtEnd};
ghost use Rattle.desk_ports.specs.Meanings.{nothing_told, Adds, Begins, HasReadCause, HasWriteCause, IsReadyIn, IsReadyOut, Keeps, Moves, Opens, left};
ghost use Rattle.desk_ports.specs.Courses.{other_than};
ghost use Rattle.desk_ports.specs.FileDesk.{awaits_outlet, expects_report, file_counts, file_meanings, gathered_at, holds_back_at, is_live, is_pending, is_standard_input, is_standard_output, names_standard_input, names_standard_output, other_sink, other_source, sink_at, source_at, stands, unfinished_at, waits_at, GathersNothing, IsHandedOn, IsSteady, IsAllFinished, KeepsOutlets, SameInlets, SameOutlets};

mod outlets;

use crate::desk::{Desk, Failed, Inlet, Outlet};
use crate::progress::Progress;
use crate::read_faults::ReadFaults;
use crate::sink::Sink;
use crate::source::Source;
use crate::write_faults::WriteFaults;
use outlets::UNOPENED;
use std::io;

/// The desk over real files. The name `-` is standard input for an inlet and standard output for an outlet.
///
/// It tells no content, since no clause can say what a file holds. Each error of the system is a fault, but of a
/// write that was interrupted, which goes on; and so is a write that takes nothing. Each read is one call of the system. What is written is gathered, up to
/// 131,072 bytes for each outlet, and handed to the system when it no longer fits, at `finish` and by `hand_over`; and
/// before each read of an inlet that is no regular file, since it may wait for bytes that are still to come. A failure
/// there is answered by the next write, `finish` or `hand_over`.
///
/// An output appears under its name when all that is open is complete: it is written to a part beside the name, `NAME.part`,
/// which takes the name at the `finish` after which no outlet is unfinished, when everything of both was handed to the
/// system; the output's part first, and then the report's. Until then the name keeps what it had. If the name is that of something other than a
/// regular file, such as a device or a pipe, it is written directly. If standard error is a terminal, a line there shows
/// how far the main input is.
#[derive(Drop)]
pub struct FileDesk<'a> {
    rt: &'a HostRuntime,
    has_report: bool,
    side: Source,
    input: Source,
    output: Sink,
    report: Sink,
    read_faults: ReadFaults,
    write_faults: WriteFaults,
    progress: Progress,
}

impl<'a> FileDesk<'a> {
    /// A desk for a command without a report, on which nothing was opened. It grants every name.
    pub fn new(rt: &'a HostRuntime) -> FileDesk<'a>
        ensures untold { ⟦<FileDesk<'a> as Desk>⟧.meaning result ≡ nothing_told }
        ensures no_faults { ⟦<FileDesk<'a> as Desk>⟧.counts result
            ≡ record { reads = 0; writes = 0 } }
        ensures settled { IsFalse (is_pending result) }
        ensures finished { (outlet : Outlet) → IsFalse (unfinished_at result outlet) }
        ensures report { IsFalse (expects_report result) }
    {
        FileDesk::for_command(rt, false)
    }

    /// The same for a command of which it is known whether it has a report. If it has one, no earlier part is replaced before
    /// both outlets were opened, and until then nothing is written or finished.
    pub fn for_command(rt: &'a HostRuntime, has_report: bool) -> FileDesk<'a>
        ensures untold { ⟦<FileDesk<'a> as Desk>⟧.meaning result ≡ nothing_told }
        ensures no_faults { ⟦<FileDesk<'a> as Desk>⟧.counts result
            ≡ record { reads = 0; writes = 0 } }
        ensures settled { IsFalse (is_pending result) }
        ensures finished { (outlet : Outlet) → IsFalse (unfinished_at result outlet) }
        ensures report { expects_report result ≡ has_report }
    {
        FileDesk {
            rt,
            has_report,
            side: Source::Nothing,
            input: Source::Nothing,
            output: Sink::Nothing,
            report: Sink::Nothing,
            read_faults: ReadFaults::none(),
            write_faults: WriteFaults::none(),
            progress: Progress::new(rt),
        }
    }

    /// The error of the system at the last reading that failed, and its inlet. No clause speaks of it.
    pub fn read_fault(&self) -> Option<&(Inlet, io::Error)> {
        self.read_faults.last()
    }

    /// The error at the last writing that failed, of the system or the desk's own reason, also one that no call has answered
    /// yet, and its outlet: what was opened, written, finished or named there. No clause speaks of it.
    pub fn write_fault(&self) -> Option<&(Outlet, io::Error)> {
        self.write_faults.last()
    }

    /// Hands everything to the system that was gathered for both outlets. A run that was refused leaves its outputs
    /// unfinished; after this call they have what it wrote, and their parts wait for their names as before.
    pub fn hand_over(&mut self) -> Result<(), Failed>
        ensures meaning { ⟦<FileDesk<'a> as Desk>⟧.meaning self.new
            ≡ ⟦<FileDesk<'a> as Desk>⟧.meaning self.old }
        ensures cause { HasWriteCause (⟦<FileDesk<'a> as Desk>⟧.counts self.old)
            (⟦<FileDesk<'a> as Desk>⟧.counts self.new) result }
        ensures handed { OnOk result (GathersNothing self.new) }
        ensures waits { (outlet : Outlet)
            → waits_at self.new outlet ≡ waits_at self.old outlet }
        ensures unfinished { (outlet : Outlet)
            → unfinished_at self.new outlet ≡ unfinished_at self.old outlet }
        ensures held { (outlet : Outlet)
            → holds_back_at self.new outlet ≡ holds_back_at self.old outlet }
        ensures standard { (outlet : Outlet) → is_standard_output (sink_at self.new outlet)
            ≡ is_standard_output (sink_at self.old outlet) }
        ensures report { expects_report self.new ≡ expects_report self.old }
        ensures inlets { SameInlets self.old self.new }
        ensures told { IsTrue (is_pending self.old) → IsErr result }
        ensures settled { IsFalse (is_pending self.new) }
    {
        self.progress.end(self.rt);
        self.flush();
        self.write_faults.due()
    }

    // Hands everything to the system that was gathered for both outlets. If that fails, it is left to the next call that
    // writes.
    fn flush(&mut self)
        ensures handed { IsHandedOn self.new }
        ensures pending { IsTrue (is_pending self.old) → IsTrue (is_pending self.new) }
        ensures counts { file_counts self.new ≡ file_counts self.old }
        ensures meaning { file_meanings self.new ≡ file_meanings self.old }
        ensures report { self.new.has_report ≡ self.old.has_report }
        ensures outlets { KeepsOutlets self.old self.new }
        ensures inlets { SameInlets self.old self.new }
    {
        let output = self.output.flush();
        let report = self.report.flush();
        self.write_faults.put_off(Outlet::Report, report);
        self.write_faults.put_off(Outlet::Main, output);
    }

    // Whether a read at the inlet may wait.
    fn is_live(&self, inlet: Inlet) -> bool
        ensures { result ≡ is_live (source_at self.now inlet) }
    {
        match inlet {
            Inlet::Side => self.side.is_live(),
            Inlet::Main => self.input.is_live(),
        }
    }

    // Before a read at the inlet: if it may wait, hands everything to the system that was gathered.
    fn clear_way(&mut self, inlet: Inlet)
        ensures handed { OnTrue (is_live (source_at self.old inlet)) (IsHandedOn self.new) }
        ensures steady { OnFalse (is_live (source_at self.old inlet))
            (SameOutlets self.old self.new × (is_pending self.new ≡ is_pending self.old)) }
        ensures pending { IsTrue (is_pending self.old) → IsTrue (is_pending self.new) }
        ensures counts { file_counts self.new ≡ file_counts self.old }
        ensures meaning { file_meanings self.new ≡ file_meanings self.old }
        ensures report { self.new.has_report ≡ self.old.has_report }
        ensures outlets { KeepsOutlets self.old self.new }
        ensures inlets { SameInlets self.old self.new }
    {
        if self.is_live(inlet) {
            self.flush();
        }
    }

    // Reads once. If that may wait, everything that was gathered was handed to the system before.
    fn read_once(&mut self, inlet: Inlet, buf: &mut [u8]) -> Result<usize, Failed>
        requires open { IsReadyIn (file_meanings self.old) inlet }
        requires handed { OnTrue (is_live (source_at self.old inlet)) (IsHandedOn self.old) }
        ensures within { IfOk result (λ n. n ≤ length buf.old) }
        ensures standard { is_standard_input (source_at self.new inlet)
            ≡ is_standard_input (source_at self.old inlet) }
        ensures live { is_live (source_at self.new inlet) ≡ is_live (source_at self.old inlet) }
        ensures other { other_source self.new inlet ≡ other_source self.old inlet }
        ensures outlets { SameOutlets self.old self.new }
        ensures pending { is_pending self.new ≡ is_pending self.old }
        ensures cause { HasReadCause (file_counts self.old) (file_counts self.new) result }
        ensures meaning { file_meanings self.new ≡ file_meanings self.old }
        ensures report { self.new.has_report ≡ self.old.has_report }
    {
        match inlet {
            Inlet::Side => self.side.read(inlet, buf, &mut self.read_faults),
            Inlet::Main => self.input.read(inlet, buf, &mut self.read_faults),
        }
    }
}

impl<'a> Desk for FileDesk<'a> {
    ghost meaning = { file_meanings };

    ghost counts = { file_counts };

    fn open_in(&mut self, inlet: Inlet, name: &str) -> Result<(), Failed>
        requires { IsTrue ((file_meanings self.old).grants_in name.now) }
        ensures opened { OnOk result
            (Opens (file_meanings self.old) (file_meanings self.new) inlet name.now) }
        ensures unchanged { OnErr result (file_meanings self.new ≡ file_meanings self.old) }
        ensures cause { HasReadCause (file_counts self.old) (file_counts self.new) result }

        // The name says whether it is standard input. At `Failed` the inlet is as before. The other one and both outlets
        // always are.
        ensures standard { OnOk result
            (is_standard_input (source_at self.new inlet) ≡ names_standard_input name.now) }
        ensures same { OnErr result (source_at self.new inlet ≡ source_at self.old inlet) }
        ensures other { other_source self.new inlet ≡ other_source self.old inlet }
        ensures outlets { SameOutlets self.old self.new }
        ensures pending { is_pending self.new ≡ is_pending self.old }
        ensures report { expects_report self.new ≡ expects_report self.old }
    {
        let source = Source::open(self.rt, name);
        let source = self.read_faults.answer(inlet, source)?;
        match inlet {
            Inlet::Side => self.side = source,
            Inlet::Main => {
                self.progress.begin(source.whole());
                self.input = source;
            }
        }
        Ok(())
    }

    fn open_out(&mut self, outlet: Outlet, name: &str) -> Result<(), Failed>
        requires { IsTrue ((file_meanings self.old).grants_out name.now) }
        ensures opened { OnOk result
            (Begins (file_meanings self.old) (file_meanings self.new) outlet name.now) }
        ensures unchanged { OnErr result (file_meanings self.new ≡ file_meanings self.old) }
        ensures cause { HasWriteCause (file_counts self.old) (file_counts self.new) result }

        // Nothing is gathered for the outlet, it is unfinished, and its name says whether it is standard output. At `Failed` it
        // is as before, with what it gathered. The other one is kept, with what it gathered, and both inlets are as before.
        ensures none { OnOk result (gathered_at self.new outlet ≡ []) }
        ensures unfinished { OnOk result (IsTrue (unfinished_at self.new outlet)) }
        ensures standard { OnOk result
            (is_standard_output (sink_at self.new outlet) ≡ names_standard_output name.now) }
        ensures same { OnErr result (sink_at self.new outlet ≡ sink_at self.old outlet) }
        ensures other { IsSteady (other_sink self.old outlet) (other_sink self.new outlet) }
        ensures inlets { SameInlets self.old self.new }
        ensures pending { is_pending self.new ≡ is_pending self.old }
        ensures report { expects_report self.new ≡ expects_report self.old }

        // Both are never standard output.
        ensures apart { IsTrue (names_standard_output name.now)
            → IsTrue (is_standard_output (other_sink self.old outlet)) → IsErr result }

        // If the command has a report and the other outlet is still to be opened, a part takes no bytes yet, and what stood in its
        // place is still there. Otherwise both are begun.
        ensures held { OnOk result (IsTrue (awaits_outlet self.new)
            → holds_back_at self.new outlet ≡ waits_at self.new outlet) }
        ensures begun { OnOk result (IsFalse (awaits_outlet self.new)
            → (outlet : Outlet) → IsFalse (holds_back_at self.new outlet)) }
    {
        let mut sink = match self.open_sink(outlet, name) {
            Ok(sink) => sink,
            Err(error) => return Err(self.write_faults.fault((outlet, error))),
        };
        if let Err(fault) = self.begin(outlet, &mut sink) {
            return Err(self.write_faults.fault(fault));
        }
        if sink.is_terminal(self.rt) {
            self.progress.hide();
        }
        match outlet {
            Outlet::Main => self.output = sink,
            Outlet::Report => self.report = sink,
        }
        Ok(())
    }

    fn read(&mut self, inlet: Inlet, buf: &mut [u8]) -> Result<usize, Failed>
        requires open { IsReadyIn (file_meanings self.old) inlet }
        requires room { 0 < length buf.old }
        ensures within { IfOk result (λ n. n ≤ length buf.old) }
        ensures moved { IfOk result
            (λ n. Moves (file_meanings self.old) (file_meanings self.new) inlet (take n buf.new)) }
        ensures at_end { IfOk result (λ n. n ≡ 0 → IsAtEnd (left (file_meanings self.new) inlet)) }
        ensures unchanged { OnErr result (file_meanings self.new ≡ file_meanings self.old) }
        ensures cause { HasReadCause (file_counts self.old) (file_counts self.new) result }

        // It stays standard input, or a file, and live or not. The other inlet is as before.
        ensures standard { is_standard_input (source_at self.new inlet)
            ≡ is_standard_input (source_at self.old inlet) }
        ensures live { is_live (source_at self.new inlet) ≡ is_live (source_at self.old inlet) }
        ensures other { other_source self.new inlet ≡ other_source self.old inlet }

        // If it isn't live, both outlets are as before, with what they gathered. If it is, that is handed over first; each
        // outlet stays what it is, and if handing over fails, a failed writing is pending.
        ensures steady { OnFalse (is_live (source_at self.old inlet))
            (SameOutlets self.old self.new × (is_pending self.new ≡ is_pending self.old)) }
        ensures handed { OnTrue (is_live (source_at self.old inlet)) (IsHandedOn self.new) }
        ensures pending { IsTrue (is_pending self.old) → IsTrue (is_pending self.new) }
        ensures outlets { KeepsOutlets self.old self.new }
        ensures report { expects_report self.new ≡ expects_report self.old }
    {
        self.clear_way(inlet);
        let moved = self.read_once(inlet, buf)?;
        if inlet == Inlet::Main {
            self.progress.count(self.rt, moved);
        }
        Ok(moved)
    }

    fn write(&mut self, outlet: Outlet, bytes: &[u8]) -> Result<usize, Failed>
        requires open { IsReadyOut (file_meanings self.old) outlet }
        requires some { 0 < length bytes.now }
        ensures within { IfOk result (λ n. n ≤ length bytes.now) }
        ensures progress { IfOk result (λ n. 0 < n) }
        ensures added { IfOk result
            (λ n. Adds (file_meanings self.old) (file_meanings self.new) outlet
            (take n bytes.now)) }
        ensures unchanged { OnErr result (file_meanings self.new ≡ file_meanings self.old) }
        ensures cause { HasWriteCause (file_counts self.old) (file_counts self.new) result }

        // It stays standard output, or a file, and a part waits as before; after Ok it is unfinished. The other outlet is as
        // before, with what it gathered, and both inlets are. If a failed writing is pending, that is all that is answered;
        // and if an outlet is still to be opened, nothing is written.
        ensures standard { is_standard_output (sink_at self.new outlet)
            ≡ is_standard_output (sink_at self.old outlet) }
        ensures waits { waits_at self.new outlet ≡ waits_at self.old outlet }
        ensures unfinished { OnOk result (IsTrue (unfinished_at self.new outlet)) }
        ensures stays { IsTrue (unfinished_at self.old outlet)
            → IsTrue (unfinished_at self.new outlet) }
        ensures other { other_sink self.new outlet ≡ other_sink self.old outlet }
        ensures inlets { SameInlets self.old self.new }
        ensures told { IsTrue (is_pending self.old) → IsErr result × SameOutlets self.old self.new }
        ensures settled { IsFalse (is_pending self.new) }
        ensures early { IsTrue (awaits_outlet self.old)
            → IsErr result × SameOutlets self.old self.new }
        ensures report { expects_report self.new ≡ expects_report self.old }
    {
        self.write_faults.due()?;
        if self.awaits_outlet() {
            return Err(self.write_faults.refuse(outlet, UNOPENED));
        }
        match outlet {
            Outlet::Main => self.output.write(outlet, bytes, &mut self.write_faults)?,
            Outlet::Report => self.report.write(outlet, bytes, &mut self.write_faults)?,
        }
        Ok(bytes.len())
    }

    fn finish(&mut self, outlet: Outlet) -> Result<(), Failed>
        requires { IsReadyOut (file_meanings self.old) outlet }
        ensures kept { OnOk result
            (Keeps (file_meanings self.old) (file_meanings self.new) outlet) }
        ensures unchanged { OnErr result (file_meanings self.new ≡ file_meanings self.old) }
        ensures cause { HasWriteCause (file_counts self.old) (file_counts self.new) result }

        // Nothing is gathered for either outlet any more, and this one is finished. The other one is if it was, and each stays
        // standard output, or a file. Both inlets are as before.
        ensures handed { OnOk result (GathersNothing self.new) }
        ensures finished { OnOk result (IsFalse (unfinished_at self.new outlet)) }
        ensures other { unfinished_at self.new (other_than outlet)
            ≡ unfinished_at self.old (other_than outlet) }
        ensures standard { (outlet : Outlet) → is_standard_output (sink_at self.new outlet)
            ≡ is_standard_output (sink_at self.old outlet) }
        ensures inlets { SameInlets self.old self.new }

        // If the other one is finished, no part waits for its name any more. A part takes its name only if nothing is gathered
        // for either outlet and both are finished, the report's only after the output's, and the output's only if the report's
        // stood in its place; at `Failed` too. If an outlet is still to be opened, nothing is finished or named.
        ensures named { OnOk result (IsFalse (unfinished_at self.old (other_than outlet))
            → (outlet : Outlet) → IsFalse (waits_at self.new outlet)) }
        ensures whole { (outlet : Outlet) → IsTrue (waits_at self.old outlet)
            → IsFalse (waits_at self.new outlet) → IsAllFinished self.new }
        ensures order { IsTrue (waits_at self.new Outlet.Main)
            → waits_at self.new Outlet.Report ≡ waits_at self.old Outlet.Report }
        ensures waits { (outlet : Outlet) → IsFalse (waits_at self.old outlet)
            → IsFalse (waits_at self.new outlet) }
        ensures stands { IsTrue (waits_at self.old Outlet.Main)
            → IsFalse (waits_at self.new Outlet.Main)
            → IsTrue (stands (sink_at self.new Outlet.Report)) }
        ensures told { IsTrue (is_pending self.old) → IsErr result × SameOutlets self.old self.new }
        ensures settled { IsFalse (is_pending self.new) }
        ensures early { IsTrue (awaits_outlet self.old)
            → IsErr result × SameOutlets self.old self.new }
        ensures report { expects_report self.new ≡ expects_report self.old }
    {
        self.progress.end(self.rt);
        self.write_faults.due()?;
        match self.end(outlet) {
            Ok(()) => Ok(()),
            Err(fault) => Err(self.write_faults.fault(fault)),
        }
    }
}
