//! The outlets of a desk of files: opening one, beginning to write, and finishing.

ghost use Rattle.std.specs.Prelude.{◌≡◌, ◌&&◌, not, [], IsTrue, IsFalse, IsErr, IfOk, OnOk};
ghost use Rattle.desk_ports.specs.Meanings.{IsReadyOut};
ghost use Rattle.desk_ports.specs.Courses.{other_than};
ghost use Rattle.desk_ports.specs.FileDesk.{awaits_outlet, file_meanings, gathered, holds_back, is_opened_sink, is_standard_output, is_unfinished, names_standard_output, other_sink, sink_at, stands, unfinished_at, waits, waits_at, GathersNothing, IsSteady, IsAllFinished, SameInlets, SameOutlets};

use super::FileDesk;
use crate::desk::Outlet;
use crate::part::refused;
use crate::sink::Sink;
use crate::write_faults::at;
use std::io;

/// Why nothing is written or finished yet.
pub(super) const UNOPENED: &str = "the other output is still to be opened";

impl<'a> FileDesk<'a> {
    // Opens what the bytes of an outlet go to. If it fails, no part is left that was made for the other one and is not begun.
    pub(super) fn open_sink(&self, outlet: Outlet, name: &str) -> io::Result<Sink>
        ensures opened { IfOk result (λ sink. IsTrue (is_opened_sink sink)) }
        ensures none { IfOk result (λ sink. gathered sink ≡ []) }
        ensures held { IfOk result (λ sink. holds_back sink ≡ waits sink) }
        ensures unfinished { IfOk result (λ sink. IsTrue (is_unfinished sink)) }
        ensures standard { IfOk result
            (λ sink. is_standard_output sink ≡ names_standard_output name.now) }
        ensures apart { IsTrue (names_standard_output name.now)
            → IsTrue (is_standard_output (other_sink self.now outlet)) → IsErr result }
    {
        let read = [self.side.node(self.rt)?, self.input.node(self.rt)?];
        let other = match outlet {
            Outlet::Main => &self.report,
            Outlet::Report => &self.output,
        };
        let opened = Sink::open(self.rt, name, &read, other);
        if opened.is_err() {
            other.withdraw(self.rt);
        }
        opened
    }

    // Whether nothing may be written yet: the command has a report, and an outlet is still to be opened.
    pub(super) fn awaits_outlet(&self) -> bool
        ensures { result ≡ awaits_outlet self.now }
    {
        self.has_report && (self.output.is_nothing() || self.report.is_nothing())
    }

    // Whether nothing was opened at the other outlet.
    fn is_alone(&self, outlet: Outlet) -> bool
        ensures { result ≡ not (is_opened_sink (other_sink self.now outlet)) }
    {
        match outlet {
            Outlet::Main => self.report.is_nothing(),
            Outlet::Report => self.output.is_nothing(),
        }
    }

    // Begins to write what is opened for an outlet, and the other one, unless that is still to be opened.
    pub(super) fn begin(
        &mut self,
        outlet: Outlet,
        sink: &mut Sink,
    ) -> Result<(), (Outlet, io::Error)>
        ensures opened { is_opened_sink sink.new ≡ is_opened_sink sink.old }
        ensures steady { IsSteady sink.old sink.new }
        ensures meaning { file_meanings self.new ≡ file_meanings self.old }
        ensures same { sink_at self.new outlet ≡ sink_at self.old outlet }
        ensures other { IsSteady (other_sink self.old outlet) (other_sink self.new outlet) }
        ensures inlets { SameInlets self.old self.new }
        ensures faults { self.new.write_faults ≡ self.old.write_faults }
        ensures reads { self.new.read_faults ≡ self.old.read_faults }
        ensures report { self.new.has_report ≡ self.old.has_report }
        // If the other one is still to be opened and the command has a report, nothing is begun; otherwise both are.
        ensures alone { IsTrue self.old.has_report
            → IsFalse (is_opened_sink (other_sink self.old outlet))
            → sink.new ≡ sink.old }
        ensures begun { OnOk result
            (IsFalse (self.old.has_report && not (is_opened_sink (other_sink self.old outlet)))
            → IsFalse (holds_back sink.new) × IsFalse (holds_back (other_sink self.new outlet))) }
    {
        if self.has_report && self.is_alone(outlet) {
            return Ok(());
        }
        at(outlet, sink.begin(self.rt))?;
        match outlet {
            Outlet::Main => at(Outlet::Report, self.report.begin(self.rt)),
            Outlet::Report => at(Outlet::Main, self.output.begin(self.rt)),
        }
    }

    // Hands everything to the system that was gathered for both outlets, and finishes one of them. If the other one is
    // finished too, both parts take their names, which is last of all. It fails if an outlet is still to be opened.
    pub(super) fn end(&mut self, outlet: Outlet) -> Result<(), (Outlet, io::Error)>
        requires { IsReadyOut (file_meanings self.old) outlet }
        ensures meaning { file_meanings self.new ≡ file_meanings self.old }
        ensures faults { self.new.write_faults ≡ self.old.write_faults }
        ensures reads { self.new.read_faults ≡ self.old.read_faults }
        ensures report { self.new.has_report ≡ self.old.has_report }
        ensures handed { OnOk result (GathersNothing self.new) }
        ensures finished { OnOk result (IsFalse (unfinished_at self.new outlet)) }
        ensures other { unfinished_at self.new (other_than outlet)
            ≡ unfinished_at self.old (other_than outlet) }
        ensures standard { (outlet : Outlet) → is_standard_output (sink_at self.new outlet)
            ≡ is_standard_output (sink_at self.old outlet) }
        ensures inlets { SameInlets self.old self.new }
        ensures named { OnOk result (IsFalse (unfinished_at self.old (other_than outlet))
            → (outlet : Outlet) → IsFalse (waits_at self.new outlet)) }
        ensures whole { (outlet : Outlet) → IsTrue (waits_at self.old outlet)
            → IsFalse (waits_at self.new outlet) → IsAllFinished self.new }
        ensures order { IsTrue (waits_at self.new Outlet.Main)
            → waits_at self.new Outlet.Report ≡ waits_at self.old Outlet.Report }
        ensures waits { (outlet : Outlet) → IsFalse (waits_at self.old outlet)
            → IsFalse (waits_at self.new outlet) }
        ensures stands { IsTrue (waits_at self.old Outlet.Main)
            → IsFalse (waits_at self.new Outlet.Main) → IsTrue (stands self.new.report) }
        ensures early { IsTrue (awaits_outlet self.old)
            → IsErr result × SameOutlets self.old self.new }
    {
        if self.awaits_outlet() {
            return Err((outlet, refused(UNOPENED)));
        }
        at(Outlet::Main, self.output.flush())?;
        at(Outlet::Report, self.report.flush())?;
        match outlet {
            Outlet::Main => at(outlet, self.output.finish())?,
            Outlet::Report => at(outlet, self.report.finish())?,
        }
        if self.output.is_unfinished() || self.report.is_unfinished() {
            return Ok(());
        }
        at(Outlet::Report, self.report.look(self.rt))?;
        at(Outlet::Main, self.output.take_name(self.rt))?;
        at(Outlet::Report, self.report.take_name(self.rt))
    }
}
