//! A desk in memory for one run, of which no call is told to fail.

ghost use Rattle.std.specs.Prelude.{◌≡◌, IfOk, OnOk};
ghost use Rattle.desk_ports.specs.Meanings.{Begins, Keeps, IsReadyOut};
ghost use Rattle.desk_ports.specs.MemState.{NothingFails};
ghost use Rattle.trial_chain.specs.Stages.{IsRunDesk, run_meanings, run_counts, run_opened};

use bit_vectors::NoMemory;
use desk_ports::{Desk, Failed, Inlet, MemDesk, Outlet};
use std::marker::Model;

/// A desk in memory for one run. It holds the run's input and grants its name, and no call is told to fail. So no reading
/// fails, and a writing only if a growth is refused.
#[derive(Debug, Drop)]
pub(crate) struct RunDesk {
    desk: MemDesk,
    input: &'static str,
}

impl Model for RunDesk {
    ghost use Rattle.trial_chain.specs.Stages.{RunState, run_code, IsRunDesk};

    ghost Value = { RunState };

    ghost coded = { run_code };

    ghost view = { λ r. record { desk = r.desk; input = r.input.now } };

    ghost invariant = { λ r. IsRunDesk r.desk r.input.now };
}

impl RunDesk {
    /// A desk at which a run's input and its output are opened.
    pub fn open(
        desk: MemDesk,
        input: &'static str,
        output: &'static str,
    ) -> Result<RunDesk, NoMemory>
        requires { IsRunDesk desk input.now }
        ensures { IfOk result (λ run. run_meanings run ≡ run_opened desk input.now output.now) }
    {
        let mut run = RunDesk::over(desk, input);
        let Ok(()) = run.open_in(Inlet::Main, input) else {
            unreachable!()
        };
        run.begin(Outlet::Main, output)?;
        Ok(run)
    }

    /// A desk for a run whose input has this name.
    fn over(desk: MemDesk, input: &'static str) -> RunDesk
        requires { IsRunDesk desk input.now }
        ensures { result ≡ record { desk = desk; input = input.now } }
    {
        RunDesk { desk, input }
    }

    /// Opens an output.
    pub fn begin(&mut self, outlet: Outlet, name: &str) -> Result<(), NoMemory>
        ensures { OnOk result
            (Begins (run_meanings self.old) (run_meanings self.new) outlet name.now) }
    {
        let Ok(()) = self.open_out(outlet, name) else {
            return Err(NoMemory);
        };
        Ok(())
    }

    /// Finishes an output, which is held then.
    pub fn keep(&mut self, outlet: Outlet) -> Result<(), NoMemory>
        requires { IsReadyOut (run_meanings self.old) outlet }
        ensures { OnOk result (Keeps (run_meanings self.old) (run_meanings self.new) outlet) }
    {
        let Ok(()) = self.finish(outlet) else {
            return Err(NoMemory);
        };
        Ok(())
    }

    /// The desk after the run.
    pub fn into_desk(self) -> MemDesk
        ensures desk { result ≡ self.desk }
        ensures nothing { NothingFails result.plan }
    {
        self.desk
    }
}

impl Desk for RunDesk {
    ghost meaning = { run_meanings };

    ghost counts = { run_counts };

    fn open_in(&mut self, inlet: Inlet, name: &str) -> Result<(), Failed> {
        self.desk.open_in(inlet, name)
    }

    fn open_out(&mut self, outlet: Outlet, name: &str) -> Result<(), Failed> {
        self.desk.open_out(outlet, name)
    }

    fn read(&mut self, inlet: Inlet, buf: &mut [u8]) -> Result<usize, Failed> {
        self.desk.read(inlet, buf)
    }

    fn write(&mut self, outlet: Outlet, bytes: &[u8]) -> Result<usize, Failed> {
        self.desk.write(outlet, bytes)
    }

    fn finish(&mut self, outlet: Outlet) -> Result<(), Failed> {
        self.desk.finish(outlet)
    }
}
