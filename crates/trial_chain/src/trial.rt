//! A trial: a generated history, through the three chains over a desk in memory.

ghost use Rattle.std.specs.Prelude.{◌≡◌, false, [], replicate, All, IfOk, OnOk, OnErr};
ghost use Rattle.desk_ports.specs.MemState.{empty_desk};
ghost use Rattle.side_tables.specs.Rows.{IsCopyRow};
ghost use Rattle.loss_player.specs.Played.{played_of};
ghost use Rattle.ground_chain.specs.Deliveries.{delivered_numbers};
ghost use Rattle.trial_chain.specs.Stages.{HoldsJust, HoldsTrial, held_recording, held_store, held_played, held_restored};
ghost use Rattle.trial_chain.specs.Trials.{IsTrial, IsTrialScript, every, trial_copies, trial_history, trial_plan, trial_summary};

use crate::generated::{Trial, generate};
use crate::stages::{compress, play, restore};
use bit_vectors::{Bits, Flags, NoMemory};
use desk_ports::MemDesk;
use flight_chain::Flight;
use ground_chain::{Restored, Restorer};
use loss_player::{Played, Player};
use side_tables::{CopyRow, FlagRow, Schedule, Script};
use std::alloc::Global;

/// The APID of a trial's packets.
const APID: u16 = 100;

/// What a trial made, and what became of it.
#[derive(Clone, Copy, Debug, PartialEq, Eq)]
pub struct Summary {
    /// The packets that were made.
    pub packets: u64,
    /// The bytes of the recording.
    pub recording: u64,
    /// The bytes of the store.
    pub store: u64,
    /// The bytes of the played store.
    pub played: u64,
    /// The packets of which at least one copy arrived.
    pub delivered: u64,
    /// The packets that were restored.
    pub written: u64,
    /// The packets up to the last arrival that were not restored.
    pub listed: u64,
}

/// Runs the three chains over a new desk: generates a history of so many packets of `f` bits from the seed, with one
/// required robustness, compresses its recording, plays the store, and restores what arrives. The desk then holds what was
/// made under the names `recording`, `store`, `played`, `play`, `restored` and `report`. It takes memory all the while, and
/// NoMemory leaves the desk as it was.
pub fn run_trial(
    alloc: Global,
    seed: u32,
    packets: u32,
    f: u32,
    robust: u8,
    desk: &mut MemDesk,
) -> Result<Summary, NoMemory>
    requires trial { IsTrial packets f robust }
    requires new { desk.old ≡ empty_desk }
    ensures held { OnOk result (HoldsTrial seed packets f robust desk.new.held) }
    ensures summary { IfOk result (λ summary. summary ≡ trial_summary seed packets f robust) }
    ensures unchanged { OnErr result (desk.new ≡ desk.old) }
{
    let trial = Trial {
        seed,
        packets,
        f,
        robust,
    };
    let (held, script) = trial.record(alloc)?;
    let held = trial.compress(alloc, held)?;
    let (held, played) = trial.play(alloc, held, &script)?;
    let (held, restored) = trial.restore(alloc, held)?;
    put_in_place(desk, held);
    Ok(Summary {
        packets: u64::from(packets),
        recording: desk.get("recording").len() as u64,
        store: desk.get("store").len() as u64,
        played: desk.get("played").len() as u64,
        delivered: played.delivered,
        written: restored.written,
        listed: restored.listed,
    })
}

impl Trial {
    /// Generates the trial, and holds its recording. Gives the rows of its script too.
    fn record(self, alloc: Global) -> Result<(MemDesk, Vec<CopyRow>), NoMemory>
        ensures held { IfOk result
            (λ r. HoldsJust r.0 (held_recording self.seed self.packets self.f)) }
        ensures script { IfOk result (λ r. IsTrialScript self.seed self.packets r.1.items) }
    {
        let generated = generate(alloc, self)?;
        let mut held = MemDesk::new(alloc);
        held.put("recording", &generated.recording)?;
        Ok((held, generated.script))
    }

    /// Compresses the recording.
    fn compress(self, alloc: Global, held: MemDesk) -> Result<MemDesk, NoMemory>
        requires { HoldsJust held (held_recording self.seed self.packets self.f) }
        ensures { IfOk result
            (λ after. HoldsJust after (held_store self.seed self.packets self.f self.robust)) }
    {
        let flight = self.flight(alloc)?;
        compress(held, flight)
    }

    /// Its flight, with a zero mask at the start.
    fn flight(self, alloc: Global) -> Result<Flight, NoMemory>
        ensures { IfOk result (λ flight. flight
            ≡ record {
              places = self.f;
              robust = self.robust;
              apid = 100;
              mask = replicate self.f false;
              rows = record { flags = trial_plan; robust = [] };
            }) }
    {
        let none = Flags {
            p: false,
            f: false,
            r: false,
        };
        let rows = [
            every(20, Flags { p: true, ..none }),
            every(50, Flags { f: true, ..none }),
            every(100, Flags { r: true, ..none }),
        ];
        let plan = Schedule::with_rows(alloc, &rows)?;
        let mask = Bits::zeros(alloc, self.f)?;
        Flight::open(alloc, self.f, self.robust, APID, &mask, plan)
    }

    /// Plays the store by the script.
    fn play(
        self,
        alloc: Global,
        held: MemDesk,
        script: &[CopyRow],
    ) -> Result<(MemDesk, Played), NoMemory>
        requires held { HoldsJust held (held_store self.seed self.packets self.f self.robust) }
        requires script { IsTrialScript self.seed self.packets script.now }
        ensures held { IfOk result
            (λ after. HoldsJust after.0
            (held_played self.seed self.packets self.f self.robust)) }
        ensures numbers { IfOk result
            (λ after. after.1 ≡ played_of (trial_copies self.seed self.packets) self.packets) }
    {
        let player = player(alloc, script)?;
        play(held, player)
    }

    /// Restores the played store.
    fn restore(self, alloc: Global, held: MemDesk) -> Result<(MemDesk, Restored), NoMemory>
        requires { HoldsJust held (held_played self.seed self.packets self.f self.robust) }
        ensures held { IfOk result
            (λ after. after.0.held ≡ held_restored self.seed self.packets self.f self.robust) }
        ensures numbers { IfOk result (λ after. after.1
            ≡ delivered_numbers (trial_history self.seed self.packets self.f self.robust)
            (trial_copies self.seed self.packets)) }
    {
        let restorer = Restorer::open(alloc, self.f, APID)?;
        restore(held, restorer)
    }
}

/// Puts the desk that holds what was made in the place of the new one.
fn put_in_place(desk: &mut MemDesk, held: MemDesk)
    ensures { desk.new ≡ held }
{
    *desk = held;
}

/// Flags for every packet whose number is so many times a whole number above 0.
fn every(step: u32, flags: Flags) -> FlagRow
    ensures { result ≡ every step flags }
{
    FlagRow {
        first: step,
        last: u32::MAX,
        step,
        flags,
    }
}

/// The player of a trial.
fn player(alloc: Global, script: &[CopyRow]) -> Result<Player, NoMemory>
    requires { All IsCopyRow script.now }
    ensures { IfOk result (λ player. player ≡ record { apid = 100; rows = script.now }) }
{
    let script = Script::with_rows(alloc, script)?;
    Player::open(alloc, APID, script)
}
