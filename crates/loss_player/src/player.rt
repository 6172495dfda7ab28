//! The command `play`: from a store to the played store and the play report.

ghost use Rattle.std.specs.Prelude.{◌≡◌, ◌≤◌, IfOk};
ghost use Rattle.desk_ports.specs.Turns.{IsReadyRun};
ghost use Rattle.desk_ports.specs.Courses.{AfterRun, HasCause, by_stop};
ghost use Rattle.side_tables.specs.Rows.{copies_of};
ghost use Rattle.packet_store.specs.StoreReader.{stop_by};
ghost use Rattle.loss_player.specs.Playing.{play_work};

use crate::PlayFault;
use crate::played::Played;
use crate::playing::Playing;
use bit_vectors::NoMemory;
use desk_ports::{Desk, drive};
use side_tables::Script;
use std::alloc::Global;
use std::marker::Model;

/// Plays a store through a link: reads it from the main inlet of a desk, and writes each packet to the main outlet as
/// often as it arrives, and the report. A script says so for the packets of the chosen APID, by their numbers in the
/// store, and all others arrive once. Contracts see the chosen APID and the rows of the script.
#[derive(Debug, Drop)]
pub struct Player {
    playing: Playing,
}

impl Model for Player {
    ghost use Rattle.loss_player.specs.Playing.{PlayerState, player_state, IsPlayer};

    ghost Value = { PlayerState };

    ghost view = { λ p. player_state p.playing };

    ghost invariant = { λ p. IsPlayer p.playing };
}

impl Player {
    /// A player of packets of a chosen APID, which is not the idle one, by this script. It takes all memory of the run.
    pub fn open(alloc: Global, apid: u16, script: Script) -> Result<Player, NoMemory>
        requires chosen { apid ≤ 2046 }
        ensures { IfOk result (λ player. player ≡ record { apid = apid; rows = script }) }
    {
        let playing = Playing::open(alloc, apid, script)?;
        Ok(Player { playing })
    }

    /// Plays the store, and tells the numbers of the played store. It takes no memory.
    pub fn play<D: Desk>(self, desk: &mut D) -> Result<Played, PlayFault>
        requires { IsReadyRun (D.meaning desk.old) }
        // What stands after each answer is what the store owes, all of it or up to where its walk or the desk ends it; the
        // numbers are those of the packets of the same store and their copies, whatever the desk tells.
        ensures ran { AfterRun (play_work (copies_of self.rows) self.apid) (D.meaning desk.old)
            (D.meaning desk.new) (by_stop stop_by result) }
        ensures cause { HasCause (D.counts desk.old) (D.counts desk.new) (by_stop stop_by result) }
    {
        let mut playing = self.playing;
        drive(&mut playing, desk)
    }
}
