//! The arrivals of several streams.

ghost use Rattle.std.specs.Prelude.{◌≡◌, ℕ, ◌<◌, ◌∷◌, ◌++◌, [], List, IfOk, length, map, slice_set};
ghost use Rattle.side_tables.specs.declared.rows.StreamRow.{StreamRow};
ghost use Rattle.ground_chain.specs.Run.{Arrival};
ghost use Rattle.ground_chain.specs.Reception.{AgreesWith, next_judged, HasJudged, IsNextArrival, Judges, nothing_judged};
ghost use Rattle.multi_ground.specs.Grounds.{reckoning_at};

use bit_vectors::NoMemory;
use ground_chain::{Tallied, Verdict};
use side_tables::Streams;
use std::alloc::Global;
use std::marker::Model;

/// The arrivals of several streams so far, each stream judged by itself. Contracts see what is kept of each, in the order
/// of the streams. There is no room for another stream, so that an arrival takes no memory.
#[derive(Debug, Drop)]
pub struct MultiGround {
    streams: Vec<Tallied>,
}

impl Model for MultiGround {
    ghost use Rattle.std.specs.Prelude.{◌≡◌, List, vec_len};
    ghost use Rattle.std.specs.Vec.{vec_capacity};
    ghost use Rattle.ground_chain.specs.Reception.{Reckoning};

    ghost Value = { List Reckoning };

    ghost view = { λ g. g.streams.items };

    ghost invariant = { λ g. vec_capacity g.streams ≡ vec_len g.streams };
}

impl MultiGround {
    /// Nothing has arrived of any of these streams. It takes all memory that `arrive` needs.
    pub fn open(alloc: Global, streams: &Streams) -> Result<MultiGround, NoMemory>
        ensures { IfOk result
            (λ opened. opened ≡ map (λ (row : StreamRow). nothing_judged row.bits) streams.now) }
    {
        let count = streams.count();
        let mut grounds = Vec::with_capacity(alloc, count as usize)?;
        for index in 0..count {
            grounds.push_reserved(Tallied::open(alloc, streams.bits(index))?);
        }
        Ok(MultiGround { streams: grounds })
    }

    /// Judges the next arrival of a stream, with this sequence count and these data bytes, at most 65,536. It takes no
    /// memory.
    pub fn arrive(&mut self, stream: u32, count: u16, bytes: &[u8]) -> Verdict
        requires stream { stream < length self.old }
        requires next { IsNextArrival (reckoning_at self.old stream) count bytes.now }
        // The verdict is the next one of the run over this stream's arrivals alone. For every list of arrivals of it that was
        // judged, now that list and this one is.
        ensures verdict { result
            ≡ (next_judged (reckoning_at self.old stream).reception count bytes.now).verdict }
        ensures judges { Judges (reckoning_at self.old stream) (reckoning_at self.new stream) count
            bytes.now }
        ensures stands { (f : ℕ) (arrivals : List Arrival)
            → HasJudged f arrivals (reckoning_at self.old stream)
            → HasJudged f (arrivals ++ record { count = count; body = bytes.now } ∷ [])
            (reckoning_at self.new stream) }
        ensures shows { AgreesWith (reckoning_at self.new stream).reception.decoder
            (next_judged (reckoning_at self.old stream).reception count bytes.now) }
        // The other streams stay as they are.
        ensures others { self.new
            ≡ slice_set self.old stream (reckoning_at self.new stream) }
    {
        self.streams[stream as usize].judge(count, bytes)
    }

    /// The arrivals of a stream so far, with their numbers.
    pub fn stream(&self, stream: u32) -> &Tallied
        requires { stream < length self.now }
        ensures { result.now ≡ reckoning_at self.now stream }
    {
        &self.streams[stream as usize]
    }
}
