//! What a trial generates before it runs: the recording, and the rows of the schedule and of the script.

ghost use Rattle.std.specs.Prelude.{◌≡◌, ◌≤◌, ◌++◌, length, All, IfOk, OnOk};
ghost use Rattle.bit_vectors.specs.Vectors.{byte_count, vector_bytes};
ghost use Rattle.side_tables.specs.Rows.{IsCopyRow};
ghost use Rattle.flight_chain.specs.Recordings.{recording_of};
ghost use Rattle.trial_chain.specs.Trials.{IsTrial, IsTrialScript, rows_for, trial_inputs};

use crate::generator::Generator;
use bit_vectors::{Bits, NoMemory, byte_len};
use side_tables::CopyRow;
use std::alloc::Global;

/// The numbers that a trial is generated from.
#[derive(Clone, Copy, Debug)]
pub(crate) struct Trial {
    pub seed: u32,
    pub packets: u32,
    pub f: u32,
    pub robust: u8,
    ghost bounds: { IsTrial packets f robust },
}

/// The recording of a trial, and a row of its script for each packet that does not arrive just once.
#[derive(Debug, Drop)]
pub(crate) struct Generated {
    pub recording: Vec<u8>,
    pub script: Vec<CopyRow>,
}

/// Generates the packets of a trial.
pub(crate) fn generate(alloc: Global, trial: Trial) -> Result<Generated, NoMemory>
    ensures recording { IfOk result (λ r. r.recording.items
        ≡ recording_of (trial_inputs trial.seed trial.packets trial.f)) }
    ensures script { IfOk result
        (λ r. IsTrialScript trial.seed trial.packets r.script.items) }
{
    let mut generator = Generator::open(alloc, trial.seed, trial.f)?;
    let mut line = vec![in alloc; 0; byte_len(trial.f) as usize]?;
    let mut recording = Vec::new(alloc);
    append(&mut recording, &generator.input, &mut line)?;
    let mut script = Vec::new(alloc);
    'packets: for t in 1..trial.packets {
        let copies = generator.advance();
        append(&mut recording, &generator.input, &mut line)?;
        note(&mut script, t, copies)?;
    }
    Ok(Generated { recording, script })
}

/// Appends the row that so many copies of a packet need in a script: none if it arrives once.
fn note(script: &mut Vec<CopyRow>, t: u32, copies: u8) -> Result<(), NoMemory>
    requires most { copies ≤ 9 }
    requires right { All IsCopyRow script.old.items }
    ensures rows { OnOk result (script.new.items ≡ script.old.items ++ rows_for t copies) }
    ensures right { OnOk result (All IsCopyRow script.new.items) }
{
    if copies == 1 {
        return Ok(());
    }
    Ok(script.push(CopyRow {
        first: t,
        last: t,
        step: 1,
        copies,
    })?)
}

/// Appends the bytes of an input vector to the recording, by a line that has room for them.
fn append(recording: &mut Vec<u8>, input: &Bits, line: &mut [u8]) -> Result<(), NoMemory>
    requires { length line.old ≡ byte_count (length input.now) }
    ensures appended { OnOk result
        (recording.new.items ≡ recording.old.items ++ vector_bytes input.now) }
    ensures line { length line.new ≡ length line.old }
{
    input.store(line);
    Ok(recording.extend_from_slice(line)?)
}
