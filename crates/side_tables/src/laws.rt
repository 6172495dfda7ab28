//! What the definitions of rows mean.

ghost use Rattle.std.specs.Prelude.{◌≤◌, ℕ, List, IfSome};
ghost use Rattle.side_tables.specs.Grammar.{schedule_rows_of};
ghost use Rattle.side_tables.specs.Rows.{robust_of};
ghost use Rattle.side_tables.specs.Streams.{AreStreams, streams_of};

/// The rows of a text give no packet a required robustness above 7. This holds also for a text with bad rows.
pub fn robustness_of_texts()
    ensures { (text : List ℕ) (t : ℕ) → IfSome (robust_of (schedule_rows_of text).robust t)
        (λ robust. robust ≤ 7) }
{}

/// The streams of a text are at most 64, each with an APID of its own. This holds also for a text with bad rows.
pub fn streams_of_texts()
    ensures { (text : List ℕ) → AreStreams (streams_of text) }
{}
