//! What the definitions of numbers, fields and texts mean.

ghost use Rattle.std.specs.Prelude.{◌≡◌, ℕ, ◌+◌, ◌≤◌, ◌++◌, Bool, List, [], ◌∷◌, length, codes, Some, All};
ghost use Rattle.desk_ports.specs.Courses.{AreFronts, owed, texts_of};
ghost use Rattle.flight_chain.specs.Recordings.{recording_of, recording_walk};
ghost use Rattle.param_table.specs.Cells.{cell_in, first_bit, number_in, signed_if, sum_by_weight};
ghost use Rattle.param_table.specs.Rows.{bad_text_row, text_columns};
ghost use Rattle.param_table.specs.Texts.{header_row, limit_text, table_text, violation_rows, violations};
ghost use Rattle.param_table.specs.Tabling.{Tabulation, table_course};
ghost use Rattle.param_table.specs.Worked.{worked_columns, worked_packets};

/// A number is the sum of its bits, each by its weight: the first has the greatest, half of 2 to the power of the width, and
/// each other half of that of the one before it. A signed one whose first bit is 1 is less by 2 to the power of the width.
pub fn numbers_are_sums()
    ensures number { (v : List Bool) (place width : ℕ) → place + width ≤ length v
        → number_in v place width ≡ sum_by_weight v place width }
    ensures cell { (v : List Bool) (place width : ℕ) (signed : Bool) → place + width ≤ length v
        → cell_in v place width signed
        ≡ signed_if signed (first_bit v place) width (sum_by_weight v place width) }
{}

/// What a recording owes before its end is the table of its packets, and the rows of the values out of their limits. What a
/// whole recording owes is this table, and the report with its last row.
pub fn whole_recordings_owe_their_texts()
    ensures before { (k : Tabulation) (recording : List ℕ) →
        let packets = (recording_walk k.places recording).inputs in
        texts_of (table_course k recording).before
        ≡ record {
          output = table_text k.columns packets;
          report = header_row ++ violation_rows (violations k.columns 0 packets);
        } }
    ensures whole { (k : Tabulation) (packets : List (List Bool)) → 1 ≤ k.places
        → All (λ packet. length packet ≡ k.places) packets → length packets ≤ 4294967296 →
        texts_of (owed (table_course k (recording_of packets)))
        ≡ record { output = table_text k.columns packets; report = limit_text k.columns packets } }
{}

/// What a front of a recording owes is a front of what the recording owes before its end.
pub fn fronts_owe_fronts()
    ensures { (k : Tabulation) (front rest : List ℕ) → 1 ≤ k.places →
        AreFronts (table_course k front).before (table_course k (front ++ rest)).before }
{}

/// A worked side text and recording: two packets of 16 places with two fields, one of which has a limit that the first
/// packet violates. And a field that doesn't lie within such packets.
pub fn worked_tables()
    ensures columns { text_columns 16
        (codes "field,0,8,u,mode\nfield,8,8,s,temp\nlimit,temp,-10,40\n") ≡ worked_columns }
    ensures packets { (recording_walk 16 (0x01 ∷ 0xF0 ∷ 0x02 ∷ 0x28 ∷ [])).inputs ≡ worked_packets }
    ensures table { table_text worked_columns worked_packets
        ≡ codes "t,mode,temp\n0,1,-16\n1,2,40\n" }
    ensures report { limit_text worked_columns worked_packets
        ≡ codes "t,name,value,low,high\n0,temp,-16,-10,40\nend,2,1\n" }
    ensures within { bad_text_row 16 (codes "field,9,8,u,x\n") ≡ Some 1 }
{}
