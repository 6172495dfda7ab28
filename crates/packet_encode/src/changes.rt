//! The first part of a packet: the recent changes of the mask, the effective robustness level and the directions
//! (CCSDS 124.0-B-1).

ghost use Rattle.std.specs.Prelude.{◌≡◌, ℕ, ◌+◌, ◌*◌, ◌<◌, ◌≤◌, ◌++◌, length, if◌then◌else◌};
ghost use Rattle.bit_vectors.specs.Vectors.{number_bits, or_bits};
ghost use Rattle.packet_encode.specs.Forms.{Form, change_bits, direction_bits, wide_by, directions_of};

use bit_vectors::{BitPen, Bits};
use robust_window::Window;
use run_code::{put_inverse_up, put_runs};

/// The width in which an effective robustness level is written.
const LEVEL_BITS: u32 = 4;

/// The run word of a vector without a 1, and then the level 0, in six bits.
const NO_CHANGE: u32 = 0b10_0000;

/// Appends the recent changes and the level of a window that has taken a step, and the directions, if there are
/// changes and a level above 0. Without a change that is one number. Returns whether all recent changes are extracted.
pub(crate) fn put_changes(pen: &mut BitPen, mask: &Bits, window: &Window) -> bool
    requires taken { 0 < window.now.taken }
    requires places { length window.now.recent ≡ length mask.now }
    requires room { length pen.old.bits + (5 * length mask.now + 8) ≤ pen.old.room }
    ensures bits { (form : Form) → form.recent ≡ window.now.recent → form.level ≡ window.now.level
        → form.directions ≡ directions_of mask.now form.recent form.level window.now.twice
        → pen.new.bits ≡ pen.old.bits ++ change_bits form }
    ensures wide { let recent = window.now.recent in
        wide_by (directions_of mask.now recent window.now.level window.now.twice) recent mask.now
        ≡ (if result then or_bits mask.now recent else mask.now) }
    ensures most { length pen.new.bits ≤ length pen.old.bits + (5 * length mask.now + 8) }
    ensures room { pen.new.room ≡ pen.old.room }
{
    let recent = window.recent();
    let level = window.effective();
    if window.is_quiet() {
        put_level(pen, level);
        return false;
    }
    put_runs(pen, recent);
    pen.put_number(u32::from(level), LEVEL_BITS);
    if level == 0 {
        return false;
    }
    put_directions(pen, mask, recent, window.twice())
}

/// Appends that there is no recent change, and the level.
pub(crate) fn put_level(pen: &mut BitPen, level: u8)
    requires level { level ≤ 15 }
    requires room { length pen.old.bits + 6 ≤ pen.old.room }
    ensures bits { pen.new.bits ≡ pen.old.bits ++ number_bits 6 (32 + level) }
    ensures room { pen.new.room ≡ pen.old.room }
{
    pen.put_number(NO_CHANGE + u32::from(level), 2 + LEVEL_BITS);
}

/// Appends a 0 if the mask has all recent changes. Otherwise appends a 1, then for each recent change whether it
/// became predictable, and then whether all are extracted. Returns whether all are extracted.
fn put_directions(pen: &mut BitPen, mask: &Bits, recent: &Bits, twice: bool) -> bool
    requires places { length recent.now ≡ length mask.now }
    requires room { length pen.old.bits + (length mask.now + 2) ≤ pen.old.room }
    ensures bits { (level : ℕ) → 0 < level → pen.new.bits
        ≡ pen.old.bits ++ direction_bits recent.now
        (directions_of mask.now recent.now level twice) }
    ensures wide { (level : ℕ) → 0 < level →
        wide_by (directions_of mask.now recent.now level twice) recent.now mask.now
        ≡ (if result then or_bits mask.now recent.now else mask.now) }
    ensures most { length pen.new.bits ≤ length pen.old.bits + (length mask.now + 2) }
    ensures room { pen.new.room ≡ pen.old.room }
{
    if recent.is_within(mask) {
        pen.put(false);
        return false;
    }
    pen.put(true);
    put_inverse_up(pen, mask, recent);
    pen.put(twice);
    twice
}
