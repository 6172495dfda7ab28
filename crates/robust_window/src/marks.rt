//! Marks of the latest sixteen steps: the bits of a number, with the latest step in the lowest bit.

ghost use Rattle.std.specs.Prelude.{◌≡◌, ◌+◌, ◌<◌, ◌≤◌, ◌↔◌, IsTrue, [], ◌∷◌, ◌++◌, drop};
ghost use Rattle.robust_window.specs.Window.{IsKeptCount, AreClear, are_two_set, mark_back, marks_of};

/// The marks with that of one more step, without the oldest.
pub(crate) fn pushed(marks: u16, mark: bool) -> u16
    ensures { marks_of result ≡ drop 1 (marks_of marks) ++ mark ∷ [] }
{
    marks << 1 | u16::from(mark)
}

/// The mark the given number of steps back, at most 15.
pub(crate) fn is_set(marks: u16, back: u8) -> bool
    requires { back ≤ 15 }
    ensures { result ≡ mark_back marks back }
{
    marks >> back & 1 == 1
}

/// Whether none of the latest `count` marks is set. `count` is at least 1 and at most 16.
pub(crate) fn are_clear(marks: u16, count: u8) -> bool
    requires { IsKeptCount count }
    ensures { IsTrue result ↔ AreClear marks count }
{
    marks << (16 - count) == 0
}

/// Whether two or more of the latest `count` marks are set. `count` is at least 1 and at most 16.
pub(crate) fn has_two(marks: u16, count: u8) -> bool
    requires { IsKeptCount count }
    ensures { result ≡ are_two_set (marks_of marks) count }
{
    (marks << (16 - count)).count_ones() >= 2
}
