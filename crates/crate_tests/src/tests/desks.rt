//! What no clause says: that bytes pass through real files.

ghost use Rattle.std.specs.Prelude.{IsTrue};

use desk_ports::{Desk, Failed, FileDesk, Inlet, Outlet, fill, write_all};
use std::fs;
use std::test::Fail;

const ROW: [u8; 5] = [1, 2, 3, 4, 5];

// Copies an input to an output, and tells how many bytes it has: at most five.
fn copied<D: Desk>(desk: &mut D, from: &str, to: &str) -> Result<usize, Failed>
    requires reads { IsTrue ((D.meaning desk.old).grants_in from.now) }
    requires writes { IsTrue ((D.meaning desk.old).grants_out to.now) }
{
    desk.open_in(Inlet::Main, from)?;
    desk.open_out(Outlet::Main, to)?;
    let mut row = [0u8; 5];
    let count = fill(desk, Inlet::Main, &mut row)?;
    write_all(desk, Outlet::Main, &row[..count])?;
    desk.finish(Outlet::Main)?;
    Ok(count)
}

// Writes to an output that is not finished.
fn left_unfinished(desk: &mut FileDesk<'_>) -> Result<(), Failed> {
    desk.open_out(Outlet::Main, "copy")?;
    write_all(desk, Outlet::Main, &ROW[..3])?;
    desk.hand_over()
}

fn holds(rt: &HostRuntime, name: &str, bytes: &[u8]) -> Result<bool, Fail> {
    let held = fs::read(rt, name)?;
    Ok(held.as_slice() == bytes)
}

fn three_copies(desk: &mut FileDesk<'_>) -> [Result<usize, Failed>; 3] {
    [
        copied(desk, ".", "copy"),
        copied(desk, "row", "copy"),
        copied(desk, "no such file", "copy"),
    ]
}

// (What has a desk of its own does nothing else: each way out of it is proved to give back all memory.)
fn a_file_is_copied(rt: &HostRuntime) -> Result<bool, Fail> {
    copies_are_right(rt, &mut FileDesk::new(rt))
}

// Whether the row alone is copied, and an output that is not finished stays beside its name.
fn copies_are_right(rt: &HostRuntime, desk: &mut FileDesk<'_>) -> Result<bool, Fail> {
    Ok(
        three_copies(desk) == [Err(Failed), Ok(5), Err(Failed)]
            && holds(rt, "copy", &ROW)?
            && left_unfinished(desk) == Ok(())
            && holds(rt, "copy.part", &ROW[..3])?
            && holds(rt, "copy", &ROW)?,
    )
}

#[test]
fn a_copy_of_a_file(rt: HostRuntime) -> Result<(), Fail> {
    fs::write(&rt, "row", ROW.as_slice())?;
    assert!(rt; a_file_is_copied(&rt)?);
    fs::remove_file(&rt, "row")?;
    fs::remove_file(&rt, "copy")?;
    fs::remove_file(&rt, "copy.part")?;
    Ok(())
}

// Finishes the output of a command whose report is not opened.
fn finished_alone(desk: &mut FileDesk<'_>) -> Result<(), Failed> {
    desk.open_out(Outlet::Main, "left")?;
    desk.finish(Outlet::Main)
}

fn a_file_is_finished_alone(rt: &HostRuntime) -> Result<(), Failed> {
    finished_alone(&mut FileDesk::for_command(rt, true))
}

#[test]
fn an_earlier_part_is_not_named_before_the_report_is_opened(rt: HostRuntime) -> Result<(), Fail> {
    fs::write(&rt, "left.part", ROW.as_slice())?;
    assert_eq!(rt; a_file_is_finished_alone(&rt), Err(Failed));
    assert!(rt; holds(&rt, "left.part", &ROW)?);
    fs::remove_file(&rt, "left.part")?;
    Ok(())
}
