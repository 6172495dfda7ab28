//! The texts of the refusals and of the faults that become them, and the exit numbers.

use flight_chain::FlightFault;
use packet_store::{RunFault, StoreFault, StoreKind};
use pocket_cmd::{Refusal, Status, exit_code};
use std::alloc::Global;
use std::fmt::Display;
use std::test::Fail;

static ROWS: [(Refusal, &str, u8); 12] = [
    (Refusal::ReadFault, "reading failed", 1),
    (Refusal::WriteFault, "writing failed", 1),
    (Refusal::BadWords { word: 4 }, "word 4 is wrong", 2),
    (Refusal::SideTooLong, "side input is too long", 3),
    (Refusal::BadSide { row: 2 }, "side row 2 is wrong", 3),
    (
        Refusal::CutRecord { t: 3 },
        "recording ends inside packet 3",
        4,
    ),
    (
        Refusal::SpareBit { t: 0 },
        "packet 0 has a spare bit set",
        4,
    ),
    (
        Refusal::BadStore {
            byte: 10,
            kind: StoreKind::Cut,
        },
        "store packet at byte 10 is cut",
        4,
    ),
    (
        Refusal::BadStore {
            byte: 10,
            kind: StoreKind::Version,
        },
        "store packet at byte 10 has another version",
        4,
    ),
    (
        Refusal::BadStore {
            byte: 10,
            kind: StoreKind::Shape,
        },
        "store packet at byte 10 has another shape",
        4,
    ),
    (Refusal::TooMany, "too many packets", 4),
    (Refusal::NoMemory, "out of memory", 5),
];

#[test]
fn texts_and_exit_numbers(rt: HostRuntime) -> Result<(), Fail> {
    assert_eq!(rt; exit_code(&Status::Done), 0);
    for (refusal, wanted, number) in &ROWS {
        let text = format!(in rt.alloc(); "{refusal}")?;
        assert_eq!(rt; text.as_str(), *wanted);
        assert_eq!(rt; exit_code(&Status::Refused(*refusal)), *number, "{wanted}");
    }
    Ok(())
}

static FLIGHT_FAULTS: [(FlightFault, &str); 5] = [
    (
        FlightFault::CutRecord { t: 3 },
        "recording ends inside packet 3",
    ),
    (
        FlightFault::SpareBit { t: 0 },
        "packet 0 has a spare bit set",
    ),
    (FlightFault::TooMany, "too many packets"),
    (FlightFault::ReadFault, "reading failed"),
    (FlightFault::WriteFault, "writing failed"),
];

static STORE_FAULTS: [(StoreFault, &str); 5] = [
    (
        StoreFault::Cut { byte: 10 },
        "store packet at byte 10 is cut",
    ),
    (
        StoreFault::Version { byte: 10 },
        "store packet at byte 10 has another version",
    ),
    (
        StoreFault::Shape { byte: 10 },
        "store packet at byte 10 has another shape",
    ),
    (StoreFault::ReadFault, "reading failed"),
    (StoreFault::TooMany, "too many packets"),
];

static KINDS: [(StoreKind, &str); 3] = [
    (StoreKind::Cut, "is cut"),
    (StoreKind::Version, "has another version"),
    (StoreKind::Shape, "has another shape"),
];

// Whether this is the text of a value.
fn has_text<T: Display>(alloc: Global, value: &T, wanted: &str) -> Result<bool, Fail> {
    let text = format!(in alloc; "{value}")?;
    Ok(text.as_str() == wanted)
}

// Whether a fault that ends a recording and its refusal have this text.
fn flight_has(alloc: Global, fault: FlightFault, wanted: &str) -> Result<bool, Fail> {
    Ok(has_text(alloc, &fault, wanted)? && has_text(alloc, &Refusal::from(fault), wanted)?)
}

// Whether a fault that ends a store, the run that it ends, and its refusal have this text.
fn store_has(alloc: Global, fault: StoreFault, wanted: &str) -> Result<bool, Fail> {
    let run = RunFault::Store(fault);
    Ok(
        has_text(alloc, &fault, wanted)?
            && has_text(alloc, &run, wanted)?
            && has_text(alloc, &Refusal::from(run), wanted)?,
    )
}

#[test]
fn faults_have_the_texts_of_their_refusals(rt: HostRuntime) -> Result<(), Fail> {
    for (fault, wanted) in &FLIGHT_FAULTS {
        assert!(rt; flight_has(rt.alloc(), *fault, wanted)?, "{wanted}");
    }
    for (fault, wanted) in &STORE_FAULTS {
        assert!(rt; store_has(rt.alloc(), *fault, wanted)?, "{wanted}");
    }
    for (kind, wanted) in &KINDS {
        assert!(rt; has_text(rt.alloc(), kind, wanted)?, "{wanted}");
    }
    assert!(rt; has_text(rt.alloc(), &RunFault::WriteFault, "writing failed")?);
    Ok(())
}
