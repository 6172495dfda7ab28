//! What no clause says: that senders and receivers open, the bytes of worked states, which were reckoned elsewhere, and that no bit of one can be
//! turned and no byte left out.

use bit_vectors::Flags;
use packet_calls::{OpenFault, Receiver, Sender};
use std::alloc::Global;
use std::test::Fail;

// A receiver of 8 places at which nothing has arrived.
const FRESH: [u8; 74] = [
    0x50, 0x43, 0x4B, 0x54, 0x01, 0x02, 0x00, 0x00, 0x00, 0x08, 0x00, 0x00, 0x00, 0x00, 0x00, 0x00,
    0x00, 0x00, 0x00, 0x00, 0x00, 0x00, 0x00, 0x00, 0x00, 0x00, 0x00, 0x00, 0x00, 0x00, 0x00, 0x00,
    0x00, 0x00, 0x00, 0x00, 0x00, 0x00, 0x00, 0x00, 0x00, 0x00, 0x00, 0x00, 0x00, 0x00, 0x00, 0x00,
    0x00, 0x00, 0x00, 0x00, 0x00, 0x00, 0x00, 0x00, 0x00, 0x00, 0x00, 0x00, 0x00, 0x00, 0x00, 0x00,
    0x00, 0x00, 0x00, 0x00, 0x00, 0x00, 0xB3, 0xF3, 0x0C, 0xC5,
];

// A receiver of 8 places at which three packets arrived.
const JUDGED: [u8; 75] = [
    0x50, 0x43, 0x4B, 0x54, 0x01, 0x02, 0x00, 0x00, 0x00, 0x08, 0x00, 0x00, 0x00, 0x00, 0x00, 0x00,
    0x00, 0x04, 0x00, 0x00, 0x00, 0x00, 0x00, 0x00, 0x00, 0x03, 0x00, 0x00, 0x00, 0x00, 0x00, 0x00,
    0x00, 0x02, 0x00, 0x00, 0x00, 0x00, 0x00, 0x00, 0x00, 0x00, 0x00, 0x00, 0x00, 0x00, 0x00, 0x00,
    0x00, 0x02, 0x00, 0x00, 0x00, 0x00, 0x00, 0x00, 0x00, 0x04, 0x00, 0x00, 0x00, 0x00, 0x00, 0x00,
    0x00, 0x04, 0x02, 0x00, 0x01, 0xB0, 0x00, 0x4C, 0xB9, 0x4E, 0x34,
];

// Whether this is its state.
fn has_state(receiver: &Receiver, state: &[u8]) -> bool {
    let mut out = [0; 128];
    match receiver.save(&mut out) {
        Some(size) => size == state.len() && out.starts_with(state),
        None => false,
    }
}

fn is_written(receiver: &mut Receiver, count: u16, bytes: &[u8], out: &mut [u8]) -> bool {
    match receiver.receive(count, bytes, out) {
        Ok(verdict) => verdict.kind.is_written(),
        Err(_) => false,
    }
}

// Whether packet 0, packet 2 and packet 3 are written, all but the second, and the state is saved then.
fn saves_its_state(receiver: &mut Receiver) -> bool {
    let mut out = [0; 1];
    let first = is_written(receiver, 0, &[0x85, 0xB8, 0xD6, 0x00], &mut out);
    let second = is_written(receiver, 2, &[0x82], &mut out);
    let third = is_written(receiver, 3, &[0x8A], &mut out);
    first && !second && third && has_state(receiver, &JUDGED)
}

// Whether the worked states are taken up, and the receiver goes on.
fn takes_states(receiver: &mut Receiver) -> bool {
    let is_fresh = has_state(receiver, &FRESH);
    let is_loaded = receiver.load(&JUDGED).is_ok() && has_state(receiver, &JUDGED);
    let mut out = [0; 1];
    let goes_on = is_written(receiver, 4, &[0x82], &mut out) && out == [0xB0];
    let is_reset = receiver.load(&FRESH).is_ok() && has_state(receiver, &FRESH);
    is_fresh && is_loaded && goes_on && is_reset
}

// Whether no byte of the state can be left out.
fn refuses_fronts(receiver: &mut Receiver) -> bool {
    for size in 0..75 {
        if receiver.load(&JUDGED[..size]).is_ok() {
            return false;
        }
    }
    true
}

// Whether no bit of it can be turned.
fn refuses_turned(receiver: &mut Receiver) -> bool {
    for place in 0..600 {
        let mut turned = JUDGED;
        turned[place / 8] ^= 1 << (place % 8);
        if receiver.load(&turned).is_ok() {
            return false;
        }
    }
    true
}

// Whether other bytes are refused, after which nothing has changed, and the states are taken up.
fn knows_states(receiver: &mut Receiver) -> bool {
    let are_refused = refuses_fronts(receiver) && refuses_turned(receiver);
    are_refused && takes_states(receiver)
}

// (What has a receiver of its own does nothing else: each way out of it is proved to give back all memory.)
fn receiver_saves(alloc: Global) -> Result<bool, OpenFault> {
    let mut receiver = Receiver::open(alloc, 8)?;
    Ok(saves_its_state(&mut receiver))
}

fn receiver_loads(alloc: Global) -> Result<bool, OpenFault> {
    let mut receiver = Receiver::open(alloc, 8)?;
    Ok(knows_states(&mut receiver))
}

#[test]
fn states_of_receivers(rt: HostRuntime) -> Result<(), Fail> {
    assert!(rt; receiver_saves(rt.alloc())?);
    assert!(rt; receiver_loads(rt.alloc())?);
    Ok(())
}

// A sender of 8 places, with the first mask 0F, from which nothing was sent.
const UNSENT: [u8; 48] = [
    0x50, 0x43, 0x4B, 0x54, 0x01, 0x01, 0x00, 0x00, 0x00, 0x08, 0x00, 0x00, 0x00, 0x00, 0x00, 0x00,
    0x00, 0x00, 0x00, 0x00, 0x00, 0x01, 0x0F, 0x00, 0x00, 0x00, 0x00, 0x00, 0x00, 0x00, 0x00, 0x00,
    0x00, 0x00, 0x00, 0x00, 0x00, 0x00, 0x00, 0x00, 0x00, 0x00, 0x00, 0x00, 0x27, 0xB6, 0x6C, 0xDB,
];

// A sender of 8 places that sent B0, B1, B0 with a new mask, and B0, each with a required robustness of 1.
const SENT: [u8; 50] = [
    0x50, 0x43, 0x4B, 0x54, 0x01, 0x01, 0x00, 0x00, 0x00, 0x08, 0x00, 0x00, 0x00, 0x00, 0x00, 0x00,
    0x00, 0x04, 0x01, 0x01, 0xB0, 0x00, 0x01, 0x01, 0x00, 0x01, 0x00, 0x02, 0x00, 0x00, 0x00, 0x00,
    0x00, 0x00, 0x00, 0x00, 0x00, 0x00, 0x00, 0x00, 0x00, 0x01, 0x01, 0x00, 0x00, 0x00, 0x1A, 0x7E,
    0x7C, 0x23,
];

// Whether this is its state.
fn is_state_of(sender: &Sender, state: &[u8]) -> bool {
    let mut out = [0; 128];
    match sender.save(&mut out) {
        Some(size) => size == state.len() && out.starts_with(state),
        None => false,
    }
}

fn is_sent(sender: &mut Sender, input: u8, new_mask: bool) -> bool {
    let flags = Flags {
        p: new_mask,
        f: false,
        r: false,
    };
    let mut out = [0; 32];
    sender.send(&[input], flags, 1, &mut out).is_ok()
}

// Whether four packets are sent, and the state is saved then.
fn saves_its_own(sender: &mut Sender) -> bool {
    let first = is_sent(sender, 0xB0, false) && is_sent(sender, 0xB1, false);
    let second = is_sent(sender, 0xB0, true) && is_sent(sender, 0xB0, false);
    first && second && is_state_of(sender, &SENT)
}

// Whether the worked states are taken up.
fn takes_its_own(sender: &mut Sender) -> bool {
    let is_fresh = is_state_of(sender, &UNSENT);
    let is_loaded = sender.load(&SENT).is_ok() && is_state_of(sender, &SENT);
    let is_reset = sender.load(&UNSENT).is_ok() && is_state_of(sender, &UNSENT);
    is_fresh && is_loaded && is_reset
}

// Whether no byte of the state can be left out.
fn refuses_its_fronts(sender: &mut Sender) -> bool {
    for size in 0..50 {
        if sender.load(&SENT[..size]).is_ok() {
            return false;
        }
    }
    true
}

// Whether no bit of it can be turned.
fn refuses_its_turned(sender: &mut Sender) -> bool {
    for place in 0..400 {
        let mut turned = SENT;
        turned[place / 8] ^= 1 << (place % 8);
        if sender.load(&turned).is_ok() {
            return false;
        }
    }
    true
}

// Whether other bytes are refused, a receiver's state too, after which nothing has changed, and the states are taken up.
fn knows_its_own(sender: &mut Sender) -> bool {
    let are_refused = refuses_its_fronts(sender)
        && refuses_its_turned(sender)
        && sender.load(&JUDGED).is_err();
    are_refused && takes_its_own(sender)
}

fn sender_saves(alloc: Global) -> Result<bool, OpenFault> {
    let mut sender = Sender::open(alloc, 8, None)?;
    Ok(saves_its_own(&mut sender))
}

fn sender_loads(alloc: Global) -> Result<bool, OpenFault> {
    let mut sender = Sender::open(alloc, 8, Some(&[0x0F]))?;
    Ok(knows_its_own(&mut sender))
}

#[test]
fn states_of_senders(rt: HostRuntime) -> Result<(), Fail> {
    assert!(rt; sender_saves(rt.alloc())?);
    assert!(rt; sender_loads(rt.alloc())?);
    Ok(())
}
