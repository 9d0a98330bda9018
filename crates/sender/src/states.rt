// The states of a sender: each call takes one and hands one on.
ghost use Rattle.std.specs.Prelude.{ℕ, ◌+◌, ◌*◌, ◌≤◌};

use crate::values::{Base, Session};
use fault::EndFault;
use std::marker::PhantomData;

pub mod calls;

// Between sessions.
pub struct Ready<C, K> {
    base: Base,
    kind: PhantomData<(C, K)>,
    ghost few: { base.limit ≤ 15 },
}

// In a session, with so many packets put out whose response is awaited.
pub struct InSession<C, K, const OUT: u8> {
    base: Base,
    session: Session,
    kind: PhantomData<(C, K)>,
    ghost few: { base.limit ≤ 15 },
    ghost tried: { session.used ≤ base.limit },
    // each fragment so far took at most 16 packets, and the current one as many as its retries, and those that are out
    ghost counted: { session.packets + 16 * session.number ≤ 1048560 + OUT + session.used },
}

// In a session, with a packet to put out.
pub type Sending<C, K> = InSession<C, K, 0>;

// In a session, with a packet put out whose response is awaited.
pub type Awaiting<C, K> = InSession<C, K, 1>;

// A refused call: the caller's value as it was, and why.
pub struct Refusal<S> {
    pub kept: S,
    pub fault: EndFault,
}
