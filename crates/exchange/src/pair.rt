// Both ends of a link, between sessions and within one.
ghost use Rattle.std.specs.Prelude.{◌≡◌};

use air::few::UpToThree;
use receiver::receiver::Receiver;
use sender::states::{Ready, Sending};
use sender::values::Next;

// A sender, in one of its states, and a receiver.
pub struct Ends<S, R> {
    pub(crate) sender: S,
    pub(crate) receiver: R,
}

// Between sessions.
pub type Exchange<C, K> = Ends<Ready<C, K>, Receiver<C, K>>;

// Within a session: a message on its way.
pub type Transfer<C, K> = Ends<Sending<C, K>, Receiver<C, K>>;

// A message handed up: its serial, and how many octets it has.
#[derive(Clone, Copy, PartialEq, Eq, Debug)]
pub struct Up {
    pub serial: u32,
    pub octets: usize,
}

// What a turn came to: what it handed up, in order, and what became of the session.
pub struct Turned<C, K> {
    pub ups: UpToThree<Up>,
    pub next: Next<Transfer<C, K>, Exchange<C, K>>,
}

// Lets go of a receiver, whatever its carrier and check.
pub(crate) fn let_go<C, K>(receiver: Receiver<C, K>) {
    let Receiver {
        route: _,
        state: _,
        kind: _,
    } = receiver;
}

impl<S, C, K> Ends<S, Receiver<C, K>> {
    // The sender alone.
    pub(crate) fn into_sender(self) -> S
        ensures { result ≡ self.sender }
    {
        let Ends { sender, receiver } = self;
        let_go(receiver);
        sender
    }
}
