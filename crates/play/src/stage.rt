// Both ends while a drill is played. They are never let go, only put away.
use check32::Check;
use exchange::pair::{Exchange, Transfer};
use fragment::carrier::Carrier;
use std::alloc::AllocError;
use std::ops::ControlFlow;

// Between sessions, or within one.
pub(crate) enum Stage<C, K> {
    Between(Exchange<C, K>),
    Within(Transfer<C, K>),
}

// After a turn: the session goes on, or is over for the drill.
pub(crate) type Turn<C, K> = ControlFlow<Stage<C, K>, Transfer<C, K>>;

// Memory is short: both ends are handed back, since an error may not let them go.
pub(crate) struct Short<C, K> {
    pub(crate) stage: Stage<C, K>,
    pub(crate) error: AllocError,
}

impl<C: Carrier, K: Check> Stage<C, K> {
    // Puts both ends away for good.
    pub(crate) fn retire(self) {
        match self {
            Stage::Between(exchange) => {
                let _ = exchange.retire();
            }
            Stage::Within(transfer) => {
                let _ = transfer.retire();
            }
        }
    }
}
