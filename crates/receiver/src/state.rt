// What a receiver holds, as plain values.
use packet::values::{Code, Header};

// The octets of sixteen blocks, one behind the other since a check runs over them, and which of them are held: a panel has no heap.
#[derive(Clone, Copy)]
pub struct BlockStore {
    pub octets: [u8; 320],
    pub held: [bool; 16],
}

// The fragment whose blocks are collected: its number and start flag, its blocks and pad.
#[derive(Clone, Copy, PartialEq, Eq, Debug)]
pub struct Gathering {
    pub number: u16,
    pub start: bool,
    pub blocks: u8,
    pub pad: u8,
}

#[derive(Clone, Copy, PartialEq, Eq, Debug)]
pub enum Phase {
    Idle,
    Collecting(Gathering),
    // This fragment is in, and those before it; others follow.
    Waiting(u16),
    // The whole message is in.
    Done,
}

// The serial of the last message handed up, and the check of its last fragment.
#[derive(Clone, Copy, PartialEq, Eq, Debug)]
pub struct Last {
    pub serial: u32,
    pub check: u32,
}

#[derive(Clone, Copy)]
pub struct State {
    pub phase: Phase,
    pub blocks: BlockStore,
    // Octets that the message store holds.
    pub filled: usize,
    pub last: Option<Last>,
}

// What comes to a receiver.
#[derive(Clone, Copy)]
pub enum Event {
    FullStart(Header),
    Full(Header),
    Selective(Header),
    Expiry,
}

// What is left to do after phase and event have met.
#[derive(Clone, Copy)]
pub enum Act {
    Rest,
    Answer(Code),
    Fill(Gathering),
}

// A message that is whole: its serial, and where it lies in the message store.
#[derive(Clone, Copy, PartialEq, Eq, Debug)]
pub struct HandUp {
    pub serial: u32,
    pub place: usize,
    pub length: usize,
}

// What a packet got: its response's code, and perhaps a message to hand up.
#[derive(Clone, Copy, PartialEq, Eq, Debug)]
pub struct Heard {
    pub code: Code,
    pub up: Option<HandUp>,
}
