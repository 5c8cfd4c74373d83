// The plain data that every crate shares; crates/model/specs says what is true of it.

#![tactic(auto)]

mod verdicts;

pub use verdicts::{Bar, ObjectBar, Verdict};

// A rank (RFC 6550): 65535 is the infinite rank, by which a node says that it has no route.
#[repr(C)]
#[derive(Clone, Copy, PartialEq, Eq, PartialOrd, Ord)]
pub struct Rank(pub u16);

// A number of rank units: one unit is one MinHopRankIncrease.
#[derive(Clone, Copy)]
pub struct Units(pub u32);

// The node's own numbers. Flags: 0x01 overloaded, 0x02 aggregator, 0x04 energy is known, 0x08 lowest is given, 0x10 current is given.
#[repr(C)]
#[derive(Clone, Copy)]
pub struct Own {
    // MinHopRankIncrease
    pub minhop: u16,
    // DAGMaxRankIncrease
    pub maxincrease: u16,
    // L, the lowest rank already advertised
    pub lowest: Rank,
    pub nodetype: u8,
    pub flags: u8,
    pub energy: u8,
    // the current parent's position
    pub current: usize,
    // 1, or 2: which criteria select a parent
    pub edition: u8,
}

// What is known of a neighbour and the link to it. Flags: 0x01 overloaded, 0x02 aggregator, 0x04 energy is known,
// 0x08 etx is known, 0x10 latency is known, 0x20 throughput is known, 0x40 its DODAG is grounded.
#[repr(C)]
#[derive(Clone, Copy)]
pub struct Neighbour {
    // the rank it advertised
    pub rank: Rank,
    // step of rank, rank factor and stretch of rank (RFC 6552)
    pub sp: u8,
    pub rf: u8,
    pub sr: u8,
    pub nodetype: u8,
    pub flags: u8,
    pub energy: u8,
    pub lql: u8,
    // ETX times 128
    pub etx: u16,
    // microseconds
    pub latency: u32,
    // bytes per second
    pub throughput: u32,
    // ten flag bits
    pub colour: u16,
    // the order of the interface to it, 0 best, to 7
    pub order: u8,
    // the preference of its root, 0 to 7, 7 best
    pub preference: u8,
}

// What an unbarred candidate is compared by, the lower the better.
#[derive(Clone, Copy, PartialEq, Eq, PartialOrd, Ord)]
pub struct Offer {
    // what edition 2 compares before the rank, as digits: the interface's order times 16, 8 where its DODAG is not grounded, and how far
    // its root's preference is below 7; in edition 1 it is 0
    pub ahead: u8,
    // its resulting rank
    pub rank: Rank,
}

// A candidate: a neighbour, and where its run of options stands in the lent bytes.
#[repr(C)]
#[derive(Clone, Copy)]
pub struct Candidate {
    pub neighbour: Neighbour,
    pub start: usize,
    // the length of the run, document 01's length of the container
    pub size: usize,
}

// The candidates of a call as C passes them; those from the call's count on are ignored.
#[repr(C)]
#[derive(Clone, Copy)]
pub struct Candidates {
    pub at: [Candidate; 16],
}

// What a container tells the tests of its own constraints: the count of its HP metric; the latency and the ETX that it received, where a
// metric adds them up along the path, else 0.
#[derive(Clone, Copy)]
pub struct Summary {
    pub hops: Option<u8>,
    pub latency: u32,
    pub etx: u16,
}

// The preferred parent: its position among the candidates, and what it is compared by.
#[derive(Clone, Copy, PartialEq, Eq)]
pub struct Parent {
    pub position: u8,
    pub offer: Offer,
}

// The answer of a call. No parent is 255, no rank is 65535, no object's place is 65535.
#[repr(C)]
#[derive(Clone, Copy)]
pub struct Answer {
    pub refusal: u8,
    pub parent: u8,
    pub rank: Rank,
    pub verdicts: [u8; 16],
    pub places: [u16; 16],
    pub bits: u16,
    pub count: u8,
    pub leaf: u8,
    // document 01's length: the bytes of all containers in the output
    pub size: u16,
}
