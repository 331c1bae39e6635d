//! The keys that the alternatives of a chain ask for: one by one, and in groups.
ghost use Rattle.std.specs.List.Sorted.{IsNonDecreasing};
ghost use Rattle.std.proofs.Props.{props};

/// The kind of a key.
#[derive(Clone, Copy, PartialEq, Eq)]
pub enum KeyKind {
    Proto,
    Port,
    Vlan,
    V4,
    Mpls,
    V6,
    Second,
}

/// The keys that an alternative asks for: those of this kind whose number, without its last
/// `dropped` bits, is this one.
#[derive(Clone, Copy)]
pub struct Pattern {
    pub kind: KeyKind,
    pub dropped: u8,
    pub number: u128,
}

/// Patterns of one kind that drop equally many bits, by their numbers in ascending order.
#[derive(Drop)]
pub struct Group {
    pub kind: KeyKind,
    pub dropped: u8,
    pub numbers: Vec<u128>,
    ghost ascending: { IsNonDecreasing numbers.items } by { Prim.hlevel props },
}

/// The alternatives that a query begins with, as groups, and how many of its parts follow them.
#[derive(Drop)]
pub struct Chain {
    pub groups: Vec<Group>,
    pub following: usize,
}
