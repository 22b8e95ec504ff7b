//! The numbers of nodes and slots.
ghost use Rattle.std.specs.Prelude.{◌≡◌, ◌+◌, ◌<◌, ◌↔◌, IsSome, IfSome};
ghost use Rattle.wscript.specs.Commands.{IsNode, IsSlot, node_count, slot_count};

use std::marker::Model;

/// How many nodes a script has.
pub const NODES: u32 = 16;

/// How many slots it has.
pub const SLOTS: u32 = 16;

/// The number of a node, from 1.
#[derive(Clone, Copy, Debug)]
pub struct NodeNumber {
    number: u32,
}

impl Model for NodeNumber {
    ghost use Rattle.std.specs.Prelude.{ℕ};
    ghost use Rattle.std.specs.Coded.{coded_ℕ};
    ghost use Rattle.wscript.specs.Commands.{IsNode};

    ghost Value = { ℕ };

    ghost coded = { coded_ℕ };

    ghost view = { λ n. n.number };

    ghost invariant = { λ n. IsNode n.number };

    ghost inverse = { λ n. record { number = n } };
}

impl NodeNumber {
    /// The node of this number, if there is one.
    pub fn new(number: u32) -> Option<NodeNumber>
        ensures found { IsSome result ↔ IsNode number }
        ensures value { IfSome result (λ node. node ≡ number) }
    {
        if 0 < number && number <= NODES {
            Some(NodeNumber { number })
        } else {
            None
        }
    }

    /// Its place among the nodes, from 0.
    pub fn place(self) -> usize
        ensures place { result + 1 ≡ self }
        ensures in_range { result < node_count }
    {
        (self.number - 1) as usize
    }
}

/// The number of a slot, from 1.
#[derive(Clone, Copy, Debug)]
pub struct SlotNumber {
    number: u32,
}

impl Model for SlotNumber {
    ghost use Rattle.std.specs.Prelude.{ℕ};
    ghost use Rattle.std.specs.Coded.{coded_ℕ};
    ghost use Rattle.wscript.specs.Commands.{IsSlot};

    ghost Value = { ℕ };

    ghost coded = { coded_ℕ };

    ghost view = { λ n. n.number };

    ghost invariant = { λ n. IsSlot n.number };

    ghost inverse = { λ n. record { number = n } };
}

impl SlotNumber {
    /// The slot of this number, if there is one.
    pub fn new(number: u32) -> Option<SlotNumber>
        ensures found { IsSome result ↔ IsSlot number }
        ensures value { IfSome result (λ slot. slot ≡ number) }
    {
        if 0 < number && number <= SLOTS {
            Some(SlotNumber { number })
        } else {
            None
        }
    }

    /// Its place among the slots, from 0.
    pub fn place(self) -> usize
        ensures place { result + 1 ≡ self }
        ensures in_range { result < slot_count }
    {
        (self.number - 1) as usize
    }
}
