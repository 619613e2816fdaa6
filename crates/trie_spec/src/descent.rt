// Where a descent ends, and the last step to it.
ghost use Rattle.std.specs.Prelude.{◌≡◌};
ghost use Rattle.trie_spec.specs.Walk.{link_in};

use node::child::{BranchNo, Child, LeafNo, Link};

// Where a link stands: in the header, or in a slot of a branch.
#[derive(Clone, Copy)]
pub enum Spot {
    Root,
    Under(BranchNo, u8),
}

// The last step of a descent: the child that it led to, that child's position, where its link stands, and where the link to the branch above it stands.
#[derive(Clone, Copy)]
pub struct Step {
    pub child: Child,
    pub position: u8,
    pub at: Spot,
    pub above: Spot,
}

impl Step {
    // The link to the child.
    pub fn link(self) -> Link
        ensures { result ≡ link_in self }
    {
        Link {
            child: self.child,
            position: self.position,
        }
    }
}

// Where a descent ends; NotAStore stands beside it where the records are no tree, or a deeper one than a picture.
#[derive(Clone, Copy)]
pub enum Walked {
    // the node met, and the step to it
    At(Child, Step),
    // the branch lacks the slot
    Missing(BranchNo, u8),
}

// The way down by the key's nibbles, as far as it goes.
#[derive(Clone, Copy)]
pub enum Way {
    // the leaf at its end, how many branches lie above it, the step to it, and the highest position on the way
    Leaf(LeafNo, usize, Step, u8),
    // the branch that lacks the slot, the slot, the branch's position, how many branches lie above it, and the highest position on the way
    Off(BranchNo, u8, u8, usize, u8),
}

// The closest leaf, how many branches lie above it, where the way down by the key's nibbles ends, and the highest position on that way.
#[derive(Clone, Copy)]
pub struct Near {
    pub leaf: LeafNo,
    pub depth: usize,
    pub end: Walked,
    pub high: u8,
}

// The closest leaf, and how many branches lie above it.
#[derive(Clone, Copy)]
pub struct Closest {
    pub leaf: LeafNo,
    pub depth: usize,
}
