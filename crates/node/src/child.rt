// A child of a branch: a leaf with its number or a branch with its number. Leaf numbers and branch numbers are two types, so that neither is used as
// the other. A link is a child and, for a branch, the position at which that branch stands; in the store it is a number of 3 bytes.
ghost use Rattle.std.specs.Prelude.{◌≡◌, ◌<◌};
ghost use Rattle.model.specs.Numbers.{most};
ghost use Rattle.node.specs.Child.{link_of, item_of, code_of, number_in};

use crate::NotAStore;
use crate::layout::MOST;

#[derive(Clone, Copy)]
pub struct LeafNo(pub u16);

#[derive(Clone, Copy)]
pub struct BranchNo(pub u16);

#[derive(Clone, Copy)]
pub enum Child {
    Leaf(LeafNo),
    Branch(BranchNo),
}

#[derive(Clone, Copy)]
pub struct Link {
    pub child: Child,
    pub position: u8,
}

// The link that an item of a branch stands for: its two low bytes are the child's code, below MOST a leaf and from there on a branch, and the third is the
// position. A number is tested against the capacity before anything uses it.
pub fn link_of(item: u32, capacity: u16) -> Result<Link, NotAStore>
    ensures { result ≡ link_of capacity item }
{
    let code = item % 65536;
    let position = (item / 65536 % 256) as u8;
    if code < capacity as u32 {
        return Ok(Link {
            child: Child::Leaf(LeafNo(code as u16)),
            position,
        });
    }
    if code < MOST as u32 {
        return Err(NotAStore);
    }
    let number = code - MOST as u32;
    if number < capacity as u32 {
        return Ok(Link {
            child: Child::Branch(BranchNo(number as u16)),
            position,
        });
    }
    Err(NotAStore)
}

fn code_of(child: Child) -> u32
    requires { number_in child < most }
    ensures { (result ≡ code_of child) × (result < 32768) }
{
    match child {
        Child::Leaf(n) => n.0 as u32,
        Child::Branch(n) => MOST as u32 + n.0 as u32,
    }
}

// The item of a link. A number has no bound in its type: one that is read from a store is tested against its capacity, which differs from store to store.
pub fn item_of(link: Link) -> u32
    requires { number_in link.child < most }
    ensures { (result ≡ item_of link) × (result < 16777216) }
{
    code_of(link.child) + link.position as u32 * 65536
}
