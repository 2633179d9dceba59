// A queue that is a binary heap over lent entries: an offer or a taking goes over as many levels as the heap has.

#![tactic(auto)]

ghost use Rattle.heaps.specs.Trees.{TreeOrdered};

use delays::Delay;
use trees::Tree;

pub mod calls;
pub mod entries;
mod trees;

pub use entries::Entry;

// The keys of the events that wait are in heap order.
#[derive(Drop)]
pub struct Heap<'a, K: Delay> {
    tree: Tree<'a, K>,
    count: u32,
    ghost ordered: { TreeOrdered K.Delay.less tree },
}
