// Settled times.
ghost use Rattle.std.specs.Prelude.{◌≡◌, ℕ, ◌<◌, ◌≤◌, length, Some, None, slice_index_or, unsigned_abs};
ghost use Rattle.delays.specs.Numbers.{Millis};
ghost use Rattle.delays.specs.Exactness.{exact_size};
ghost use Rattle.rules.specs.Meets.{at};
ghost use Rattle.rules.specs.Prices.{loosened};
ghost use Rattle.rules.specs.Settled.{Settled};
ghost use Rattle.queues.specs.Contents.{capacity_of};
ghost use Rattle.queues.specs.Sorts.{taken_out};
ghost use Rattle.settling.specs.Sizes.{price_size, Sized, Feasible};
ghost use Rattle.settling.specs.Weights.{Opposed, Raised, StaysFrom};

use crate::loosened::Loosened;
use crate::{MAX_EDGES, MAX_NODES};
use delays::Millis;
use queues::Queue;
use search::{Network, start_labelled};

// Labels each event with the opposite of its price.
fn oppose(prices: &[i64], labels: &mut [Option<Millis>])
    requires small { (v : ℕ) → unsigned_abs (at prices.now v) ≤ price_size }
    requires labels { length labels.old ≡ length prices.now }
    ensures { Opposed prices.now labels.new }
{
    // By index: a proof does not see what a zip over `iter_mut` writes.
    for (event, label) in labels.iter_mut().enumerate() {
        *label = Some(Millis::of(-prices[event]));
    }
}

// Adds the label of each event to its price.
pub fn raise_all(labels: &[Option<Millis>], prices: &mut [i64])
    requires small { (v : ℕ) → unsigned_abs (at prices.old v) ≤ price_size }
    requires labels { length labels.now ≡ length prices.old }
    requires exact { (v : ℕ) (k : Millis) → slice_index_or labels.now v None ≡ Some k → unsigned_abs k.0 ≤ exact_size }
    ensures { Raised prices.old labels.now prices.new }
{
    // By index: a proof does not see what a zip over `iter_mut` writes.
    for (event, price) in prices.iter_mut().enumerate() {
        if let Some(key) = labels[event] {
            *price += key.0;
        }
    }
}

// Writes the settled times of the rules, each loosened so much, from prices that are feasible for them. The queue may be in any state.
// It is left empty, with each event counted once; times past those of the events that have prices stay.
pub fn settle<Q: Queue<Millis>>(loose: &Loosened, prices: &[i64], queue: &mut Q, times: &mut [i64])
    requires sized { Sized loose.now.rules.now prices.now }
    requires feasible { Feasible loose.now.by.0 loose.now.rules.now prices.now }
    requires capacity { length prices.now ≤ capacity_of (Q.Queue.contents queue.old) }
    requires times { length prices.now ≤ length times.old }
    ensures settled { Settled (length prices.now) (loosened loose.now.by.0 loose.now.rules.now) (at times.new) }
    ensures rest { StaysFrom (length prices.now) times.old times.new }
    ensures queue { Q.Queue.contents queue.new ≡ taken_out (capacity_of (Q.Queue.contents queue.old)) (length prices.now) }
{
    // Fixed arrays, since no call allocates.
    let mut weights = [Millis::of(0); MAX_EDGES];
    let mut heads = [None; MAX_NODES];
    let mut nexts = [None; MAX_EDGES];
    let mut labels = [None; MAX_NODES];
    let mut parents = [None; MAX_NODES];
    let labels = &mut labels[..prices.len()];
    let parents = &mut parents[..prices.len()];
    loose.weigh(prices, &mut weights);
    let network = Network::new(loose.rules, &weights, &mut heads, &mut nexts);
    oppose(prices, labels);
    start_labelled(labels, parents, queue);
    network.search(labels, parents, queue);
    let part = &mut times[..prices.len()];
    part.copy_from_slice(prices);
    raise_all(labels, part);
}
