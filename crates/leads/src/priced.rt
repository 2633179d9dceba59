// Rules with prices by which a search can go.
ghost use Rattle.std.specs.Prelude.{◌<◌, length};
ghost use Rattle.leads.specs.Priced.{Priced};

use rules::{EventNumber, Rule};

// Rules, a price for each event, and a source: a search from the source can go by these prices.
#[derive(Clone, Copy)]
pub struct PricedRules<'a> {
    pub rules: &'a [Rule],
    pub prices: &'a [i64],
    pub source: EventNumber,
    pub ghost priced: { Priced rules.now source prices.now },
    pub ghost inside: { source < length prices.now },
}
