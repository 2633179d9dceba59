// What holds of rules, times, chains, rings and distances: each function's contract names the theorems of one subject.
// A call returns nothing and does nothing.
ghost use Rattle.rules.specs.TheoremsChains.{ChainsBoundLeads, ChainsJoin, ChainsShorten, ClosedChainsHoldRings};
ghost use Rattle.rules.specs.TheoremsTimes.{TimesExactly, RulesDecided, SettledExactly, SettledAlike, ChainsSettle, OrderFree};
ghost use Rattle.rules.specs.TheoremsLeads.{LargestIsDistance, NoLargestExactly, OpenExactly, LeadsDecided};
ghost use Rattle.rules.specs.TheoremsDistances.{DistancesDecided, NoShortestExactly, DistancesAlike, SourcesDecided, SourcesExactly, SourceDistances};
ghost use Rattle.rules.specs.TheoremsDistances.{FewestRulesExist, FewestRulesBounded, LowestEndsExist, FewestNegativesExist, RoundsExist, RoundsBounded, RoundsAlike};
ghost use Rattle.rules.specs.TheoremsPrices.{ReducedSums, ReducedRings, PricesAreTimes, LoosenedExactly};
ghost use Rattle.rules.specs.Fills.{Fills};

// Chains and rings.
pub fn chains_stand()
    ensures bound { ChainsBoundLeads }
    ensures join { ChainsJoin }
    ensures shorten { ChainsShorten }
    ensures closed { ClosedChainsHoldRings }
{}

// Times that meet the rules, and the settled ones.
pub fn times_stand()
    ensures exactly { TimesExactly }
    ensures decided { RulesDecided }
    ensures settled { SettledExactly }
    ensures alike { SettledAlike }
    ensures chains { ChainsSettle }
    ensures order { OrderFree }
{}

// Largest leads.
pub fn leads_stand()
    ensures distance { LargestIsDistance }
    ensures none { NoLargestExactly }
    ensures opens { OpenExactly }
    ensures decided { LeadsDecided }
{}

// Distances, and which rules concern a source.
pub fn distances_stand()
    ensures decided { DistancesDecided }
    ensures rings { NoShortestExactly }
    ensures alike { DistancesAlike }
    ensures sources { SourcesDecided }
    ensures exactly { SourcesExactly }
    ensures reached { SourceDistances }
{}

// Shortest chains with fewest rules or fewest limits below 0, the rules that end them, and rounds.
pub fn rounds_stand()
    ensures fewest { FewestRulesExist }
    ensures few { FewestRulesBounded }
    ensures lowest { LowestEndsExist }
    ensures negatives { FewestNegativesExist }
    ensures exist { RoundsExist }
    ensures bounded { RoundsBounded }
    ensures alike { RoundsAlike }
{}

// Prices, reduced limits and loosened rules.
pub fn prices_stand()
    ensures sums { ReducedSums }
    ensures rings { ReducedRings }
    ensures times { PricesAreTimes }
    ensures loosened { LoosenedExactly }
{}

// Small books worked by hand, each with what the definitions say of it.
pub fn worked_fills()
    ensures { Fills }
{}
