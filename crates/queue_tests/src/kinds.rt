// Sums, opposites and comparisons, at the edge of exactness and past it.
use delays::{Count, Delay, Millis, Pair};

const EXACT: i64 = 4_000_000_000_000_000_000;

fn pair(millis: i64, rules: i64) -> Pair<Millis, Count> {
    Pair {
        first: Millis::of(millis),
        second: Count::of(rules),
    }
}

#[test]
fn sums_are_exact_up_to_the_edge(rt: HostRuntime) {
    assert_eq!(rt;
        Millis::of(EXACT / 2).sum(Millis::of(EXACT / 2)),
        Millis::of(EXACT)
    );
    assert_eq!(rt; Millis::of(-EXACT).sum(Millis::of(0)), Millis::of(-EXACT));
    assert_eq!(rt;
        Millis::of(EXACT - 1).sum(Millis::of(-1)),
        Millis::of(EXACT - 2)
    );
    assert_eq!(rt;
        Count::of(-EXACT / 2).sum(Count::of(-EXACT / 2)),
        Count::of(-EXACT)
    );
    assert_eq!(rt; Millis::of(EXACT).opposite(), Millis::of(-EXACT));
    assert_eq!(rt; Count::of(-EXACT).opposite(), Count::of(EXACT));
    assert_eq!(rt; Millis::zero().sum(Millis::of(17)), Millis::of(17));
}

// Past the edge nothing is promised of the value; the calls return.
#[test]
fn sums_past_the_edge_return(rt: HostRuntime) {
    let least = Millis::of(i64::MIN);
    let _ = least.sum(least);
    let _ = least.opposite();
    let _ = pair(i64::MIN, i64::MAX).sum(pair(i64::MIN, i64::MAX));
    let _ = pair(i64::MIN, i64::MIN).opposite();
    assert!(rt; least.below(Millis::of(i64::MAX)));
    assert!(rt; !least.below(least));
}

#[test]
fn pairs_compare_by_the_first_part_and_then_the_second(rt: HostRuntime) {
    assert!(rt; pair(1, 9).below(pair(2, 0)));
    assert!(rt; !pair(2, 0).below(pair(1, 9)));
    assert!(rt; pair(1, 0).below(pair(1, 9)));
    assert!(rt; !pair(1, 9).below(pair(1, 0)));
    assert!(rt; !pair(1, 9).below(pair(1, 9)));
    let sum = pair(3, -1).sum(pair(4, -9));
    assert_eq!(rt; sum, pair(7, -10));
    assert_eq!(rt; sum.opposite(), pair(-7, 10));
}
