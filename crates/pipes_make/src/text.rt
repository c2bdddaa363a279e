// The query, and derivations.
ghost use Rattle.std.specs.Prelude.{◌≡◌};
ghost use Rattle.pipes_make.specs.Texts as texts;

/// The query over the two sources, of which one has a window of time and one of a count.
pub fn query_text() -> &'static str
    ensures { result.now ≡ texts.query_text }
{
    "source bids from \"bids.csv\" (item int, price int) window time 50\n\
     source asks from \"asks.csv\" (item int, price int) window count 40\n\
     plan group([0], [count, max 1], distinct(minus(map([$0, $1], \
     filter(($1 < 90), union(bids, asks))), map([$0, $3], \
     join([0=0], ($3 <= $1), bids, asks)))))\n"
}

/// A derivation from the query's plan: the filter goes below the union.
pub fn first_derivation() -> &'static str
    ensures { result.now ≡ texts.first_derivation }
{
    "step filter_union at 0.0.0.0\n\
     plan group([0], [count, max 1], distinct(minus(map([$0, $1], \
     union(filter(($1 < 90), bids), filter(($1 < 90), asks))), map([$0, $3], \
     join([0=0], ($3 <= $1), bids, asks)))))\n"
}

/// A derivation from the plan of the first: the map goes below the union, and the join changes its
/// sides.
pub fn second_derivation() -> &'static str
    ensures { result.now ≡ texts.second_derivation }
{
    "step map_union at 0.0.0\nstep join_commute at 0.0.1.0\n\
     plan group([0], [count, max 1], distinct(minus(\
     union(map([$0, $1], filter(($1 < 90), bids)), \
     map([$0, $1], filter(($1 < 90), asks))), map([$0, $3], \
     map([$2, $3, $0, $1], join([0=0], ($1 <= $3), asks, bids))))))\n"
}

/// A derivation from the plan of the second: the two maps above the join become one.
pub fn third_derivation() -> &'static str
    ensures { result.now ≡ texts.third_derivation }
{
    "step map_merge at 0.0.1\n\
     plan group([0], [count, max 1], distinct(minus(\
     union(map([$0, $1], filter(($1 < 90), bids)), \
     map([$0, $1], filter(($1 < 90), asks))), map([$2, $1], \
     join([0=0], ($1 <= $3), asks, bids)))))\n"
}
