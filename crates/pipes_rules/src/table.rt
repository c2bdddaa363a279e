// The table of rules.
ghost use Rattle.std.specs.Prelude.{
  ◌≡◌,
  ◌<◌,
  ◌^◌,
  IfSome,
  Some,
  true,
  length,
  map,
  slice_get,
};
ghost use Rattle.std.specs.List.{position};
ghost use Rattle.std.specs.Option.{option_map};
ghost use Rattle.std.specs.Str.{bytes_eq};
ghost use Rattle.pipes_rules.specs.Table.{all_rules, back_arg_of, rule_name};
ghost use Rattle.pipes_rules.specs.Names.{rows_apart, rule_named};
ghost use Rattle.pipes_rules.specs.declared.table.Rule.{Rule as AnyRule};

/// A rule: a left and a right form of plans that mean the same. Its doc names both.
#[derive(Clone, Copy, Debug, PartialEq, Eq)]
pub enum Rule {
    /// `filter(p, filter(q, A))` and `filter((p and q), A)`.
    FilterMerge,
    /// `filter(p, filter(q, A))` and `filter(q, filter(p, A))`.
    FilterSwap,
    /// `filter(p, union(A, B))` and `union(filter(p, A), filter(p, B))`.
    FilterUnion,
    /// `filter(p, distinct(A))` and `distinct(filter(p, A))`.
    FilterDistinct,
    /// `filter(p, minus(A, B))` and `minus(filter(p, A), filter(p, B))`.
    FilterMinus,
    /// `filter(p, map(es, A))` and `map(es, filter(p', A))`.
    FilterMap,
    /// `filter(p, join(k, c, A, B))` and `join(k, c, filter(p, A), B)`.
    FilterLeft,
    /// `filter(p, join(k, c, A, B))` and `join(k, c, A, filter(p', B))`.
    FilterRight,
    /// `filter(p, join(k, c, A, B))` and `join(k, (c and p), A, B)`.
    FilterCond,
    /// `filter(p, group(K, g, A))` and `group(K, g, filter(p', A))`.
    FilterGroup,
    /// `join(k, c, A, B)` and `map(es, join(k', c', B, A))`.
    JoinCommute,
    /// `join(k1, c1, join(k2, c2, A, B), C)` and `join(k, c, A, join(n, true, B, C))`.
    JoinAssoc,
    /// `join(k, c, union(A, B), C)` and `union(join(k, c, A, C), join(k, c, B, C))`.
    JoinUnion,
    /// `union(A, B)` and `union(B, A)`.
    UnionCommute,
    /// `union(union(A, B), C)` and `union(A, union(B, C))`.
    UnionAssoc,
    /// `distinct(distinct(A))` and `distinct(A)`.
    DistinctTwice,
    /// `distinct(union(A, B))` and `distinct(union(distinct(A), distinct(B)))`.
    DistinctUnion,
    /// `distinct(join(k, c, A, B))` and `join(k, c, distinct(A), distinct(B))`.
    DistinctJoin,
    /// `distinct(group(K, g, A))` and `group(K, g, A)`.
    DistinctGroup,
    /// `map(es, map(fs, A))` and `map(gs, A)`.
    MapMerge,
    /// `map(es, union(A, B))` and `union(map(es, A), map(es, B))`.
    MapUnion,
    /// `minus(minus(A, B), C)` and `minus(A, union(B, C))`.
    MinusAssoc,
    /// `join(k, c, A, union(B, C))` and `union(join(k, c, A, B), join(k, c, A, C))`.
    JoinUnionRight,
    /// `distinct(map(es, distinct(A)))` and `distinct(map(es, A))`.
    DistinctMap,
    /// `group(K, g, distinct(A))` and `group(K, g, A)`.
    GroupDistinct,
    /// `filter(true, A)` and `A`.
    FilterTrue,
}

impl Rule {
    /// The rule's name, as texts of derivations have it.
    pub fn name(self) -> &'static str
        ensures { result.now ≡ rule_name self }
    {
        match self {
            Rule::FilterMerge => "filter_merge",
            Rule::FilterSwap => "filter_swap",
            Rule::FilterUnion => "filter_union",
            Rule::FilterDistinct => "filter_distinct",
            Rule::FilterMinus => "filter_minus",
            Rule::FilterMap => "filter_map",
            Rule::FilterLeft => "filter_left",
            Rule::FilterRight => "filter_right",
            Rule::FilterCond => "filter_cond",
            Rule::FilterGroup => "filter_group",
            Rule::JoinCommute => "join_commute",
            Rule::JoinAssoc => "join_assoc",
            Rule::JoinUnion => "join_union",
            Rule::UnionCommute => "union_commute",
            Rule::UnionAssoc => "union_assoc",
            Rule::DistinctTwice => "distinct_twice",
            Rule::DistinctUnion => "distinct_union",
            Rule::DistinctJoin => "distinct_join",
            Rule::DistinctGroup => "distinct_group",
            Rule::MapMerge => "map_merge",
            Rule::MapUnion => "map_union",
            Rule::MinusAssoc => "minus_assoc",
            Rule::JoinUnionRight => "join_union_right",
            Rule::DistinctMap => "distinct_map",
            Rule::GroupDistinct => "group_distinct",
            Rule::FilterTrue => "filter_true",
        }
    }
}

/// What a step back takes beside the plan. A step forward takes nothing.
#[derive(Clone, Copy, Debug, PartialEq, Eq)]
pub enum ArgKind {
    /// Nothing.
    Nothing,
    /// An expression.
    OneExpr,
    /// Two lists of expressions.
    TwoLists,
}

/// A row of the table of rules.
#[derive(Clone, Copy, Debug)]
pub struct RuleRow {
    /// The rule's name.
    pub name: &'static str,
    /// The rule.
    pub rule: Rule,
    /// What a step back takes.
    pub back_arg: ArgKind,
}

/// All rules.
pub const RULES: [RuleRow; 26] = [
    RuleRow {
        name: "filter_merge",
        rule: Rule::FilterMerge,
        back_arg: ArgKind::Nothing,
    },
    RuleRow {
        name: "filter_swap",
        rule: Rule::FilterSwap,
        back_arg: ArgKind::Nothing,
    },
    RuleRow {
        name: "filter_union",
        rule: Rule::FilterUnion,
        back_arg: ArgKind::Nothing,
    },
    RuleRow {
        name: "filter_distinct",
        rule: Rule::FilterDistinct,
        back_arg: ArgKind::Nothing,
    },
    RuleRow {
        name: "filter_minus",
        rule: Rule::FilterMinus,
        back_arg: ArgKind::Nothing,
    },
    RuleRow {
        name: "filter_map",
        rule: Rule::FilterMap,
        back_arg: ArgKind::OneExpr,
    },
    RuleRow {
        name: "filter_left",
        rule: Rule::FilterLeft,
        back_arg: ArgKind::Nothing,
    },
    RuleRow {
        name: "filter_right",
        rule: Rule::FilterRight,
        back_arg: ArgKind::Nothing,
    },
    RuleRow {
        name: "filter_cond",
        rule: Rule::FilterCond,
        back_arg: ArgKind::Nothing,
    },
    RuleRow {
        name: "filter_group",
        rule: Rule::FilterGroup,
        back_arg: ArgKind::OneExpr,
    },
    RuleRow {
        name: "join_commute",
        rule: Rule::JoinCommute,
        back_arg: ArgKind::Nothing,
    },
    RuleRow {
        name: "join_assoc",
        rule: Rule::JoinAssoc,
        back_arg: ArgKind::Nothing,
    },
    RuleRow {
        name: "join_union",
        rule: Rule::JoinUnion,
        back_arg: ArgKind::Nothing,
    },
    RuleRow {
        name: "union_commute",
        rule: Rule::UnionCommute,
        back_arg: ArgKind::Nothing,
    },
    RuleRow {
        name: "union_assoc",
        rule: Rule::UnionAssoc,
        back_arg: ArgKind::Nothing,
    },
    RuleRow {
        name: "distinct_twice",
        rule: Rule::DistinctTwice,
        back_arg: ArgKind::Nothing,
    },
    RuleRow {
        name: "distinct_union",
        rule: Rule::DistinctUnion,
        back_arg: ArgKind::Nothing,
    },
    RuleRow {
        name: "distinct_join",
        rule: Rule::DistinctJoin,
        back_arg: ArgKind::Nothing,
    },
    RuleRow {
        name: "distinct_group",
        rule: Rule::DistinctGroup,
        back_arg: ArgKind::Nothing,
    },
    RuleRow {
        name: "map_merge",
        rule: Rule::MapMerge,
        back_arg: ArgKind::TwoLists,
    },
    RuleRow {
        name: "map_union",
        rule: Rule::MapUnion,
        back_arg: ArgKind::Nothing,
    },
    RuleRow {
        name: "minus_assoc",
        rule: Rule::MinusAssoc,
        back_arg: ArgKind::Nothing,
    },
    RuleRow {
        name: "join_union_right",
        rule: Rule::JoinUnionRight,
        back_arg: ArgKind::Nothing,
    },
    RuleRow {
        name: "distinct_map",
        rule: Rule::DistinctMap,
        back_arg: ArgKind::Nothing,
    },
    RuleRow {
        name: "group_distinct",
        rule: Rule::GroupDistinct,
        back_arg: ArgKind::Nothing,
    },
    RuleRow {
        name: "filter_true",
        rule: Rule::FilterTrue,
        back_arg: ArgKind::Nothing,
    },
];

/// The rows of the table: one for each rule, with the rule's name and what it takes back. No two
/// share a name or a rule.
pub fn rule_rows() -> &'static [RuleRow]
    ensures rules { map (λ row. row.rule) result.now ≡ all_rules }
    ensures named { map (λ row. row.name.now) result.now ≡ map rule_name all_rules }
    ensures back_args { map (λ row. row.back_arg) result.now ≡ map back_arg_of all_rules }
    ensures apart { rows_apart result.now ≡ true }
{
    &RULES
}

/// The place of the first row that has the name, counted from 0; None exactly where none has it.
pub fn find_row(rows: &[RuleRow], name: &str) -> Option<u32>
    requires { length rows.now < 2 ^ 32 }
    ensures { result ≡ position (λ row. bytes_eq row.name.now name.now) rows.now }
{
    place_of(rows, name.as_bytes())
}

// The place of the first row that has the name.
fn row_place(rows: &[RuleRow], name: &[u8]) -> Option<usize>
    ensures value { result ≡ position (λ row. bytes_eq row.name.now name.now) rows.now }
    ensures bound { IfSome result (λ place. place < length rows.now) }
{
    rows.iter().position(|row| row.name.as_bytes() == name)
}

// The same, as a number of 32 bits.
fn place_of(rows: &[RuleRow], name: &[u8]) -> Option<u32>
    requires { length rows.now < 2 ^ 32 }
    ensures { result ≡ position (λ row. bytes_eq row.name.now name.now) rows.now }
{
    match row_place(rows, name) {
        Some(place) => Some(place as u32),
        None => None,
    }
}

// The rule of the row at the place.
fn rule_at(rows: &[RuleRow], place: u32) -> Option<Rule>
    ensures { result ≡ option_map (λ row. row.rule) (slice_get rows.now place) }
{
    match rows.get(place as usize) {
        Some(row) => Some(row.rule),
        None => None,
    }
}

/// The rule with the name; None exactly where no rule has it. Each rule's name reads to that rule.
#[tactic(auto, using(crate::proofs::TableLaws::table_laws))]
pub fn rule_by_name(name: &str) -> Option<Rule>
    ensures value { result ≡ rule_named name.now }
    ensures own { (rule : AnyRule) → rule_named (rule_name rule) ≡ Some rule }
{
    let rows = rule_rows();
    match find_row(rows, name) {
        Some(place) => rule_at(rows, place),
        None => None,
    }
}
