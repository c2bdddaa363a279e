// The rules at a node, one line a row and direction.
ghost use Rattle.std.specs.Prelude.{◌≡◌, Option, IfOk};
ghost use Rattle.pipes_plan.specs.declared.plan.Plan.{Plan as PlanValue};
ghost use Rattle.pipes_rewrite.specs.Making.{Makes};
ghost use Rattle.pipes_rules.specs.Rewriting.{
  back_plain,
  back_with_expr,
  back_with_lists,
  rule_back,
  rule_forward,
};

use crate::{Arg, Rule};
use pipes_bag_rules::{
    distinct_group, distinct_group_back, distinct_map, distinct_map_back, distinct_twice,
    distinct_twice_back, distinct_union, distinct_union_back, group_distinct, group_distinct_back,
    map_merge, map_merge_back, map_union, map_union_back, minus_assoc, minus_assoc_back,
    union_assoc, union_assoc_back, union_commute,
};
use pipes_filter_rules::{
    filter_cond, filter_cond_back, filter_distinct, filter_distinct_back, filter_group,
    filter_group_back, filter_left, filter_left_back, filter_map, filter_map_back, filter_merge,
    filter_merge_back, filter_minus, filter_minus_back, filter_right, filter_right_back,
    filter_swap, filter_true, filter_true_back, filter_union, filter_union_back,
};
use pipes_join_rules::{
    distinct_join, distinct_join_back, join_assoc, join_assoc_back, join_commute,
    join_commute_back, join_union, join_union_back, join_union_right, join_union_right_back,
};
use pipes_plan::{Expr, Exprs, Plan};
use pipes_rewrite::{Lengthened, RewriteFault};
use pipes_time::Memory;
use pipes_tuple::Schema;
use std::alloc::Global;

// What a rule makes whose form has no longer lists than the plan.
fn short(made: Result<Option<Plan>, Memory>) -> Lengthened
    ensures { (form : Option PlanValue) → IfOk made (λ new. new ≡ form)
        → Makes result form }
{
    match made {
        Ok(new) => Ok(new),
        Err(_) => Err(RewriteFault::Memory),
    }
}

/// The right form of a left form of the rule.
pub fn rewrite_forward(alloc: Global, schemas: &[Schema], rule: Rule, node: &Plan) -> Lengthened
    ensures { Makes result (rule_forward schemas.now rule node.now) }
{
    macro_rules! rows {
        ($($rule:ident => $made:expr,)*) => {
            match rule {
                $(Rule::$rule => $made,)*
            }
        };
    }
    rows! {
        FilterMerge => short(filter_merge(alloc, node)),
        FilterSwap => short(filter_swap(alloc, node)),
        FilterUnion => short(filter_union(alloc, node)),
        FilterDistinct => short(filter_distinct(alloc, node)),
        FilterMinus => short(filter_minus(alloc, node)),
        FilterMap => short(filter_map(alloc, node)),
        FilterLeft => short(filter_left(alloc, schemas, node)),
        FilterRight => short(filter_right(alloc, schemas, node)),
        FilterCond => short(filter_cond(alloc, node)),
        FilterGroup => short(filter_group(alloc, node)),
        JoinCommute => join_commute(alloc, schemas, node),
        JoinAssoc => join_assoc(alloc, schemas, node),
        JoinUnion => short(join_union(alloc, node)),
        UnionCommute => short(union_commute(alloc, node)),
        UnionAssoc => short(union_assoc(alloc, node)),
        DistinctTwice => short(distinct_twice(alloc, node)),
        DistinctUnion => short(distinct_union(alloc, node)),
        DistinctJoin => short(distinct_join(alloc, node)),
        DistinctGroup => short(distinct_group(alloc, node)),
        MapMerge => short(map_merge(alloc, node)),
        MapUnion => short(map_union(alloc, node)),
        MinusAssoc => short(minus_assoc(alloc, node)),
        JoinUnionRight => short(join_union_right(alloc, node)),
        DistinctMap => short(distinct_map(alloc, node)),
        GroupDistinct => short(group_distinct(alloc, node)),
        FilterTrue => short(filter_true(alloc, node)),
    }
}

// The left form of a right form of the rule, where nothing else is given.
fn rewrite_back_plain(alloc: Global, schemas: &[Schema], rule: Rule, node: &Plan) -> Lengthened
    ensures { Makes result (back_plain schemas.now rule node.now) }
{
    macro_rules! rows {
        ([$($other:ident)*] $($rule:ident => $made:expr,)*) => {
            match rule {
                $(Rule::$rule => $made,)*
                $(Rule::$other => Ok(None),)*
            }
        };
    }
    rows! {
        [
            FilterMap FilterGroup MapMerge
        ]
        FilterMerge => short(filter_merge_back(alloc, node)),
        FilterSwap => short(filter_swap(alloc, node)),
        FilterUnion => short(filter_union_back(alloc, node)),
        FilterDistinct => short(filter_distinct_back(alloc, node)),
        FilterMinus => short(filter_minus_back(alloc, node)),
        FilterLeft => short(filter_left_back(alloc, schemas, node)),
        FilterRight => short(filter_right_back(alloc, schemas, node)),
        FilterCond => short(filter_cond_back(alloc, node)),
        JoinCommute => short(join_commute_back(alloc, schemas, node)),
        JoinAssoc => join_assoc_back(alloc, schemas, node),
        JoinUnion => short(join_union_back(alloc, node)),
        UnionCommute => short(union_commute(alloc, node)),
        UnionAssoc => short(union_assoc_back(alloc, node)),
        DistinctTwice => short(distinct_twice_back(alloc, node)),
        DistinctUnion => short(distinct_union_back(alloc, node)),
        DistinctJoin => short(distinct_join_back(alloc, node)),
        DistinctGroup => short(distinct_group_back(alloc, node)),
        MapUnion => short(map_union_back(alloc, node)),
        MinusAssoc => short(minus_assoc_back(alloc, node)),
        JoinUnionRight => short(join_union_right_back(alloc, node)),
        DistinctMap => short(distinct_map_back(alloc, node)),
        GroupDistinct => short(group_distinct_back(alloc, node)),
        FilterTrue => short(filter_true_back(alloc, node)),
    }
}

// The same, where an expression is given.
fn rewrite_back_with_expr(alloc: Global, rule: Rule, p: &Expr, node: &Plan) -> Lengthened
    ensures { Makes result (back_with_expr rule p.now node.now) }
{
    macro_rules! rows {
        ([$($other:ident)*] $($rule:ident => $made:expr,)*) => {
            match rule {
                $(Rule::$rule => $made,)*
                $(Rule::$other => Ok(None),)*
            }
        };
    }
    rows! {
        [
            FilterMerge FilterSwap FilterUnion FilterDistinct FilterMinus FilterLeft FilterRight
            FilterCond JoinCommute JoinAssoc JoinUnion UnionCommute UnionAssoc DistinctTwice
            DistinctUnion DistinctJoin DistinctGroup MapMerge MapUnion MinusAssoc JoinUnionRight
            DistinctMap GroupDistinct FilterTrue
        ]
        FilterMap => short(filter_map_back(alloc, p, node)),
        FilterGroup => short(filter_group_back(alloc, p, node)),
    }
}

// The same, where two lists of expressions are given.
fn rewrite_back_with_lists(
    alloc: Global,
    rule: Rule,
    es: &Exprs,
    fs: &Exprs,
    node: &Plan,
) -> Lengthened
    ensures { Makes result (back_with_lists rule es.now fs.now node.now) }
{
    macro_rules! rows {
        ([$($other:ident)*] $($rule:ident => $made:expr,)*) => {
            match rule {
                $(Rule::$rule => $made,)*
                $(Rule::$other => Ok(None),)*
            }
        };
    }
    rows! {
        [
            FilterMerge FilterSwap FilterUnion FilterDistinct FilterMinus FilterMap FilterLeft
            FilterRight FilterCond FilterGroup JoinCommute JoinAssoc JoinUnion UnionCommute
            UnionAssoc DistinctTwice DistinctUnion DistinctJoin DistinctGroup MapUnion MinusAssoc
            JoinUnionRight DistinctMap GroupDistinct FilterTrue
        ]
        MapMerge => short(map_merge_back(alloc, es, fs, node)),
    }
}

/// The left form of a right form of the rule, where the argument is the one that it takes.
pub fn rewrite_back(
    alloc: Global,
    schemas: &[Schema],
    rule: Rule,
    arg: &Arg,
    node: &Plan,
) -> Lengthened
    ensures { Makes result (rule_back schemas.now rule arg.now node.now) }
{
    match arg {
        Arg::Nothing => rewrite_back_plain(alloc, schemas, rule, node),
        Arg::OneExpr(p) => rewrite_back_with_expr(alloc, rule, p, node),
        Arg::TwoLists(es, fs) => rewrite_back_with_lists(alloc, rule, es, fs, node),
    }
}
