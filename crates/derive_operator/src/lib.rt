// What each kind of operator makes of its inputs' answers, after the `match` of the Rust's `derive_logical_facts`.
#![tactic(auto)]

ghost use Rattle.std.specs.Prelude.{◌≡◌, true, false, MatchResult};
ghost use Rattle.constraint_spec.specs.Sets.{empty_set};
ghost use Rattle.plan_data.specs.Nodes.{node_at};
ghost use Rattle.apply_spec.specs.Facts.{with_constraints};
ghost use Rattle.apply_spec.specs.Entries.{inputs_merged};
ghost use Rattle.derive_spec.specs.Answers.{derived};
ghost use Rattle.derive_spec.specs.Columns.{no_columns, columns_in, facts_with, derived_column, scanned, derived_columns, projected, renamed, mapped};
ghost use Rattle.derive_spec.specs.Operators.{refused_by, given, fitted, filtered, joined, grouped, operator_derived, outer_of, inner_of};

use apply_spec::{FactsError, LogicalFacts};
use constraint_spec::ConstraintSet;
use derive_spec::{ColumnFacts, DeriveError};
use plan::{Column, Expr, Operator, Plan};
use plan_data::{JoinType, OperatorData, Run};
use plan_identities::Identities;

// ---- facts and refusals

fn columns_in(f: &LogicalFacts) -> ColumnFacts
    ensures { result ≡ columns_in f.now }
{
    ColumnFacts {
        lineage: f.lineage,
        definitions: f.definitions,
    }
}

fn facts_with(t: ColumnFacts, constraints: &ConstraintSet) -> LogicalFacts
    ensures { result ≡ facts_with t constraints.now }
{
    let ColumnFacts {
        lineage,
        definitions,
    } = t;
    LogicalFacts {
        lineage,
        definitions,
        constraints: *constraints,
    }
}

// Why the operator h refuses, where applying or merging refuses.
fn refused_by(h: Operator, e: FactsError) -> DeriveError
    ensures { result ≡ refused_by h e }
{
    match e {
        FactsError::Residuals => DeriveError::Residuals(h),
        FactsError::NoSuch => DeriveError::NoSuch(h),
    }
}

// ---- operators without an input

fn scan(p: &Plan, ids: &Identities, columns: Run) -> LogicalFacts
    ensures { result ≡ facts_with (scanned ids.now p.now.items.a columns) empty_set }
{
    let t = derive_columns::scan_columns(ids, &p.items.a, columns);
    facts_with(t, &ConstraintSet::empty())
}

// ConstScan and TableFunction: every column is Derived.
fn all_derived(p: &Plan, ids: &Identities, columns: Run) -> LogicalFacts
    ensures { result ≡ facts_with (derived_columns ids.now p.now.items.a columns no_columns) empty_set }
{
    let mut t = ColumnFacts::empty();
    derive_columns::derived_columns(ids, &p.items.a, columns, &mut t);
    facts_with(t, &ConstraintSet::empty())
}

// ---- operators with one input

#[tactic(auto, unfolding(derive_spec::specs::Operators::filtered))]
fn selection(
    p: &Plan,
    h: Operator,
    predicate: Expr,
    f: &LogicalFacts,
) -> Result<LogicalFacts, DeriveError>
    ensures { derived result ≡ fitted h (filtered p.now predicate f.now) }
{
    let mut g = *f;
    apply_predicate::apply_to_facts(p, &mut g, predicate).map_err(|e| refused_by(h, e))?;
    Ok(g)
}

fn projection(p: &Plan, columns: Run, f: &LogicalFacts) -> LogicalFacts
    ensures { result ≡ facts_with (projected (columns_in f.now) p.now.items.a columns) f.now.constraints }
{
    let t = derive_columns::project_columns(&columns_in(f), &p.items.a, columns);
    facts_with(t, &f.constraints)
}

fn rename(p: &Plan, defs: Run, f: &LogicalFacts) -> LogicalFacts
    ensures { result ≡ facts_with (renamed (columns_in f.now) p.now.items.a p.now.items.b defs) f.now.constraints }
{
    let t = derive_columns::rename_columns(&columns_in(f), &p.items.a, &p.items.b, defs);
    facts_with(t, &f.constraints)
}

fn map(p: &Plan, ids: &Identities, computations: Run, f: &LogicalFacts) -> LogicalFacts
    ensures { result ≡ facts_with
        (mapped ids.now (node_at p.now) p.now.items.a p.now.items.b computations (columns_in f.now)) f.now.constraints }
{
    let mut t = columns_in(f);
    derive_columns::map_columns(
        ids,
        &p.expressions,
        &p.items.a,
        &p.items.b,
        computations,
        &mut t,
    );
    facts_with(t, &f.constraints)
}

// Aggregation changes what a row is: the keys keep their lineage, and nothing else stays.
#[tactic(auto, unfolding(derive_spec::specs::Operators::grouped))]
fn aggregation(
    p: &Plan,
    ids: &Identities,
    h: Operator,
    keys: Run,
    aggregates: Run,
    f: &LogicalFacts,
) -> Result<LogicalFacts, DeriveError>
    ensures { derived result ≡ grouped p.now ids.now h keys aggregates f.now }
{
    if !derive_columns::keys_ok(&p.expressions, &p.items.a, keys) {
        return Err(DeriveError::UnsupportedKey(h));
    }
    let mut t = derive_columns::key_columns(&p.expressions, &columns_in(f), &p.items.a, keys);
    derive_columns::derived_columns(ids, &p.items.a, aggregates, &mut t);
    Ok(facts_with(t, &ConstraintSet::empty()))
}

// ---- operators with two inputs

fn cross_product(
    h: Operator,
    f: &LogicalFacts,
    g: &LogicalFacts,
) -> Result<LogicalFacts, DeriveError>
    ensures { derived result ≡ fitted h (inputs_merged f.now g.now true) }
{
    let mut m = *f;
    logical_facts::inputs_merged(&mut m, g, true).map_err(|e| refused_by(h, e))?;
    Ok(m)
}

#[tactic(auto, unfolding(derive_spec::specs::Operators::given))]
fn inner_join(
    p: &Plan,
    h: Operator,
    on: Expr,
    f: &LogicalFacts,
    g: &LogicalFacts,
) -> Result<LogicalFacts, DeriveError>
    ensures { derived result ≡ given (fitted h (inputs_merged f.now g.now true)) (λ m. fitted h (filtered p.now on m)) }
{
    let m = cross_product(h, f, g)?;
    selection(p, h, on, &m)
}

// Lineage and definitions of both, with the left's constraints. Where no constraints are merged, none are refused.
fn both_columns(f: &LogicalFacts, g: &LogicalFacts) -> LogicalFacts
    ensures { result ≡ (inputs_merged f.now g.now false).facts }
{
    let mut m = *f;
    let _ = logical_facts::inputs_merged(&mut m, g, false);
    m
}

fn left_mark(ids: &Identities, f: &LogicalFacts, marker: Column) -> LogicalFacts
    ensures { result ≡ facts_with (derived_column ids.now (columns_in f.now) marker.0) f.now.constraints }
{
    let mut t = columns_in(f);
    derive_columns::derived_column(ids, &mut t, marker.0);
    facts_with(t, &f.constraints)
}

fn join(
    p: &Plan,
    ids: &Identities,
    h: Operator,
    on: Expr,
    f: &LogicalFacts,
    g: &LogicalFacts,
    how: JoinType,
) -> Result<LogicalFacts, DeriveError>
    ensures { derived result ≡ joined p.now ids.now h on f.now g.now how }
{
    match how {
        JoinType::Inner => inner_join(p, h, on, f, g),
        JoinType::LeftSemi | JoinType::LeftAnti => Ok(*f),
        JoinType::LeftOuter | JoinType::Single => Ok(both_columns(f, g)),
        JoinType::RightOuter => Ok(LogicalFacts {
            constraints: g.constraints,
            ..both_columns(f, g)
        }),
        JoinType::FullOuter => Ok(LogicalFacts {
            constraints: ConstraintSet::empty(),
            ..both_columns(f, g)
        }),
        JoinType::LeftMark(marker) => Ok(left_mark(ids, f, marker)),
    }
}

// ---- an operator, from the answer of its input, or outer input, and of its inner input

// The facts of an input that has some.
fn facts_of(d: &Result<LogicalFacts, DeriveError>) -> Result<&LogicalFacts, DeriveError>
    ensures { MatchResult result (λ f. d.now ≡ Ok f.now) (λ e. d.now ≡ Err e) }
{
    match d {
        Ok(f) => Ok(f),
        Err(e) => Err(*e),
    }
}

#[tactic(auto, unfolding(derive_spec::specs::Operators::given))]
pub fn step(
    p: &Plan,
    ids: &Identities,
    h: Operator,
    op: OperatorData,
    l: &Result<LogicalFacts, DeriveError>,
    r: &Result<LogicalFacts, DeriveError>,
) -> Result<LogicalFacts, DeriveError>
    ensures { derived result ≡ operator_derived p.now ids.now h (derived l.now) (derived r.now) op }
{
    match op {
        OperatorData::Scan { columns, .. } => Ok(scan(p, ids, columns)),
        OperatorData::ConstScan { columns } | OperatorData::TableFunction { columns } => {
            Ok(all_derived(p, ids, columns))
        }
        OperatorData::Selection { predicate, .. } => selection(p, h, predicate, facts_of(l)?),
        OperatorData::Projection { columns, .. } => Ok(projection(p, columns, facts_of(l)?)),
        OperatorData::Rename { defs, .. } => Ok(rename(p, defs, facts_of(l)?)),
        OperatorData::Map { computations, .. } => Ok(map(p, ids, computations, facts_of(l)?)),
        OperatorData::Aggregation {
            keys,
            aggregates,
            ..
        } => aggregation(p, ids, h, keys, aggregates, facts_of(l)?),
        OperatorData::Sort { .. } | OperatorData::Limit { .. } | OperatorData::Output { .. } => *l,
        OperatorData::CrossProduct { .. } => cross_product(h, facts_of(l)?, facts_of(r)?),
        OperatorData::Join { join_type, on, .. } => {
            join(p, ids, h, on, facts_of(l)?, facts_of(r)?, join_type)
        }
    }
}

// The input, or the outer one. An operator without one gets 0, as in the definition: no answer of an input is looked at then.
pub fn outer_of(op: OperatorData) -> u16
    ensures { result ≡ outer_of op }
{
    match op {
        OperatorData::Scan { .. }
        | OperatorData::ConstScan { .. }
        | OperatorData::TableFunction { .. } => 0,
        OperatorData::Selection { input, .. }
        | OperatorData::Projection { input, .. }
        | OperatorData::Rename { input, .. }
        | OperatorData::Map { input, .. }
        | OperatorData::Aggregation { input, .. }
        | OperatorData::Sort { input, .. }
        | OperatorData::Limit { input }
        | OperatorData::Output { input } => input.0,
        OperatorData::CrossProduct { outer, .. } | OperatorData::Join { outer, .. } => outer.0,
    }
}

// The inner input, likewise.
pub fn inner_of(op: OperatorData) -> u16
    ensures { result ≡ inner_of op }
{
    match op {
        OperatorData::CrossProduct { inner, .. } | OperatorData::Join { inner, .. } => inner.0,
        _ => 0,
    }
}
