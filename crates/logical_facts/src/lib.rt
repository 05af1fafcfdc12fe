// The rules of facts, and the facts of two inputs merged, after the Rust's `merge_inputs`. Facts are lent and changed where they lie; what is
// passed in from outside is tested first.
#![tactic(auto)]

ghost use Rattle.std.specs.Prelude.{◌≡◌};
ghost use Rattle.lists.specs.Ranges.{all_from};
ghost use Rattle.apply_spec.specs.Facts.{lineage_ok, definition_ok, residual_ok, facts_ok};
ghost use Rattle.apply_spec.specs.Entries.{overlaid, inputs_merged, merge_inputs};
ghost use Rattle.apply_spec.specs.Told.{told};
ghost use Rattle.logical_facts.specs.Columns.{value_for_column, canonical_value_for_column};

use apply_spec::{FactsError, LogicalFacts};
use constraint_spec::ConstraintSet;
use plan::{Column, Plan};

// ---- the rules of facts that come from outside

// Column c has no identity, or one of the plan's; a column that the plan lacks has none.
#[tactic(auto, unfolding(apply_spec::specs::Facts::lineage_ok))]
fn lineage_ok(lineage: &[u8], columns: u16, c: usize) -> bool
    ensures { result ≡ lineage_ok lineage.now columns c }
{
    let n = usize::from(columns);
    match usize::from(lists::at(lineage, c, 0)) {
        0 => true,
        v => c < n && (v - 1 < n || (64 <= v - 1 && v - 1 < 64 + n)),
    }
}

#[tactic(auto, using(lists::proofs::RangeLaws::all_loop))]
fn lineages_ok(lineage: &[u8], columns: u16) -> bool
    ensures { result ≡ all_from (lineage_ok lineage.now columns) 0 64 }
{
    for c in 0..64 {
        if !lineage_ok(lineage, columns, c) {
            return false;
        }
    }
    true
}

// The definition of column c is an expression of the plan, if there is one.
#[tactic(auto, unfolding(apply_spec::specs::Facts::definition_ok))]
fn definition_ok(definitions: &[u16], columns: u16, exprs: u16, c: usize) -> bool
    ensures { result ≡ definition_ok definitions.now columns exprs c }
{
    let v = lists::at(definitions, c, 0);
    v == 0 || (c < usize::from(columns) && v <= exprs)
}

#[tactic(auto, using(lists::proofs::RangeLaws::all_loop))]
fn definitions_ok(definitions: &[u16], columns: u16, exprs: u16) -> bool
    ensures { result ≡ all_from (definition_ok definitions.now columns exprs) 0 64 }
{
    for c in 0..64 {
        if !definition_ok(definitions, columns, exprs, c) {
            return false;
        }
    }
    true
}

#[tactic(auto, using(lists::proofs::RangeLaws::all_loop))]
fn residuals_ok(s: &ConstraintSet, exprs: u16) -> bool
    ensures { result ≡ all_from (residual_ok s.now exprs) 0 s.now.residuals }
{
    for k in 0..s.residuals {
        if exprs <= lists::at(&s.residual_predicates, k, 0) {
            return false;
        }
    }
    true
}

#[tactic(auto, unfolding(apply_spec::specs::Facts::facts_ok))]
pub fn facts_ok(p: &Plan, f: &LogicalFacts) -> bool
    ensures { result ≡ facts_ok p.now f.now }
{
    lineages_ok(&f.lineage, p.columns.count)
        && definitions_ok(&f.definitions, p.columns.count, p.expressions.count)
        && constraint_set::set_ok(&f.constraints)
        && residuals_ok(&f.constraints, p.expressions.count)
}

// ---- the public entries

// What the right has of a column stands.
#[tactic(auto, using(crate::proofs::Overriding::override_loop))]
fn override_columns(left: &mut LogicalFacts, right: &LogicalFacts)
    ensures { left.new ≡ overlaid left.old right.now left.old.constraints }
{
    for c in 0..64 {
        if right.lineage[c] != 0 {
            left.lineage[c] = right.lineage[c];
        }
        if right.definitions[c] != 0 {
            left.definitions[c] = right.definitions[c];
        }
    }
}

// The facts of two inputs as one, without the tests: the constraints of both, or the left's. A refusal leaves the left as it was.
#[tactic(auto, unfolding(apply_spec::specs::Entries::inputs_merged, constraint_spec::specs::Sets::merge_from))]
pub fn inputs_merged(
    left: &mut LogicalFacts,
    right: &LogicalFacts,
    merge: bool,
) -> Result<(), FactsError>
    ensures { told left.new result ≡ inputs_merged left.old right.now merge }
{
    if merge {
        constraint_merge::merge_from(&mut left.constraints, &right.constraints)?;
    }
    override_columns(left, right);
    Ok(())
}

#[tactic(auto, unfolding(apply_spec::specs::Entries::merge_inputs))]
pub fn merge_inputs(
    p: &Plan,
    left: &mut LogicalFacts,
    right: &LogicalFacts,
    merge: bool,
) -> Result<(), FactsError>
    ensures { told left.new result ≡ merge_inputs p.now left.old right.now merge }
{
    if !plan_rules::plan_ok(p) || !facts_ok(p, left) || !facts_ok(p, right) {
        return Err(FactsError::NoSuch);
    }
    inputs_merged(left, right, merge)
}

// The identity of a column, if it has one.
#[tactic(auto, unfolding(crate::specs::Columns::value_for_column))]
pub fn value_for_column(f: &LogicalFacts, column: Column) -> Option<usize>
    ensures { result ≡ value_for_column f.now column }
{
    match lists::at(&f.lineage, usize::from(column.0), 0) {
        0 => None,
        v => Some(usize::from(v) - 1),
    }
}

#[tactic(auto, unfolding(crate::specs::Columns::value_for_column, crate::specs::Columns::canonical_value_for_column))]
pub fn canonical_value_for_column(f: &LogicalFacts, column: Column) -> Option<usize>
    ensures { result ≡ canonical_value_for_column f.now column }
{
    let value = value_for_column(f, column)?;
    Some(constraint_set::canonical(&f.constraints, value))
}
