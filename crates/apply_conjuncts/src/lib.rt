// A list of conjuncts applied to a set where it lies. A set is 9 KB, so it is not handed on for a single conjunct.
#![tactic(auto)]

ghost use Rattle.std.specs.Prelude.{◌≡◌, ◌<◌, true, cond};
ghost use Rattle.constraint_spec.specs.Answers.{applied};
ghost use Rattle.constraint_spec.specs.Sets.{canonical_at, done, add_residual};
ghost use Rattle.plan_data.specs.Nodes.{node_from};
ghost use Rattle.apply_spec.specs.Apply.{conjunct_applied, all_applied};
ghost use Rattle.constraint_set.specs.Checked.{Checked};
ghost use Rattle.apply_action.specs.Actions.{first_of, is_residual, joined_by, recorded_in, Proper};
ghost use Rattle.apply_action.specs.Cells.{Long, cell_of, with_cell};
ghost use Rattle.apply_conjuncts.specs.Knowing.{Knows};

use apply_action::{Action, Cell};
use constraint_spec::{ConstraintError, ConstraintSet};
use plan::Expressions;
use value_classes::Roots;

// What is known of a set while conjuncts are applied to it: the representative of each identity, whether everything stands at the
// representatives, and whether it was checked.
#[derive(Clone, Copy)]
struct Known {
    roots: Roots,
    settled: bool,
    checked: bool,
}

// The handle h kept, where its conjunct is residual.
fn keep(s: &mut ConstraintSet, action: Action, h: u16) -> Result<(), ConstraintError>
    ensures { applied s.new result ≡ cond (is_residual action) (add_residual s.old h) (done s.old) }
{
    if action.is_residual() {
        constraint_set::add_residual(s, h)
    } else {
        Ok(())
    }
}

// ---- what an action records, at the one representative that it is about

// That the set has an entry for each identity is said for those to whom it is lent.
fn cell_of(s: &ConstraintSet, root: usize) -> Cell
    requires { root < 128 }
    ensures cell { result ≡ cell_of s.now root }
    ensures long { Long s.now }
{
    Cell {
        non_null: s.non_null_values[root],
        literal: s.literal_equalities[root],
        entry: s.ranges[root],
        contradictory: s.contradictory,
    }
}

#[tactic(auto, unfolding(apply_action::specs::Cells::with_cell))]
fn put_cell(s: &mut ConstraintSet, root: usize, cell: Cell)
    requires { root < 128 }
    ensures { s.new ≡ with_cell s.old root cell }
{
    s.non_null_values[root] = cell.non_null;
    s.literal_equalities[root] = cell.literal;
    s.ranges[root] = cell.entry;
    s.contradictory = cell.contradictory;
}

// What an action records in a set whose classes are joined for it already, at the representative `root` of its identity. Where the set is known
// to be checked, only that place can have come to be crossed.
#[tactic(auto, using(apply_action::proofs::CellLaws::record_cases))]
fn record(s: &mut ConstraintSet, root: usize, action: Action, checked: bool)
    requires root { root ≡ canonical_at s.old (first_of action) }
    requires root_bound { root < 128 }
    requires proper { Proper action }
    requires checked { checked ≡ true → Checked s.old }
    ensures recorded { s.new ≡ recorded_in action s.old }
    ensures long { Long s.old }
{
    let cell = cell_of(s, root).after(action);
    put_cell(s, root, cell);
    if !checked && action.is_checking() {
        constraint_set::cross_check_literals_and_ranges(s);
    }
}

// ---- one conjunct by itself

// The classes of the identities that are to be in one.
fn join(s: &mut ConstraintSet, action: Action)
    ensures { s.new ≡ joined_by action s.old }
{
    if let Action::Same { left, right, .. } = action {
        constraint_set::union_values(s, left, right);
    }
}

// Parents are followed from its own identities only, so that a pass over all of them is made for the check and no more, unless classes are
// joined.
#[tactic(auto, using(crate::proofs::Steps::one_conjunct))]
pub fn apply_one(
    exprs: &Expressions,
    lineage: &[u8; 64],
    s: &mut ConstraintSet,
    h: u16,
) -> Result<(), ConstraintError>
    ensures { applied s.new result ≡ conjunct_applied lineage.now (node_from exprs.now) s.old h }
{
    let action = apply_action::action_of(exprs, lineage, h);
    join(s, action);
    let root = constraint_set::canonical(s, action.first());
    record(s, root, action, false);
    keep(s, action, h)
}

// ---- one after the other

impl Known {
    // Of a set of which nothing is known yet but its classes.
    fn of(s: &ConstraintSet) -> Known
        ensures { Knows s.now result }
    {
        Known {
            roots: s.equivalence_classes.roots(),
            settled: false,
            checked: false,
        }
    }
}

// The classes of the identities that are to be in one. A join leaves everything at the representatives, if no parent is above its child, and
// what conjuncts record is put there: so the next join changes one place only.
#[tactic(auto, using(crate::proofs::KnownLaws::pair_joined))]
fn join_known(s: &mut ConstraintSet, known: &mut Known, action: Action)
    requires knows { Knows s.old known.old }
    requires proper { Proper action }
    ensures joined { s.new ≡ joined_by action s.old }
    ensures knows { Knows s.new known.new }
{
    let Action::Same { left, right, .. } = action else {
        return;
    };
    if known.roots.of[left] != known.roots.of[right] {
        let settled = constraint_merge::join_values(s, left, right, known.settled);
        *known = Known {
            roots: s.equivalence_classes.roots(),
            settled,
            checked: true,
        };
    }
}

// Representatives are looked up in a table, and where the set was checked once, a change asks for a check of its own place only.
#[tactic(auto, using(crate::proofs::Steps::known_conjunct))]
fn apply_known(
    exprs: &Expressions,
    lineage: &[u8; 64],
    s: &mut ConstraintSet,
    known: &mut Known,
    h: u16,
) -> Result<(), ConstraintError>
    requires { Knows s.old known.old }
    ensures applied { applied s.new result ≡ conjunct_applied lineage.now (node_from exprs.now) s.old h }
    ensures knows { Knows s.new known.new }
{
    let action = apply_action::action_of(exprs, lineage, h);
    join_known(s, known, action);
    let root = usize::from(known.roots.of[action.first()]);
    record(s, root, action, known.checked);
    known.checked |= action.is_checking();
    keep(s, action, h)
}

// It goes on after the flag is set, and ends where a 65th residual is wanted.
#[tactic(auto, using(crate::proofs::Steps::listed_conjuncts))]
fn apply_all(
    exprs: &Expressions,
    lineage: &[u8; 64],
    s: &mut ConstraintSet,
    handles: &[u16],
) -> Result<(), ConstraintError>
    ensures { applied s.new result ≡ all_applied (conjunct_applied lineage.now (node_from exprs.now)) handles.now (done s.old) }
{
    let mut known = Known::of(s);
    for h in handles {
        apply_known(exprs, lineage, s, &mut known, *h)?;
    }
    Ok(())
}

// A table and a check of all places cost three passes over the identities, which three conjuncts or more share; one or two have at most one each
// without a table.
#[tactic(auto, using(crate::proofs::Steps::few_conjuncts))]
pub fn apply_handles(
    exprs: &Expressions,
    lineage: &[u8; 64],
    s: &mut ConstraintSet,
    handles: &[u16],
) -> Result<(), ConstraintError>
    ensures { applied s.new result ≡ all_applied (conjunct_applied lineage.now (node_from exprs.now)) handles.now (done s.old) }
{
    match handles {
        [] => Ok(()),
        [h] => apply_one(exprs, lineage, s, *h),
        [first, second] => {
            apply_one(exprs, lineage, s, *first)?;
            apply_one(exprs, lineage, s, *second)
        }
        _ => apply_all(exprs, lineage, s, handles),
    }
}
