// What one conjunct of a predicate records, after the arms of the Rust's `apply_predicate`, in two halves: which action it is, read out of the
// plan without a set, and what that makes of a set at the one representative that it is about.
#![tactic(auto)]

ghost use Rattle.std.specs.Prelude.{◌≡◌, ◌<◌, true};
ghost use Rattle.constraint_spec.specs.Sets.{canonical_at};
ghost use Rattle.constraint_set.specs.Checked.{Checked};
ghost use Rattle.plan_data.specs.Nodes.{node_from};
ghost use Rattle.apply_spec.specs.Apply.{seen_of, is_null_literal};
ghost use Rattle.apply_action.specs.Actions.{same_action, pair_action, range_action, literal_action, bound_action, reversed_action, operands_action};
ghost use Rattle.apply_action.specs.Actions.{comparison_action, constant_action, action_of, first_of, is_checking, is_residual, recorded_in, Proper};
ghost use Rattle.apply_action.specs.Cells.{Long, cell_of, with_cell, literal_cell, bound_cell, entry_cell, cell_after, record_at};

use apply_spec::Seen;
use comparison::BinaryOp;
use constraint_spec::{ConstraintSet, Entry, Holder};
use plan::{Column, Expressions};
use plan_data::ExprData;
use scalar::ScalarValue;

// What a conjunct asks: nothing, the flag, to be kept as a residual, two identities in one class (not NULL where the flag says so), a literal,
// a bound, or an entry without a bound and a residual.
#[derive(Clone, Copy)]
pub enum Action {
    Nothing,
    Contradiction,
    Residual,
    Same {
        left: usize,
        right: usize,
        non_null: bool,
    },
    Literal(usize, ScalarValue),
    Bound(usize, BinaryOp, f64),
    Entry(usize),
}

// What is recorded of one representative, and the flag of the set.
#[derive(Clone, Copy)]
pub struct Cell {
    pub non_null: bool,
    pub literal: Holder,
    pub entry: Entry,
    pub contradictory: bool,
}

// ---- what an operand of a comparison is

fn column_seen(lineage: &[u8; 64], column: Column) -> Seen
    ensures { result ≡ seen_of lineage.now (ExprData.ColumnRef column) }
{
    match lists::at(lineage, usize::from(column.0), 0) {
        0 => Seen::Unseen,
        value => Seen::Identity(usize::from(value) - 1),
    }
}

fn seen(lineage: &[u8; 64], node: ExprData) -> Seen
    ensures { result ≡ seen_of lineage.now node }
{
    match node {
        ExprData::Literal(v) => Seen::Constant(v),
        ExprData::ColumnRef(column) => column_seen(lineage, column),
        _ => Seen::Unseen,
    }
}

fn is_null_literal(x: Seen) -> bool
    ensures { result ≡ is_null_literal x }
{
    match x {
        Seen::Constant(v) => v.is_null(),
        _ => false,
    }
}

// ---- which action a conjunct is

// Two columns with lineage are equal: their classes are one, and under the ordinary equality they are not NULL.
#[tactic(auto, unfolding(crate::specs::Actions::same_action))]
fn same(left: usize, right: usize, non_null: bool) -> Action
    ensures { result ≡ same_action left right non_null }
{
    if 128 <= left {
        Action::Nothing
    } else {
        Action::Same {
            left,
            right: if right < 128 { right } else { left },
            non_null,
        }
    }
}

// Two columns with lineage.
fn pair_action(op: BinaryOp, left: usize, right: usize) -> Action
    ensures { result ≡ pair_action op left right }
{
    match op {
        BinaryOp::Eq => same(left, right, true),
        BinaryOp::IsNotDistinctFrom => same(left, right, false),
        _ => Action::Residual,
    }
}

// A comparison that bounds is recorded, any other with a number makes an entry and is residual.
#[tactic(auto, unfolding(crate::specs::Actions::bounded_by))]
fn range_action(op: BinaryOp, value: usize, literal: ScalarValue) -> Action
    ensures { result ≡ range_action op value literal }
{
    let Some(x) = scalar::scalar_to_f64(literal) else {
        return Action::Residual;
    };
    match (op.is_bounding(), value < 128) {
        (true, true) => Action::Bound(value, op, x),
        (true, false) => Action::Nothing,
        (false, true) => Action::Entry(value),
        (false, false) => Action::Residual,
    }
}

#[tactic(auto, unfolding(crate::specs::Actions::literal_action))]
fn literal_action(value: usize, literal: ScalarValue) -> Action
    ensures { result ≡ literal_action value literal }
{
    if 128 <= value {
        Action::Nothing
    } else if literal.is_null() {
        Action::Contradiction
    } else {
        Action::Literal(value, literal)
    }
}

// A column with lineage on the left of a literal.
fn bound_action(op: BinaryOp, value: usize, literal: ScalarValue) -> Action
    ensures { result ≡ bound_action op value literal }
{
    match op {
        BinaryOp::Eq => literal_action(value, literal),
        _ => range_action(op, value, literal),
    }
}

// And on its right: only the four that bound are turned round.
fn reversed_action(op: BinaryOp, value: usize, literal: ScalarValue) -> Action
    ensures { result ≡ reversed_action op value literal }
{
    match op {
        BinaryOp::Eq => literal_action(value, literal),
        BinaryOp::NotEq | BinaryOp::IsNotDistinctFrom => Action::Residual,
        _ => range_action(op.reversed(), value, literal),
    }
}

fn operands_action(op: BinaryOp, l: Seen, r: Seen) -> Action
    ensures { result ≡ operands_action op l r }
{
    match (l, r) {
        (Seen::Identity(left), Seen::Identity(right)) => pair_action(op, left, right),
        (Seen::Identity(value), Seen::Constant(literal)) => bound_action(op, value, literal),
        (Seen::Constant(literal), Seen::Identity(value)) => reversed_action(op, value, literal),
        _ => Action::Residual,
    }
}

// One of the six ordinary comparisons with a NULL literal never is TRUE.
#[tactic(auto, unfolding(apply_spec::specs::Apply::comparison_by))]
fn comparison_action(op: BinaryOp, l: Seen, r: Seen) -> Action
    ensures { result ≡ comparison_action op l r }
{
    if op.is_ordinary() && (is_null_literal(l) || is_null_literal(r)) {
        Action::Contradiction
    } else {
        operands_action(op, l, r)
    }
}

// A literal as a predicate.
fn constant_action(v: ScalarValue) -> Action
    ensures { result ≡ constant_action v }
{
    match v {
        ScalarValue::Null(_) | ScalarValue::Boolean(false) => Action::Contradiction,
        ScalarValue::Boolean(true) => Action::Nothing,
        _ => Action::Residual,
    }
}

// The conjunct h.
#[tactic(auto, unfolding(crate::specs::Actions::action_of))]
pub fn action_of(exprs: &Expressions, lineage: &[u8; 64], h: u16) -> Action
    ensures { result ≡ action_of lineage.now (node_from exprs.now) h }
{
    match plan_data::node_at(exprs, usize::from(h)) {
        ExprData::Literal(v) => constant_action(v),
        ExprData::Binary { op, left, right } => {
            let l = seen(lineage, plan_data::node_at(exprs, usize::from(left.0)));
            let r = seen(lineage, plan_data::node_at(exprs, usize::from(right.0)));
            comparison_action(op, l, r)
        }
        _ => Action::Residual,
    }
}

// ---- what an action is about

impl Action {
    // The identity that it is about; 0 where there is none.
    #[tactic(auto, using(crate::proofs::CellLaws::first_small))]
    pub fn first(self) -> usize
        ensures value { result ≡ first_of self }
        ensures small { Proper self → result < 128 }
    {
        match self {
            Action::Same { left, .. } => left,
            Action::Literal(value, _) | Action::Bound(value, _, _) | Action::Entry(value) => value,
            Action::Nothing | Action::Contradiction | Action::Residual => 0,
        }
    }

    // Whether literals are held against ranges after it.
    pub fn is_checking(self) -> bool
        ensures { result ≡ is_checking self }
    {
        matches!(self, Action::Literal(_, _) | Action::Bound(_, _, _))
    }

    // Whether the conjunct is residual.
    pub fn is_residual(self) -> bool
        ensures { result ≡ is_residual self }
    {
        matches!(self, Action::Residual | Action::Entry(_))
    }
}

// ---- what it makes of a representative

impl Cell {
    fn of(s: &ConstraintSet, root: usize) -> Cell
        requires { root < 128 }
        ensures cell { result ≡ cell_of s.now root }
        ensures long { Long s.now }
    {
        Cell {
            non_null: s.non_null_values[root],
            literal: s.literal_equalities[root],
            entry: s.ranges[root],
            contradictory: s.contradictory,
        }
    }

    #[tactic(auto, unfolding(crate::specs::Cells::with_cell))]
    fn put(self, s: &mut ConstraintSet, root: usize)
        requires { root < 128 }
        ensures { s.new ≡ with_cell s.old root self }
    {
        s.non_null_values[root] = self.non_null;
        s.literal_equalities[root] = self.literal;
        s.ranges[root] = self.entry;
        s.contradictory = self.contradictory;
    }

    #[tactic(auto, unfolding(crate::specs::Cells::literal_cell))]
    fn with_literal(self, value: ScalarValue) -> Cell
        ensures { result ≡ literal_cell self value }
    {
        let clash = constraint_set::literal_clashes(self.literal, value);
        let literal = constraint_set::literal_kept(clash, self.literal, value);
        Cell {
            non_null: true,
            literal,
            entry: self.entry,
            contradictory: self.contradictory
                || clash
                || constraint_set::is_crossed(literal, self.entry),
        }
    }

    #[tactic(auto, unfolding(crate::specs::Cells::bound_cell))]
    fn with_bound(self, op: BinaryOp, x: f64) -> Cell
        ensures { result ≡ bound_cell self op x }
    {
        let range = constraint_set::tightened(self.entry, constraint_set::bounds_by(op, x));
        let entry = constraint_set::entry_of(range);
        Cell {
            non_null: true,
            literal: self.literal,
            entry,
            contradictory: self.contradictory
                || range.is_empty()
                || constraint_set::is_crossed(self.literal, entry),
        }
    }

    #[tactic(auto, unfolding(crate::specs::Cells::entry_cell))]
    fn with_entry(self) -> Cell
        ensures { result ≡ entry_cell self }
    {
        Cell {
            non_null: true,
            entry: constraint_set::entry_of(constraint_set::range_in(self.entry)),
            ..self
        }
    }

    pub fn after(self, action: Action) -> Cell
        ensures { result ≡ cell_after self action }
    {
        match action {
            Action::Nothing
            | Action::Residual
            | Action::Same {
                non_null: false,
                ..
            } => self,
            Action::Contradiction => Cell {
                contradictory: true,
                ..self
            },
            Action::Same { non_null: true, .. } => Cell {
                non_null: true,
                ..self
            },
            Action::Literal(_, value) => self.with_literal(value),
            Action::Bound(_, op, x) => self.with_bound(op, x),
            Action::Entry(_) => self.with_entry(),
        }
    }
}

// What an action records in a set whose classes are joined for it already, at the representative `root` of its identity. Where the set is known
// to be checked, only that place can have come to be crossed. That is `recorded`, of a caller who knows so much; `told` says what is written at any
// place for any action, and `long` that a set has an entry for each identity, to those who ask at one.
#[tactic(auto, using(crate::proofs::CellLaws::record_cases), unfolding(crate::specs::Cells::record_at))]
pub fn record(s: &mut ConstraintSet, root: usize, action: Action, checked: bool)
    ensures told { s.new ≡ record_at checked action root s.old }
    ensures recorded { root ≡ canonical_at s.old (first_of action) → root < 128 → Proper action → (checked ≡ true → Checked s.old)
        → s.new ≡ recorded_in action s.old }
    ensures long { root < 128 → Long s.old }
{
    if ConstraintSet::IDENTITIES <= root {
        return;
    }
    Cell::of(s, root).after(action).put(s, root);
    if !checked && action.is_checking() {
        constraint_set::cross_check_literals_and_ranges(s);
    }
}
