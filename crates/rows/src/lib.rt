// Rows and truth: the value of an expression on a row, by SQL's three truth values.
#![tactic(auto)]

ghost use Rattle.std.specs.Prelude.{◌≡◌, ◌<◌, get_or};
ghost use Rattle.std.specs.List.{list_all};
ghost use Rattle.lists.specs.Ranges.{all_from};
ghost use Rattle.plan_data.specs.Nodes.{node_at, operands_of};
ghost use Rattle.rows_spec.specs.Compare.{known, compared, compare_of, truth_of, of_truth};
ghost use Rattle.rows_spec.specs.Values.{unary_of, none_of, join_of, nary_of, truths, value_in, values};
ghost use Rattle.rows_spec.specs.Typing.{kind_at, boolean_at, unary_typed, flagged, wanted, node_typed, typed_at};
ghost use Rattle.rows_spec.specs.Cells as Cells;
ghost use Rattle.rows_spec.specs.Cells.{cell_in, cell_at, cell_ok, row_ok};
ghost use Rattle.rows_spec.specs.Evaluate.{value_on, typed, evaluate_of};

use comparison::BinaryOp;
use plan::{Expr, Items, Plan};
use plan_data::{ExprData, NaryOp, Run, UnaryOp};
use plan_kinds::Record;
use rows_spec::{Cell, EvaluationError, Row};
use scalar::{Kind, ScalarValue};

// TRUE and FALSE of a test.
fn known(b: bool) -> u8
    ensures { result ≡ known b }
{
    if b { truth::TRUE } else { truth::FALSE }
}

// Two values of one kind, neither of them NULL.
fn compared(op: BinaryOp, v: ScalarValue, w: ScalarValue) -> bool
    ensures { result ≡ compared op v w }
{
    match op {
        BinaryOp::Eq | BinaryOp::IsNotDistinctFrom => scalar::equal(v, w),
        BinaryOp::NotEq => !scalar::equal(v, w),
        BinaryOp::Lt => v.is_below(w),
        BinaryOp::LtEq => v.is_below(w) || scalar::equal(v, w),
        BinaryOp::Gt => w.is_below(v),
        BinaryOp::GtEq => w.is_below(v) || scalar::equal(v, w),
    }
}

// The truth of a comparison.
#[tactic(auto, unfolding(rows_spec::specs::Compare::compare_of))]
pub fn compare(op: BinaryOp, v: ScalarValue, w: ScalarValue) -> u8
    ensures { result ≡ compare_of op v w }
{
    if v.is_null() || w.is_null() {
        if op.is_ordinary() {
            truth::UNKNOWN
        } else {
            known(v.is_null() && w.is_null())
        }
    } else if scalar::same_kind(v.kind(), w.kind()) {
        known(compared(op, v, w))
    } else if op.is_ordinary() {
        truth::UNKNOWN
    } else {
        truth::FALSE
    }
}

// The truth of a value: what is no Boolean is UNKNOWN.
pub fn truth_of(v: ScalarValue) -> u8
    ensures { result ≡ truth_of v }
{
    match v {
        ScalarValue::Boolean(b) => known(b),
        _ => truth::UNKNOWN,
    }
}

// The value of a truth: UNKNOWN is the NULL of Boolean.
pub fn of_truth(t: u8) -> ScalarValue
    ensures { result ≡ of_truth t }
{
    match t {
        truth::FALSE => ScalarValue::Boolean(false),
        truth::TRUE => ScalarValue::Boolean(true),
        _ => ScalarValue::Null(Kind::Boolean),
    }
}

// A unary operation on the value of its operand.
fn unary(op: UnaryOp, v: ScalarValue) -> ScalarValue
    ensures { result ≡ unary_of op v }
{
    match op {
        UnaryOp::Not => of_truth(truth::not3(truth_of(v))),
        UnaryOp::IsNull => ScalarValue::Boolean(v.is_null()),
        UnaryOp::IsNotNull => ScalarValue::Boolean(!v.is_null()),
        UnaryOp::Negate => ScalarValue::Null(Kind::Boolean),
    }
}

// And of nothing is TRUE, Or of nothing FALSE.
fn none_of(op: NaryOp) -> u8
    ensures { result ≡ none_of op }
{
    match op {
        NaryOp::And => truth::TRUE,
        NaryOp::Or => truth::FALSE,
    }
}

// And or Or of two truths.
fn join(op: NaryOp, x: u8, y: u8) -> u8
    ensures { result ≡ join_of op x y }
{
    match op {
        NaryOp::And => truth::and3(x, y),
        NaryOp::Or => truth::or3(x, y),
    }
}

// The value of three numbers.
fn value(cell: Cell) -> ScalarValue
    ensures { result ≡ Cells.value_of cell }
{
    scalar::scalar_of(cell.case, cell.code, cell.bits)
}

// The cell of a column: past the last one stand zeros.
fn cell_in(row: &Row, c: usize) -> Cell
    ensures { result ≡ cell_in row.now c }
{
    let zeros = Cell {
        case: 0,
        code: 0,
        bits: 0,
    };
    lists::at(&row.cells, c, zeros)
}

// The operands of an And or an Or: what of its run lies in the item table.
fn operands(items: &Items, r: Run) -> &[u16]
    ensures { result.now ≡ operands_of items.now.a r }
{
    let rest = &items.a[r.start.min(items.a.len())..];
    &rest[..r.count.min(rest.len())]
}

// The value of the expression h, where it stands below `below`: the node whose operand it is. An operand that does not is NULL.
#[cycle(value_of_value_of_run)]
#[tactic(auto, using(rows_spec::proofs::ValueLaws::node_values))]
fn value_of(p: &Plan, row: &Row, below: usize, h: usize) -> ScalarValue
    ensures { result ≡ value_in (values (cell_at row.now) (node_at p.now) p.now.items.a below) h }
{
    if below <= h {
        return ScalarValue::Null(Kind::Boolean);
    }
    match plan_data::node_at(&p.expressions, h) {
        ExprData::Literal(v) => v,
        ExprData::ColumnRef(c) => value(cell_in(row, usize::from(c.0))),
        ExprData::Unary { op, expr } => unary(op, value_of(p, row, h, usize::from(expr.0))),
        ExprData::Binary { op, left, right } => {
            let v = value_of(p, row, h, usize::from(left.0));
            let w = value_of(p, row, h, usize::from(right.0));
            of_truth(compare(op, v, w))
        }
        ExprData::Nary { op, exprs } => of_truth(value_of_run(p, row, h, op, exprs)),
    }
}

// The truth of a run of operands, of a node at `below`. A loop, so that a long run takes no more stack than a short one.
#[cycle(value_of_value_of_run)]
#[tactic(auto, using(rows_spec::proofs::ValueLaws::nary_loop))]
fn value_of_run(p: &Plan, row: &Row, below: usize, op: NaryOp, r: Run) -> u8
    ensures { result ≡ nary_of op
        (truths (value_in (values (cell_at row.now) (node_at p.now) p.now.items.a below)) (operands_of p.now.items.a r)) }
{
    let mut t = none_of(op);
    for e in operands(&p.items, r) {
        t = join(op, t, truth_of(value_of(p, row, below, usize::from(*e))));
    }
    t
}

// The kind of an expression: its literal's or its column's, else Boolean.
fn kind_at(p: &Plan, e: Expr) -> Kind
    ensures { result ≡ kind_at p.now.columns.kind (node_at p.now) e.0 }
{
    match plan_data::node_at(&p.expressions, usize::from(e.0)) {
        ExprData::Literal(v) => v.kind(),
        ExprData::ColumnRef(c) => Kind::from(lists::at(&p.columns.kind, usize::from(c.0), 0)),
        _ => Kind::Boolean,
    }
}

// Whether an expression is of kind Boolean.
fn boolean_at(p: &Plan, e: Expr) -> bool
    ensures { result ≡ boolean_at p.now.columns.kind (node_at p.now) e.0 }
{
    scalar::same_kind(kind_at(p, e), Kind::Boolean)
}

// Whether a unary operation takes an operand that is typed or not, and Boolean or not.
fn unary_typed(op: UnaryOp, typed: bool, boolean: bool) -> bool
    ensures { result ≡ unary_typed op typed boolean }
{
    match op {
        UnaryOp::Not => typed && boolean,
        UnaryOp::IsNull | UnaryOp::IsNotNull => typed,
        UnaryOp::Negate => false,
    }
}

// Whether an expression is typed, by the flags of those that a pass has come to; past their end none is.
fn flagged(flags: &[bool], e: Expr) -> bool
    ensures { result ≡ flagged flags.now e.0 }
{
    lists::at(flags, usize::from(e.0), false)
}

// Whether an expression can be an operand of And or Or: typed, which its flag says, and Boolean.
fn wanted(p: &Plan, flags: &[bool], e: Expr) -> bool
    ensures { result ≡ wanted (flagged flags.now) (boolean_at p.now.columns.kind (node_at p.now)) e.0 }
{
    flagged(flags, e) && boolean_at(p, e)
}

// Whether every operand of a list can.
fn all_wanted(p: &Plan, flags: &[bool], r: Run) -> bool
    ensures { result ≡ list_all (wanted (flagged flags.now) (boolean_at p.now.columns.kind (node_at p.now))) (operands_of p.now.items.a r) }
{
    operands(&p.items, r)
        .iter()
        .all(|e| wanted(p, flags, Expr(*e)))
}

// Whether the expression at h is typed, by the flags of those before it.
#[tactic(auto, using(truth::proofs::TruthLaws::every_all))]
fn node_typed(p: &Plan, flags: &[bool], h: usize) -> bool
    ensures { result ≡ node_typed (flagged flags.now) (boolean_at p.now.columns.kind (node_at p.now)) (operands_of p.now.items.a) (node_at p.now h) }
{
    match plan_data::node_at(&p.expressions, h) {
        ExprData::Literal(_) | ExprData::ColumnRef(_) => true,
        ExprData::Unary { op, expr } => unary_typed(op, flagged(flags, expr), boolean_at(p, expr)),
        ExprData::Binary { left, right, .. } => flagged(flags, left) && flagged(flags, right),
        ExprData::Nary { exprs, .. } => all_wanted(p, flags, exprs),
    }
}

// Whether the expression at h is typed. One pass in handle order flags each expression before it.
fn typed_at(p: &Plan, h: usize) -> bool
    requires { h < 1024 }
    ensures { result ≡ typed_at p.now.columns.kind (node_at p.now) p.now.items.a h }
{
    let mut flags = [false; 1024];
    for i in 0..h {
        flags[i] = node_typed(p, &flags, i);
    }
    node_typed(p, &flags, h)
}

// Whether three numbers are a literal that is listed, NULL or of the kind k.
#[tactic(auto, unfolding(rows_spec::specs::Cells::cell_ok, rows_spec::specs::Cells::listed_literal))]
fn cell_ok(k: u8, cell: Cell) -> bool
    ensures { result ≡ cell_ok k cell }
{
    let row = plan_kinds::row_of(cell.case);
    let x = Record {
        kind: cell.case,
        code: cell.code,
        a: 0,
        b: 0,
        c: 0,
        d: 0,
        bits: cell.bits,
    };
    let v = value(cell);
    matches!(cell.case, 0x10..=0x15)
        && plan_kinds::code_ok(row, x)
        && plan_kinds::bits_ok(row, x)
        && (v.is_null() || scalar::same_kind(v.kind(), Kind::from(k)))
}

// Whether a row has a value for every column of a plan, used or not.
#[tactic(auto, using(lists::proofs::RangeLaws::all_loop))]
pub fn row_ok(p: &Plan, row: &Row) -> bool
    ensures { result ≡ row_ok p.now row.now }
{
    for i in 0..usize::from(p.columns.count) {
        if !cell_ok(lists::at(&p.columns.kind, i, 0), cell_in(row, i)) {
            return false;
        }
    }
    true
}

// Whether an expression of a plan is typed, and the whole Boolean.
fn typed(p: &Plan, e: Expr) -> bool
    requires { e.0 < 1024 }
    ensures { result ≡ typed p.now e.0 }
{
    boolean_at(p, e) && typed_at(p, usize::from(e.0))
}

// The value of an expression of a plan on a row.
fn value_on(p: &Plan, e: Expr, row: &Row) -> ScalarValue
    ensures { result ≡ value_on p.now row.now e.0 }
{
    let h = usize::from(e.0);
    value_of(p, row, h + 1, h)
}

// The value of an expression of a plan on a row; or NoSuch, Untyped or BadRow, tested in that order.
#[tactic(auto, using(rows_spec::proofs::FewExpressions::few_exprs), unfolding(rows_spec::specs::Evaluate::evaluate_of))]
pub fn evaluate(p: &Plan, e: Expr, row: &Row) -> Result<ScalarValue, EvaluationError>
    ensures { result ≡ evaluate_of p.now e row.now }
{
    if !plan_rules::plan_ok(p) || p.expressions.count <= e.0 {
        return Err(EvaluationError::NoSuch);
    }
    if !typed(p, e) {
        return Err(EvaluationError::Untyped);
    }
    if !row_ok(p, row) {
        return Err(EvaluationError::BadRow);
    }
    Ok(value_on(p, e, row))
}
