// Simplifying one expression, after the Rust's ExprSimplify.
#![tactic(auto)]

ghost use Rattle.std.specs.Prelude.{◌≡◌, true, false, ◌+◌, ◌<◌};
ghost use Rattle.plan_data.specs.Nodes.{record_of_expr};
ghost use Rattle.simplify_spec.specs.Shapes.{nary_op_for};
ghost use Rattle.simplify_spec.specs.Answers.{simplified};
ghost use Rattle.simplify_spec.specs.OneExpression.{shape_in, kept, add_record, add_node, add_literal, took, not_of};
ghost use Rattle.simplify_spec.specs.OneExpression.{enter_of, operands_from, nary_of, simplify_at};
ghost use Rattle.simplify_expr.specs.Passage.{next_tally, passed, settled, placed, with_operand, node_of};

use plan::{AppendError, Expr, Plan};
use plan_data::{ExprData, NaryOp, Run, UnaryOp};
use scalar::ScalarValue;
use simplify_spec::{Shape, Tables};

// The operands of an And or Or that are done: how many are kept, the last of those, whether one was dropped or changed, whether one decides.
#[derive(Clone, Copy, Default)]
struct Tally {
    kept: u16,
    last: u16,
    dirty: bool,
    absorbed: bool,
}

// What an And or Or becomes by its operands: it stays, or a literal, one operand or a node with a new list stands for it.
#[derive(Clone, Copy)]
enum Became {
    Same,
    Literal(bool),
    One(u16),
    Listed { start: u16, count: u16 },
}

// What the expression h is.
fn shape_in(t: &Tables, h: u16) -> Shape
    ensures { result ≡ shape_in t.now h }
{
    simplify_shape::shape_at(&t.exprs, usize::from(h))
}

// Appends a node whose list, if it has one, starts at an item.
#[tactic(auto, unfolding(plan_append::specs::Appending::expr_added))]
fn add_record(t: &mut Tables, d: ExprData, first: u16) -> Result<u16, AppendError>
    ensures { simplified t.new result ≡ add_record t.old (record_of_expr d) first }
{
    let h = plan_append::add_node(&mut t.exprs, d, first)?;
    t.changed = true;
    Ok(h)
}

fn add_node(t: &mut Tables, d: ExprData) -> Result<u16, AppendError>
    ensures { simplified t.new result ≡ add_node t.old d }
{
    let first = t.items.count;
    add_record(t, d, first)
}

fn add_literal(t: &mut Tables, v: bool) -> Result<u16, AppendError>
    ensures { simplified t.new result ≡ add_literal t.old v }
{
    add_node(t, ExprData::Literal(ScalarValue::Boolean(v)))
}

// Not of i, which e became, where h is Not of e.
#[tactic(auto, unfolding(simplify_spec::specs::OneExpression::not_of))]
fn not_of(t: &mut Tables, i: u16, e: u16, h: u16) -> Result<u16, AppendError>
    ensures { simplified t.new result ≡ not_of h e (kept t.old i) }
{
    match shape_in(t, i) {
        Shape::Boolean(v) => add_literal(t, !v),
        Shape::Not(x) => {
            t.changed = true;
            Ok(x.0)
        }
        _ if i == e => Ok(h),
        _ => add_node(
            t,
            ExprData::Unary {
                op: UnaryOp::Not,
                expr: Expr(i),
            },
        ),
    }
}

impl Tally {
    // One operand more: e, which became v.
    fn with(mut self, e: u16, v: u16, neutral: bool, deciding: bool) -> Tally
        requires { self.kept < 65535 }
        ensures { result ≡ next_tally self e v neutral deciding }
    {
        self.absorbed |= deciding;
        self.dirty |= neutral || v != e;
        if !neutral {
            self.kept += 1;
            self.last = v;
        }
        self
    }
}

// What an And (all is true) or Or becomes, all operands being done: `match kept.len()`. A list that it needs has its room then, and no operands yet.
#[tactic(auto, unfolding(crate::specs::Passage::settled))]
fn settle(t: &mut Tables, all: bool, tally: Tally) -> Result<Became, AppendError>
    ensures { passed t.new result ≡ settled all t.old tally }
{
    if tally.absorbed {
        return Ok(Became::Literal(!all));
    }
    if !tally.dirty {
        return Ok(Became::Same);
    }
    match tally.kept {
        0 => Ok(Became::Literal(all)),
        1 => Ok(Became::One(tally.last)),
        count => {
            let start = t.items.count;
            if usize::from(Plan::ITEMS) < usize::from(start) + usize::from(count) {
                return Err(AppendError::Room);
            }
            t.items.count += count;
            Ok(Became::Listed { start, count })
        }
    }
}

// The node h, an And or Or, by what it becomes.
fn node_of(t: &mut Tables, h: u16, all: bool, became: Became) -> Result<u16, AppendError>
    ensures { simplified t.new result ≡ node_of all h t.old became }
{
    match became {
        Became::Same => Ok(h),
        Became::Literal(v) => add_literal(t, v),
        Became::One(v) => {
            t.changed = true;
            Ok(v)
        }
        Became::Listed { start, count } => {
            let exprs = Run {
                start: usize::from(start),
                count: usize::from(count),
            };
            add_record(
                t,
                ExprData::Nary {
                    op: nary_op_for(all),
                    exprs,
                },
                start,
            )
        }
    }
}

fn nary_op_for(all: bool) -> NaryOp
    ensures { result ≡ nary_op_for all }
{
    if all { NaryOp::And } else { NaryOp::Or }
}

// Simplifies the operand e of h, or the expression e of tables in which there are h. Handles fall on the way down.
#[tactic(auto, using(simplify_spec::proofs::StepLaws::simplify_step))]
#[cycle(simplify_expr)]
pub fn simplify_in(t: &mut Tables, e: u16, h: u16) -> Result<u16, AppendError>
    ensures { simplified t.new result ≡ enter_of simplify_at h true t.old e }
{
    if h <= e {
        return Ok(e);
    }
    match shape_in(t, e) {
        Shape::Boolean(_) | Shape::Other => Ok(e),
        Shape::Not(x) => {
            let i = simplify_in(t, x.0, e)?;
            not_of(t, i, x.0, e)
        }
        Shape::Compare { op, left, right } => {
            let l = simplify_in(t, left.0, e)?;
            let r = simplify_in(t, right.0, e)?;
            if l == left.0 && r == right.0 {
                return Ok(e);
            }
            add_node(
                t,
                ExprData::Binary {
                    op,
                    left: Expr(l),
                    right: Expr(r),
                },
            )
        }
        Shape::And { start, count } => simplify_nary(t, e, true, start, count),
        Shape::Or { start, count } => simplify_nary(t, e, false, start, count),
    }
}

// Simplifies an And (all is true) or Or, whose list is a run of items.
#[cycle(simplify_expr)]
fn simplify_nary(
    t: &mut Tables,
    h: u16,
    all: bool,
    start: u16,
    count: u16,
) -> Result<u16, AppendError>
    ensures { simplified t.new result ≡ nary_of all h (operands_from simplify_at all h true t.old start count) }
{
    let became = simplify_operands(t, h, all, usize::from(start), count, Tally::default())?;
    node_of(t, h, all, became)
}

// Simplifies the operands of h that are left, from an item on, finds what h becomes, and writes its list on the way back. A loop would need a list of its
// own at each level, as long as the item table, and there is no heap.
#[cycle(simplify_expr)]
fn simplify_operands(
    t: &mut Tables,
    h: u16,
    all: bool,
    at: usize,
    left: u16,
    tally: Tally,
) -> Result<Became, AppendError>
    requires { (at + left < 1000000) × (tally.kept + left < 65536) }
    ensures { passed t.new result ≡ placed all tally (operands_from simplify_at all h true t.old at left) }
{
    if left == 0 {
        return settle(t, all, tally);
    }
    let e = lists::at(&t.items.a, at, 0);
    let v = simplify_in(t, e, h)?;
    let shape = shape_in(t, v);
    let neutral = simplify_shape::is_literal(shape, all);
    let deciding = simplify_shape::is_literal(shape, !all);
    let more = tally.with(e, v, neutral, deciding);
    let became = simplify_operands(t, h, all, at + 1, left - 1, more)?;
    if !neutral {
        put_operand(t, became, tally.kept, v);
    }
    Ok(became)
}

// Writes the k-th operand that is kept into the list, if there is one.
fn put_operand(t: &mut Tables, became: Became, k: u16, v: u16)
    ensures { t.new ≡ with_operand became t.old k v }
{
    if let Became::Listed { start, .. } = became {
        let i = usize::from(start) + usize::from(k);
        lists::put(&mut t.items.a, i, v);
        lists::put(&mut t.items.b, i, 0);
    }
}
