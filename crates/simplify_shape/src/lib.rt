// What an expression is to the simplifier: the arms of the Rust's `match`, read out of the table of expressions.
#![tactic(auto)]

ghost use Rattle.std.specs.Prelude.{◌≡◌};
ghost use Rattle.plan_data.specs.Nodes.{expr_data, node_from};
ghost use Rattle.simplify_spec.specs.Shapes.{is_literal, shape_of};

use plan::Expressions;
use plan_data::{ExprData, NaryOp, UnaryOp};
use plan_kinds::Record;
use scalar::ScalarValue;
use simplify_spec::Shape;

// What the expression at a place is.
pub fn shape_at(exprs: &Expressions, i: usize) -> Shape
    ensures { result ≡ shape_of (node_from exprs.now i) }
{
    shape_of(exprs.record(i), exprs.start(i))
}

// What a record's expression is. Its list is taken from the record, whose numbers have 16 bits, so that its length is known to be small.
#[tactic(auto, using(crate::proofs::ShapeLaws::list_shape))]
fn shape_of(x: Record, start: u16) -> Shape
    ensures { result ≡ shape_of (expr_data x start) }
{
    match plan_data::expr_data(x, start) {
        ExprData::Literal(ScalarValue::Boolean(b)) => Shape::Boolean(b),
        ExprData::Unary {
            op: UnaryOp::Not,
            expr,
        } => Shape::Not(expr),
        ExprData::Binary { op, left, right } => Shape::Compare { op, left, right },
        ExprData::Nary {
            op: NaryOp::And,
            ..
        } => Shape::And { start, count: x.a },
        ExprData::Nary { op: NaryOp::Or, .. } => Shape::Or { start, count: x.a },
        _ => Shape::Other,
    }
}

// Whether that is the literal b.
pub fn is_literal(s: Shape, b: bool) -> bool
    ensures { result ≡ is_literal b s }
{
    matches!(s, Shape::Boolean(c) if b == c)
}
