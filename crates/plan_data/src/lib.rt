// The nodes of a plan read out of their records, as enums to match on, and back.
#![tactic(auto)]

ghost use Rattle.std.specs.Prelude.{◌≡◌};
ghost use Rattle.plan_data.specs.Codes.{unary_op_code, unary_op_of, nary_op_code, nary_op_of, join_type_code, join_type_of, kind_of_join, marker_of};
ghost use Rattle.plan_data.specs.declared.OperatorData.TheVariants.{Join};
ghost use Rattle.plan_data.specs.Nodes.{run_of, expr_data, node_from, operator_data, operator_from, count_in, numbers_of, record_of_expr, record_of_operator};

use comparison::BinaryOp;
use plan::{Column, Expr, Expressions, Operator, Operators};
use plan_kinds::Record;
use scalar::ScalarValue;

#[derive(Clone, Copy, PartialEq, Eq)]
pub enum UnaryOp {
    Not,
    IsNull,
    IsNotNull,
    Negate,
}

#[derive(Clone, Copy, PartialEq, Eq)]
pub enum NaryOp {
    And,
    Or,
}

#[derive(Clone, Copy, PartialEq, Eq)]
pub enum JoinType {
    Inner,
    LeftSemi,
    LeftAnti,
    LeftOuter,
    Single,
    RightOuter,
    FullOuter,
    LeftMark(Column),
}

// A run of entries in the item table: what a node's list is.
#[derive(Clone, Copy, PartialEq, Eq)]
pub struct Run {
    pub start: usize,
    pub count: usize,
}

#[derive(Clone, Copy)]
pub enum ExprData {
    Literal(ScalarValue),
    ColumnRef(Column),
    Unary {
        op: UnaryOp,
        expr: Expr,
    },
    Binary {
        op: BinaryOp,
        left: Expr,
        right: Expr,
    },
    Nary {
        op: NaryOp,
        exprs: Run,
    },
}

#[derive(Clone, Copy)]
pub enum OperatorData {
    Scan {
        table: u16,
        columns: Run,
    },
    ConstScan {
        columns: Run,
    },
    TableFunction {
        columns: Run,
    },
    Selection {
        predicate: Expr,
        input: Operator,
    },
    Projection {
        input: Operator,
        columns: Run,
    },
    Rename {
        input: Operator,
        defs: Run,
    },
    Map {
        input: Operator,
        computations: Run,
    },
    Aggregation {
        input: Operator,
        keys: Run,
        aggregates: Run,
    },
    Sort {
        input: Operator,
        keys: Run,
    },
    Limit {
        input: Operator,
    },
    Output {
        input: Operator,
    },
    CrossProduct {
        outer: Operator,
        inner: Operator,
    },
    Join {
        join_type: JoinType,
        on: Expr,
        outer: Operator,
        inner: Operator,
    },
}

impl From<UnaryOp> for u8 {
    ghost from_gives = { λ op code. code ≡ unary_op_code op };

    fn from(op: UnaryOp) -> u8 {
        match op {
            UnaryOp::Not => 0,
            UnaryOp::IsNull => 1,
            UnaryOp::IsNotNull => 2,
            UnaryOp::Negate => 3,
        }
    }
}

// A number that is no operation's code stands for Negate, which no expression that is evaluated has.
impl From<u8> for UnaryOp {
    ghost from_gives = { λ code op. op ≡ unary_op_of code };

    fn from(code: u8) -> UnaryOp {
        match code {
            0 => UnaryOp::Not,
            1 => UnaryOp::IsNull,
            2 => UnaryOp::IsNotNull,
            _ => UnaryOp::Negate,
        }
    }
}

impl From<NaryOp> for u8 {
    ghost from_gives = { λ op code. code ≡ nary_op_code op };

    fn from(op: NaryOp) -> u8 {
        match op {
            NaryOp::And => 0,
            NaryOp::Or => 1,
        }
    }
}

// A number that is no code stands for Or.
impl From<u8> for NaryOp {
    ghost from_gives = { λ code op. op ≡ nary_op_of code };

    fn from(code: u8) -> NaryOp {
        match code {
            0 => NaryOp::And,
            _ => NaryOp::Or,
        }
    }
}

// A LeftMark join has a kind of record of its own, and no code: 0 stands there.
impl From<JoinType> for u8 {
    ghost from_gives = { λ t code. code ≡ join_type_code t };

    fn from(t: JoinType) -> u8 {
        match t {
            JoinType::Inner => 0,
            JoinType::LeftSemi => 1,
            JoinType::LeftAnti => 2,
            JoinType::LeftOuter => 3,
            JoinType::Single => 4,
            JoinType::RightOuter => 5,
            JoinType::FullOuter => 6,
            JoinType::LeftMark(_) => 0,
        }
    }
}

// A number that is no code stands for FullOuter, the join that keeps the least.
impl From<u8> for JoinType {
    ghost from_gives = { λ code t. t ≡ join_type_of code };

    fn from(code: u8) -> JoinType {
        match code {
            0 => JoinType::Inner,
            1 => JoinType::LeftSemi,
            2 => JoinType::LeftAnti,
            3 => JoinType::LeftOuter,
            4 => JoinType::Single,
            5 => JoinType::RightOuter,
            _ => JoinType::FullOuter,
        }
    }
}

impl JoinType {
    // The kind of a join's record.
    fn kind(self) -> u8
        ensures { result ≡ kind_of_join self }
    {
        match self {
            JoinType::LeftMark(_) => 0x3D,
            _ => 0x3C,
        }
    }

    // The number of the column that a LeftMark join makes; other joins make none and get 0.
    fn marker(self) -> u16
        ensures { result ≡ marker_of self }
    {
        match self {
            JoinType::LeftMark(marker) => marker.0,
            _ => 0,
        }
    }
}

fn run_of(start: usize, count: u16) -> Run
    ensures { result ≡ run_of start count }
{
    Run {
        start,
        count: usize::from(count),
    }
}

// The expression of a record whose list, if it has one, starts at `start`. A kind that is no expression's reads as the literal NULL of Boolean.
#[tactic(auto, unfolding(crate::specs::Nodes::expr_data))]
pub fn expr_data(x: Record, start: u16) -> ExprData
    ensures { result ≡ expr_data x start }
{
    match x.kind {
        0x20 => ExprData::ColumnRef(Column(x.a)),
        0x21 => ExprData::Unary {
            op: UnaryOp::from(x.code),
            expr: Expr(x.a),
        },
        0x22 => ExprData::Binary {
            op: BinaryOp::from(x.code),
            left: Expr(x.a),
            right: Expr(x.b),
        },
        0x23 => ExprData::Nary {
            op: NaryOp::from(x.code),
            exprs: run_of(usize::from(start), x.a),
        },
        kind => ExprData::Literal(scalar::scalar_of(kind, x.code, x.bits)),
    }
}

// The expression of a handle.
pub fn node_at(exprs: &Expressions, i: usize) -> ExprData
    ensures { result ≡ node_from exprs.now i }
{
    expr_data(exprs.record(i), exprs.start(i))
}

// The operator of a record whose lists start at `start`. A kind that is no operator's reads as a ConstScan of no columns.
#[tactic(auto, unfolding(crate::specs::Nodes::operator_data))]
pub fn operator_data(x: Record, start: u16) -> OperatorData
    ensures { result ≡ operator_data x start }
{
    let st = usize::from(start);
    match x.kind {
        0x30 => OperatorData::Scan {
            table: x.a,
            columns: run_of(st, x.b),
        },
        0x31 => OperatorData::ConstScan {
            columns: run_of(st, x.a),
        },
        0x32 => OperatorData::TableFunction {
            columns: run_of(st, x.a),
        },
        0x33 => OperatorData::Selection {
            predicate: Expr(x.a),
            input: Operator(x.b),
        },
        0x34 => OperatorData::Projection {
            input: Operator(x.a),
            columns: run_of(st, x.b),
        },
        0x35 => OperatorData::Rename {
            input: Operator(x.a),
            defs: run_of(st, x.b),
        },
        0x36 => OperatorData::Map {
            input: Operator(x.a),
            computations: run_of(st, x.b),
        },
        0x37 => OperatorData::Aggregation {
            input: Operator(x.a),
            keys: run_of(st, x.b),
            aggregates: run_of(st + usize::from(x.b), x.c),
        },
        0x38 => OperatorData::Sort {
            input: Operator(x.a),
            keys: run_of(st, x.b),
        },
        0x39 => OperatorData::Limit {
            input: Operator(x.a),
        },
        0x3A => OperatorData::Output {
            input: Operator(x.a),
        },
        0x3B => OperatorData::CrossProduct {
            outer: Operator(x.a),
            inner: Operator(x.b),
        },
        0x3C => join_data(x, JoinType::from(x.code)),
        0x3D => join_data(x, JoinType::LeftMark(Column(x.d))),
        _ => OperatorData::ConstScan {
            columns: run_of(0, 0),
        },
    }
}

fn join_data(x: Record, join_type: JoinType) -> OperatorData
    ensures { result ≡ Join join_type (record { 0 = x.a }) (record { 0 = x.b }) (record { 0 = x.c }) }
{
    OperatorData::Join {
        join_type,
        on: Expr(x.a),
        outer: Operator(x.b),
        inner: Operator(x.c),
    }
}

// The operator of a handle.
pub fn operator_at(operators: &Operators, i: usize) -> OperatorData
    ensures { result ≡ operator_from operators.now i }
{
    operator_data(operators.record(i), operators.start(i))
}

// A count as a record has it: 16 bits.
fn count_of_run(r: Run) -> u16
    ensures { result ≡ count_in r }
{
    (r.count % 65536) as u16
}

// A record without a payload.
fn numbers(kind: u8, code: u8, a: u16, b: u16, c: u16, d: u16) -> Record
    ensures { result ≡ numbers_of kind code a b c d }
{
    Record {
        kind,
        code,
        a,
        b,
        c,
        d,
        bits: 0,
    }
}

// The record of an expression. Where its list starts is no part of a record.
impl From<ExprData> for Record {
    ghost from_gives = { λ e x. x ≡ record_of_expr e };

    fn from(e: ExprData) -> Record {
        match e {
            ExprData::Literal(v) => Record {
                kind: scalar::case_of(v),
                code: scalar::code_of(v),
                a: 0,
                b: 0,
                c: 0,
                d: 0,
                bits: scalar::bits_of(v),
            },
            ExprData::ColumnRef(column) => numbers(0x20, 0, column.0, 0, 0, 0),
            ExprData::Unary { op, expr } => numbers(0x21, u8::from(op), expr.0, 0, 0, 0),
            ExprData::Binary { op, left, right } => numbers(
                0x22,
                u8::from(op),
                left.0,
                right.0,
                0,
                0,
            ),
            ExprData::Nary { op, exprs } => numbers(
                0x23,
                u8::from(op),
                count_of_run(exprs),
                0,
                0,
                0,
            ),
        }
    }
}

// The record of an operator.
impl From<OperatorData> for Record {
    ghost from_gives = { λ o x. x ≡ record_of_operator o };

    fn from(o: OperatorData) -> Record {
        match o {
            OperatorData::Scan { table, columns } => {
                numbers(0x30, 0, table, count_of_run(columns), 0, 0)
            }
            OperatorData::ConstScan { columns } => numbers(0x31, 0, count_of_run(columns), 0, 0, 0),
            OperatorData::TableFunction { columns } => {
                numbers(0x32, 0, count_of_run(columns), 0, 0, 0)
            }
            OperatorData::Selection { predicate, input } => {
                numbers(0x33, 0, predicate.0, input.0, 0, 0)
            }
            OperatorData::Projection { input, columns } => {
                numbers(0x34, 0, input.0, count_of_run(columns), 0, 0)
            }
            OperatorData::Rename { input, defs } => {
                numbers(0x35, 0, input.0, count_of_run(defs), 0, 0)
            }
            OperatorData::Map {
                input,
                computations,
            } => numbers(0x36, 0, input.0, count_of_run(computations), 0, 0),
            OperatorData::Aggregation {
                input,
                keys,
                aggregates,
            } => numbers(
                0x37,
                0,
                input.0,
                count_of_run(keys),
                count_of_run(aggregates),
                0,
            ),
            OperatorData::Sort { input, keys } => {
                numbers(0x38, 0, input.0, count_of_run(keys), 0, 0)
            }
            OperatorData::Limit { input } => numbers(0x39, 0, input.0, 0, 0, 0),
            OperatorData::Output { input } => numbers(0x3A, 0, input.0, 0, 0, 0),
            OperatorData::CrossProduct { outer, inner } => {
                numbers(0x3B, 0, outer.0, inner.0, 0, 0)
            }
            OperatorData::Join {
                join_type,
                on,
                outer,
                inner,
            } => numbers(
                join_type.kind(),
                u8::from(join_type),
                on.0,
                outer.0,
                inner.0,
                join_type.marker(),
            ),
        }
    }
}
