// The deepest expressions that a plan can hold, simplified: Nots one in the other, 500 and 1,023 Ands of two operands one in the other, and an And of
// 2,048 operands. Run it with a stack of 2 MiB.
#![tactic(auto)]

use plan::{Operator, Plan};
use plan_kinds::Record;
use simplify_spec::{Rewrite, SimplifyError};
use std::io;

fn record(kind: u8, code: u8, a: u16, b: u16) -> Record {
    Record {
        kind,
        code,
        a,
        b,
        c: 0,
        d: 0,
        bits: 0,
    }
}

// A plan of a Boolean column, and a reference to it.
fn column() -> Plan {
    let mut p = Plan::empty();
    p.columns.push(record(0x01, 1, 0, 0));
    p.expressions.push(record(0x20, 0, 0, 0), 0);
    p
}

fn push_not(p: &mut Plan, e: u16) {
    p.expressions.push(record(0x21, 0, e, 0), 0);
}

fn push_item(p: &mut Plan, e: u16) {
    p.items.push(record(0, 0, e, 0));
}

// An And of the last n items, the first of which is item `start`.
fn push_and(p: &mut Plan, n: u16, start: u16) {
    p.expressions.push(record(0x23, 0, n, 0), start);
}

// An And of the column and of the expression e.
fn push_pair(p: &mut Plan, e: u16) {
    let start = p.items.count;
    push_item(p, 0);
    push_item(p, e);
    push_and(p, 2, start);
}

// n Nots over the column.
fn nots(n: u16) -> Plan {
    let mut p = column();
    for i in 0..n {
        push_not(&mut p, i);
    }
    p
}

// n Ands, each of the column and the one before it.
fn ands(n: u16) -> Plan {
    let mut p = column();
    for i in 0..n {
        push_pair(&mut p, i);
    }
    p
}

// Not(Not) of the column, and Ands up to the n-th expression, each of the column and the one before it: every And is made anew.
fn changing_ands(n: u16) -> Plan {
    let mut p = nots(2);
    for i in 2..n {
        push_pair(&mut p, i);
    }
    p
}

// An And of n times the column.
fn wide(n: u16) -> Plan {
    let mut p = column();
    for _ in 0..n {
        push_item(&mut p, 0);
    }
    push_and(&mut p, n, 0);
    p
}

fn said(rt: &impl Print, r: Result<Rewrite, SimplifyError>) -> io::Result<()> {
    match r {
        Ok(Rewrite::Keep) => print!(rt; "keep"),
        Ok(Rewrite::Replace(o)) => print!(rt; "replace {}", o.0),
        Err(SimplifyError::Room) => print!(rt; "refused 3"),
        Err(SimplifyError::NoSuch) => print!(rt; "refused 8"),
    }
}

// The answer for a Selection on the expression e, and how many expressions and items there are then. What
// cannot be written is left out.
fn answer(rt: &impl Print, mut p: Plan, e: u16) {
    p.operators.push(record(0x31, 0, 0, 0), 0);
    p.operators.push(record(0x33, 0, e, 0), 0);
    let _ = said(rt, expr_simplify::simplify(&mut p, Operator(1)));
    let _ = println!(rt; " {} {}", p.expressions.count, p.items.count);
}

fn main(rt: HostRuntime) {
    answer(&rt, nots(1023), 1023);
    answer(&rt, nots(682), 682);
    answer(&rt, ands(500), 500);
    answer(&rt, ands(1023), 1023);
    answer(&rt, changing_ands(500), 500);
    answer(&rt, wide(2048), 1);
}
