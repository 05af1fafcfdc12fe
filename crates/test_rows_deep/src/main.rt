// The deepest expressions that a plan can hold, evaluated: 1,023 Nots one in the other, 512 Ands of two operands and 1,023 Ands of one, one in the
// other, and an And of 2,048 operands. Run it with a stack of 2 MiB.
#![tactic(auto)]

ghost use Rattle.std.specs.Prelude.{◌<◌, length};

use plan::{AppendError, Expr, Plan};
use plan_kinds::Record;
use rows_spec::{Cell, EvaluationError, Row};
use scalar::ScalarValue;

fn record(kind: u8, code: u8, a: u16) -> Record {
    Record {
        kind,
        code,
        a,
        b: 0,
        c: 0,
        d: 0,
        bits: 0,
    }
}

// A plan of the literal true.
fn literal() -> Result<Plan, AppendError> {
    let mut p = Plan::empty();
    p.append_expr(record(0x11, 1, 0), 0)?;
    Ok(p)
}

// An And of the operands.
fn append_and(p: &mut Plan, operands: &[u16]) -> Result<u16, AppendError>
    requires { length operands.now < 65536 }
{
    let start = p.items.count;
    for e in operands {
        p.append_item(record(0, 0, *e))?;
    }
    p.append_expr(record(0x23, 0, operands.len() as u16), start)
}

// The literal, and n Nots over it.
fn nots(n: u16) -> Result<Plan, AppendError> {
    let mut p = literal()?;
    for e in 0..n {
        p.append_expr(record(0x21, 0, e), 0)?;
    }
    Ok(p)
}

// The literal, and n Ands, each of the one before it and the literal.
fn ands(n: u16) -> Result<Plan, AppendError> {
    let mut p = literal()?;
    for e in 0..n {
        append_and(&mut p, &[e, 0])?;
    }
    Ok(p)
}

// The literal, and n Ands, each of the one before it.
fn lone_ands(n: u16) -> Result<Plan, AppendError> {
    let mut p = literal()?;
    for e in 0..n {
        append_and(&mut p, &[e])?;
    }
    Ok(p)
}

// The literal, and an And of 2,048 times the literal.
fn wide() -> Result<Plan, AppendError> {
    let mut p = literal()?;
    append_and(&mut p, &[0; 2048])?;
    Ok(p)
}

fn nulls() -> Row {
    let null = Cell {
        case: 0x10,
        code: 1,
        bits: 0,
    };
    Row { cells: [null; 64] }
}

fn word(answer: Result<ScalarValue, EvaluationError>) -> &'static str {
    match answer {
        Ok(v) => match rows::truth_of(v) {
            truth::FALSE => "FALSE",
            truth::TRUE => "TRUE",
            _ => "UNKNOWN",
        },
        Err(EvaluationError::NoSuch) => "no such",
        Err(EvaluationError::Untyped) => "untyped",
        Err(EvaluationError::BadRow) => "bad row",
    }
}

// The answer for the expression e of a plan, where there was room for it. What cannot be written is left out.
fn say(rt: &impl Print, plan: Result<Plan, AppendError>, e: u16) {
    let said = match plan {
        Ok(p) => word(rows::evaluate(&p, Expr(e), &nulls())),
        Err(AppendError::Room) => "no room",
    };
    let _ = println!(rt; "{said}");
}

fn main(rt: HostRuntime) {
    say(&rt, nots(1023), 1023);
    say(&rt, ands(512), 512);
    say(&rt, lone_ands(1023), 1023);
    say(&rt, wide(), 1);
}
