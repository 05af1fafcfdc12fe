// Evaluates expressions that standard input describes, step by step. A step is 20 bytes: what to do, a kind, a code, a column, then 16-bit numbers
// a, b and the start of a list, two bytes of nothing, and 64 bits; numbers have their high byte first. Steps: 0 a new plan and a row of NULLs,
// 1 a column, 2 an expression, 3 a list item, 4 the row's value of a column, 5 evaluate expression a. Each evaluation writes a line:
// the refusal's number, or T, F or U for TRUE, FALSE and UNKNOWN.
#![tactic(auto)]

use plan::{Expr, Plan};
use rows_spec::{Cell, EvaluationError, Row};
use scalar::ScalarValue;
use std::io;
use std::io::Read;

// More steps than any input of the tests has.
const STEPS: u32 = 4000000;

fn nulls() -> Row {
    let null = Cell {
        case: 0x10,
        code: 1,
        bits: 0,
    };
    Row { cells: [null; 64] }
}

fn put_cell(row: &mut Row, s: &[u8; 20]) {
    let cell = Cell {
        case: s[1],
        code: s[2],
        bits: test_input::bits(s, 12),
    };
    lists::put(&mut row.cells, usize::from(s[3]), cell);
}

fn line(answer: Result<ScalarValue, EvaluationError>) -> &'static str {
    match answer {
        Ok(v) => match rows::truth_of(v) {
            truth::FALSE => "F",
            truth::TRUE => "T",
            _ => "U",
        },
        Err(EvaluationError::NoSuch) => "8",
        Err(EvaluationError::Untyped) => "9",
        Err(EvaluationError::BadRow) => "10",
    }
}

// One step: what it makes of the plan and the row, or the line that it writes.
fn step(rt: &impl Print, plan: &mut Plan, row: &mut Row, s: &[u8; 20]) -> io::Result<()> {
    match s[0] {
        0 => {
            *plan = Plan::empty();
            *row = nulls();
        }
        4 => put_cell(row, s),
        5 => rt.println(line(rows::evaluate(plan, Expr(test_input::word(s, 4)), row)))?,
        _ => test_input::plan_step(plan, s),
    }
    Ok(())
}

// What cannot be written is left out, with the rest of its answer; the program goes on and ends well.
fn main(rt: HostRuntime) {
    let mut input = rt.reader();
    let mut plan = Plan::empty();
    let mut row = nulls();
    let mut s = [0; 20];
    for _ in 0..STEPS {
        if input.read_exact(&mut s).is_err() {
            break;
        }
        let _ = step(&rt, &mut plan, &mut row, &s);
    }
}
