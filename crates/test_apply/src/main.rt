// Applies predicates to facts and merges facts, as standard input describes, step by step. A step is 20 bytes: what to do, a kind, a code, a column,
// then 16-bit numbers a, b and the start of a list, two bytes of nothing, and 64 bits; numbers have their high byte first. There are two facts, the
// left and the right. Steps: 0 a new plan and new facts, 1 a column, 2 an expression, 3 a list item, 4 a times an And of the last expression and b,
// 5 the left lineage of a column, 6 apply expression a to the left, 7 list the left, 8 exchange left and right, 9 merge the right into the left,
// with its constraints where the code is 1. An application and a merge write the refusal's number, 0 for none.
#![tactic(auto)]

ghost use Rattle.std.specs.Prelude.{◌<◌};

use apply_spec::LogicalFacts;
use constraint_spec::{ConstraintSet, Entry, Holder};
use plan::{Expr, Plan};
use plan_kinds::Record;
use std::io::Read;
use std::{io, mem};
use value_range::Bound;

// More steps than any input of the tests has.
const STEPS: u32 = 4000000;

#[derive(Clone, Copy)]
struct State {
    plan: Plan,
    left: LogicalFacts,
    right: LogicalFacts,
}

fn plain(kind: u8, a: u16) -> Record {
    Record {
        kind,
        code: 0,
        a,
        b: 0,
        c: 0,
        d: 0,
        bits: 0,
    }
}

// An And of the last expression and e; a full table stays as it is.
fn push_and(p: &mut Plan, e: u16) {
    let start = p.items.count;
    p.items
        .push(plain(0, p.expressions.count.saturating_sub(1)));
    p.items.push(plain(0, e));
    p.expressions.push(plain(0x23, 2), start);
}

// ---- what is written

// The bits, and 1 exclusive or 2 inclusive; 0 and 0 for none.
fn end(b: Bound) -> (u64, u8) {
    if b.present {
        (
            scalar::bits_of_float(b.value),
            if b.inclusive { 2 } else { 1 },
        )
    } else {
        (0, 0)
    }
}

fn list_literal(rt: &impl Print, i: usize, h: Holder) -> io::Result<()> {
    if h.present {
        let case = scalar::case_of(h.value);
        let code = scalar::code_of(h.value);
        let bits = scalar::bits_of(h.value);
        println!(rt; "literal {i} {case} {code} {bits}")?;
    }
    Ok(())
}

fn list_range(rt: &impl Print, i: usize, e: Entry) -> io::Result<()> {
    if e.present {
        let (low, low_kind) = end(e.range.lower);
        let (high, high_kind) = end(e.range.upper);
        println!(rt; "range {i} {low} {low_kind} {high} {high_kind}")?;
    }
    Ok(())
}

fn list_identity(rt: &impl Print, s: &ConstraintSet, i: usize) -> io::Result<()>
    requires { i < 128 }
{
    let root = constraint_set::canonical(s, i);
    if root != i {
        println!(rt; "member {i} {root}")?;
    }
    if s.non_null_values[i] {
        println!(rt; "nonnull {i}")?;
    }
    list_literal(rt, i, s.literal_equalities[i])?;
    list_range(rt, i, s.ranges[i])
}

fn list(rt: &impl Print, f: &LogicalFacts) -> io::Result<()> {
    let contradictory = u8::from(f.constraints.contradictory);
    println!(rt; "facts {contradictory}")?;
    for (c, v) in f.lineage.iter().enumerate() {
        if *v != 0 {
            let identity = *v - 1;
            println!(rt; "column {c} {identity}")?;
        }
    }
    for i in 0..ConstraintSet::IDENTITIES {
        list_identity(rt, &f.constraints, i)?;
    }
    for e in f
        .constraints
        .residual_predicates
        .iter()
        .take(f.constraints.residuals)
    {
        println!(rt; "residual {e}")?;
    }
    Ok(())
}

// ---- steps

// What the library promises of an answer is known in the next two alone: a function of many branches that knew of it would take longer to prove.
fn applied(p: &Plan, f: &mut LogicalFacts, e: u16) -> u8 {
    refusals::number(&apply_predicate::apply_predicate(p, f, Expr(e)))
}

fn merged(p: &Plan, f: &mut LogicalFacts, g: &LogicalFacts, all: bool) -> u8 {
    refusals::number(&logical_facts::merge_inputs(p, f, g, all))
}

impl State {
    fn fresh() -> State {
        State {
            plan: Plan::empty(),
            left: LogicalFacts::empty(),
            right: LogicalFacts::empty(),
        }
    }

    fn step(&mut self, rt: &impl Print, s: &[u8; 20]) -> io::Result<()> {
        let a = test_input::word(s, 4);
        match s[0] {
            0 => *self = State::fresh(),
            4 => {
                for _ in 0..a {
                    push_and(&mut self.plan, test_input::word(s, 6));
                }
            }
            5 => lists::put(&mut self.left.lineage, usize::from(s[3]), s[5]),
            6 => {
                let refused = applied(&self.plan, &mut self.left, a);
                println!(rt; "refused {refused}")?;
            }
            7 => list(rt, &self.left)?,
            8 => mem::swap(&mut self.left, &mut self.right),
            9 => {
                let refused = merged(&self.plan, &mut self.left, &self.right, s[2] == 1);
                println!(rt; "refused {refused}")?;
            }
            _ => test_input::plan_step(&mut self.plan, s),
        }
        Ok(())
    }
}

// What cannot be written is left out, with the rest of its answer; the program goes on and ends well.
fn main(rt: HostRuntime) {
    let mut input = rt.reader();
    let mut state = State::fresh();
    let mut s = [0; 20];
    for _ in 0..STEPS {
        if input.read_exact(&mut s).is_err() {
            break;
        }
        let _ = state.step(&rt, &s);
    }
}
