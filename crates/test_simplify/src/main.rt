// Simplifies operators of many plan files, one after the other, out of standard input, and writes what is answered for each, a line a file: keep, the
// operator that replaces it, or the refusal, and the plan handed back in canonical bytes. Before each file stand its length, four bytes, and the
// operator, two bytes, high byte first.
#![tactic(auto)]

ghost use Rattle.std.specs.Prelude.{◌≤◌};

use plan::{Items, Operator, Plan};
use plan_kinds::{Field, Record, Row};
use simplify_spec::{Rewrite, SimplifyError};
use std::io;

// More files than any input of the tests has.
const FILES: u32 = 1000000;

// Every NaN is written as this one.
const NAN: u64 = 0x7ff8_0000_0000_0000;

fn number(rt: &impl Print, field: Field, n: u16) -> io::Result<()> {
    if field == Field::None {
        return Ok(());
    }
    print!(rt; "{n:04x}")
}

// A literal's payload.
fn payload(rt: &impl Print, kind: u8, bits: u64, width: u8) -> io::Result<()> {
    match width {
        4 => print!(rt; "{bits:08x}"),
        8 if kind == 0x14 && 0x7ff0_0000_0000_0000 < bits % 0x8000_0000_0000_0000 => {
            print!(rt; "{NAN:016x}")
        }
        8 => print!(rt; "{bits:016x}"),
        _ => Ok(()),
    }
}

fn body(rt: &impl Print, row: Row, x: Record) -> io::Result<()> {
    print!(rt; "{:02x}", x.kind)?;
    if row.code == 1 {
        print!(rt; "{:02x}", x.code)?;
    }
    number(rt, row.a, x.a)?;
    number(rt, row.b, x.b)?;
    number(rt, row.c, x.c)?;
    number(rt, row.d, x.d)?;
    payload(rt, x.kind, x.bits, row.bits)
}

fn item_list(rt: &impl Print, items: &Items, kind: u8, from: usize, n: u16) -> io::Result<()>
    requires { from ≤ 131070 }
{
    let row = plan_kinds::row_of(kind);
    for k in 0..usize::from(n) {
        let x = items.record(from + k);
        print!(rt; "{kind:02x}")?;
        number(rt, row.a, x.a)?;
        number(rt, row.b, x.b)?;
    }
    Ok(())
}

// A record with its lists.
fn whole(rt: &impl Print, items: &Items, x: Record, start: u16) -> io::Result<()> {
    let row = plan_kinds::row_of(x.kind);
    let from = usize::from(start);
    let n = plan_kinds::count_of(row, x);
    body(rt, row, x)?;
    item_list(rt, items, row.item, from, n)?;
    item_list(
        rt,
        items,
        0x40,
        from + usize::from(n),
        plan_kinds::more_of(row, x),
    )
}

fn listed(rt: &impl Print, p: &Plan) -> io::Result<()> {
    for i in 0..usize::from(p.columns.count) {
        let x = p.columns.record(i);
        print!(rt; "{:02x}{:04x}{:02x}", x.kind, x.a, x.code)?;
    }
    for i in 0..usize::from(p.expressions.count) {
        whole(
            rt,
            &p.items,
            p.expressions.record(i),
            p.expressions.start(i),
        )?;
    }
    for i in 0..usize::from(p.operators.count) {
        whole(rt, &p.items, p.operators.record(i), p.operators.start(i))?;
    }
    Ok(())
}

fn answer(rt: &impl Print, r: Result<Rewrite, SimplifyError>) -> io::Result<()> {
    match r {
        Ok(Rewrite::Keep) => print!(rt; "keep"),
        Ok(Rewrite::Replace(o)) => print!(rt; "replace {}", o.0),
        Err(SimplifyError::Room) => print!(rt; "refused 3"),
        Err(SimplifyError::NoSuch) => print!(rt; "refused 8"),
    }
}

// A file that is no plan's stands for the empty plan.
fn one(rt: &impl Print, file: &[u8], o: u16) -> io::Result<()> {
    let mut p = plan_file::read(file).unwrap_or(Plan::empty());
    answer(rt, expr_simplify::simplify(&mut p, Operator(o)))?;
    print!(rt; "/plan ")?;
    listed(rt, &p)?;
    println!(rt; "")
}

// What cannot be written is left out, with the rest of its answer; the program goes on and ends well.
fn main(rt: HostRuntime) {
    let mut head = [0; 6];
    let mut room = [0; 32768];
    for _ in 0..FILES {
        let Some(file) = test_input::next(&mut head, 0, &mut room) else {
            break;
        };
        let _ = one(&rt, file, test_input::word(&head, 4));
    }
}
