// Reads many plan files, one after the other, out of standard input, and writes what reading says of each: the refusal, its place, and the
// tables of the plan, which are empty at a refusal. Before each file stands its length, four bytes, high byte first.
#![tactic(auto)]

use plan::Plan;
use plan_file::ReadError;
use plan_kinds::Record;
use std::io;

fn refusal_line(rt: &impl Print, e: ReadError) -> io::Result<()> {
    match e {
        ReadError::Short(at) => print!(rt; "1 {at} "),
        ReadError::Unknown(at) => print!(rt; "2 {at} "),
        ReadError::Room(at) => print!(rt; "3 {at} "),
        ReadError::Handle(at) => print!(rt; "4 {at} "),
        ReadError::ScannedTwice(at) => print!(rt; "5 {at} "),
    }
}

fn record_line(rt: &impl Print, x: Record, start: u16) -> io::Result<()> {
    let Record {
        kind,
        code,
        a,
        b,
        c,
        d,
        bits,
    } = x;
    println!(rt; "{kind} {code} {a} {b} {c} {d} {bits} {start} ")
}

fn tables(rt: &impl Print, p: &Plan) -> io::Result<()> {
    println!(rt;
        "{} {} {} {} ",
        p.columns.count, p.expressions.count, p.operators.count, p.items.count
    )?;
    for i in 0..usize::from(p.columns.count) {
        let x = p.columns.record(i);
        println!(rt; "{} {} ", x.a, x.code)?;
    }
    for i in 0..usize::from(p.expressions.count) {
        record_line(rt, p.expressions.record(i), p.expressions.start(i))?;
    }
    for i in 0..usize::from(p.operators.count) {
        record_line(rt, p.operators.record(i), p.operators.start(i))?;
    }
    for i in 0..usize::from(p.items.count) {
        let x = p.items.record(i);
        println!(rt; "{} {} ", x.a, x.b)?;
    }
    Ok(())
}

fn one(rt: &impl Print, s: &[u8]) -> io::Result<()> {
    match plan_file::read(s) {
        Ok(p) => {
            print!(rt; "0 0 ")?;
            tables(rt, &p)
        }
        Err(e) => {
            refusal_line(rt, e)?;
            tables(rt, &Plan::empty())
        }
    }
}

// More files than any input of the tests has.
const FILES: u32 = 1000000;

// What cannot be written is left out, with the rest of its answer; the program goes on and ends well.
fn main(rt: HostRuntime) {
    let mut head = [0; 4];
    let mut room = [0; 24576];
    for _ in 0..FILES {
        let Some(s) = test_input::next(&mut head, 0, &mut room) else {
            break;
        };
        let _ = one(&rt, s);
    }
}
