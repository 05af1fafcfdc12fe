// What the test programs read: numbers with their high byte first, out of bytes after which stand zeros; and the steps that make a plan. A step is
// 20 bytes: what to do, a kind, a code, a column, then 16-bit numbers a, b and the start of a list, two bytes of nothing, and 64 bits.
#![tactic(auto)]

ghost use Rattle.std.specs.Prelude.{◌<◌};

use plan::Plan;
use plan_kinds::Record;

// The N bytes at a place, with zeros past the end.
fn bytes<const N: usize>(s: &[u8], at: usize) -> [u8; N] {
    let mut t = [0; N];
    for (to, from) in t.iter_mut().zip(s.iter().skip(at)) {
        *to = *from;
    }
    t
}

pub fn word(s: &[u8], at: usize) -> u16 {
    u16::from_be_bytes(bytes(s, at))
}

pub fn long(s: &[u8], at: usize) -> u64
    ensures { result < 4294967296 }
{
    u64::from(u32::from_be_bytes(bytes(s, at)))
}

pub fn bits(s: &[u8], at: usize) -> u64 {
    u64::from_be_bytes(bytes(s, at))
}

// The next file of standard input: its head, and its body, whose length stands at a place of the head, four bytes. There is none where there is no whole
// file that the room is enough for.
pub fn next<'b>(head: &mut [u8], at: usize, room: &'b mut [u8]) -> Option<&'b [u8]> {
    if io::read_full(0, head) < head.len() {
        return None;
    }
    let body = room.get_mut(..long(head, at) as usize)?;
    if io::read_full(0, body) < body.len() {
        return None;
    }
    Some(body)
}

fn record(s: &[u8]) -> Record {
    Record {
        kind: lists::at(s, 1, 0),
        code: lists::at(s, 2, 0),
        a: word(s, 4),
        b: word(s, 6),
        c: 0,
        d: 0,
        bits: bits(s, 12),
    }
}

// A step of a plan: 1 a column, 2 an expression, 3 a list item, and no other step changes it.
pub fn plan_step(p: &mut Plan, s: &[u8]) {
    let x = record(s);
    match lists::at(s, 0, 0) {
        1 => p.columns.push(x),
        2 => p.expressions.push(x, word(s, 8)),
        3 => p.items.push(x),
        _ => {}
    }
}
