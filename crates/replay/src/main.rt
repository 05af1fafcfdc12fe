// Asks the boundary questions that come one after the other out of standard input, and writes each reply in hexadecimal, a line each. A question
// is a byte for the operation (0 read, 1 derive, 2 facts, 3 apply, 4 simplify, 5 evaluate), the length of its input, four bytes, and the input:
// numbers of two bytes, and the plan file last. Numbers have their high byte first.
#![tactic(auto)]

ghost use Rattle.std.specs.Prelude.{◌<◌};

use writing::Writer;

// A row, three numbers for each of its cells.
#[derive(Clone, Copy)]
struct Row {
    case: [u8; 64],
    code: [u8; 64],
    bits: [u64; 64],
}

// ---- predicates: the operator, how many, and that many expressions

fn apply(s: &[u8], out: &mut [u8]) -> usize {
    let n = usize::from(test_input::word(s, 2));
    let mut room = [0; 1024];
    let (Some(predicates), Some(file)) = (room.get_mut(..n), s.get(4 + 2 * n..)) else {
        return 0;
    };
    for (k, predicate) in predicates.iter_mut().enumerate() {
        *predicate = test_input::word(s, 4 + 2 * k);
    }
    boundary::mossladder_apply(file, test_input::word(s, 0), predicates, out)
}

// ---- a row: how many cells, and a literal record for each

// The length of a literal's record by its kind.
fn length_of(kind: u8) -> usize
    ensures { result < 10 }
{
    match kind {
        0x10 | 0x11 => 2,
        0x12 | 0x15 => 5,
        0x13 | 0x14 => 9,
        _ => 1,
    }
}

impl Row {
    // Cells that are not given are NULL.
    fn nulls() -> Row {
        Row {
            case: [0x10; 64],
            code: [1; 64],
            bits: [0; 64],
        }
    }

    // The cell of column c, from the record that s begins with: the code of a NULL or a Boolean, the payload of a number or a date.
    fn set(&mut self, c: usize, s: &[u8]) -> usize {
        let kind = lists::at(s, 0, 0);
        let length = length_of(kind);
        lists::put(&mut self.case, c, kind);
        lists::put(
            &mut self.code,
            c,
            if length == 2 { lists::at(s, 1, 0) } else { 0 },
        );
        lists::put(
            &mut self.bits,
            c,
            match length {
                9 => test_input::bits(s, 1),
                5 => test_input::long(s, 1),
                _ => 0,
            },
        );
        length
    }
}

fn evaluate(s: &[u8], out: &mut [u8]) -> usize {
    let mut row = Row::nulls();
    let Some(mut rest) = s.get(4..) else {
        return 0;
    };
    for c in 0..usize::from(test_input::word(s, 2)).min(64) {
        let length = row.set(c, rest);
        let Some(left) = rest.get(length..) else {
            return 0;
        };
        rest = left;
    }
    boundary::mossladder_evaluate(
        rest,
        test_input::word(s, 0),
        &row.case,
        &row.code,
        &row.bits,
        out,
    )
}

// ---- a question and its reply

fn reply(operation: u8, s: &[u8], out: &mut [u8]) -> usize {
    match (operation, s) {
        (0, file) => boundary::mossladder_read(file, out),
        (1, [high, low, file @ ..]) => {
            boundary::mossladder_derive(file, u16::from_be_bytes([*high, *low]), out)
        }
        (2, file) => boundary::mossladder_facts(file, out),
        (3, _) => apply(s, out),
        (4, [high, low, file @ ..]) => {
            boundary::mossladder_simplify(file, u16::from_be_bytes([*high, *low]), out)
        }
        (5, _) => evaluate(s, out),
        _ => 0,
    }
}

fn print(reply: &[u8]) {
    let mut line = [0; 65536];
    let mut w = Writer::new(&mut line);
    for b in reply {
        w.hex(u64::from(*b), 2);
    }
    w.byte(b'\n');
    io::write_all(1, w.bytes());
}

fn ask(operation: u8, s: &[u8]) {
    let mut out = [0; 24576];
    let n = reply(operation, s, &mut out);
    if let Some(reply) = out.get(..n) {
        print(reply);
    }
}

// Whether there was a whole question more.
fn next() -> bool {
    let mut head = [0; 5];
    let mut room = [0; 24576];
    match test_input::next(&mut head, 1, &mut room) {
        Some(s) => {
            ask(head[0], s);
            true
        }
        None => false,
    }
}

// The bound stands in for the end of the input, which no contract speaks of.
fn main() {
    for _ in 0..4000000 {
        if !next() {
            return;
        }
    }
}
