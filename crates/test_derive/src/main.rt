// Derives the facts of operators of plan files that come one after the other out of standard input, and writes what is known as numbers. Before
// each file stand a byte, the operator, two bytes, and the file's length, four bytes, high byte first; where the byte is 1 the last operator is asked for.
// A line is the refusal's number, the operator that refused and the flag; then runs of numbers, each behind a letter: c a column with its
// identity, d a column with its definition, k a member with its representative, n a non-null identity, l an identity with the three numbers of
// its literal, r an identity with its bounds (present, inclusive, bits, twice), e a residual.
#![tactic(auto)]

use apply_spec::LogicalFacts;
use constraint_spec::{ConstraintSet, Entry, Holder};
use derive_spec::DeriveError;
use plan::{Operator, Plan};
use plan_identities::{Identities, ValueId};
use value_range::Bound;

fn number(n: u64) {
    io::print_decimal(1, n);
    io::write_all(1, b" ");
}

fn flag(b: bool) {
    number(u64::from(b));
}

fn identity(ids: &Identities, n: u8) {
    let (letter, c) = match plan_identities::value_id(ids, n) {
        ValueId::Base(c) => (b"b", c),
        ValueId::Derived(c) => (b"d", c),
    };
    io::write_all(1, letter);
    number(u64::from(c.0));
}

fn column(ids: &Identities, c: usize, v: u8) {
    if v != 0 {
        io::write_all(1, b"c ");
        number(c as u64);
        identity(ids, v - 1);
    }
}

fn definition(c: usize, v: u16) {
    if v != 0 {
        io::write_all(1, b"d ");
        number(c as u64);
        number(u64::from(v - 1));
    }
}

fn member(ids: &Identities, i: u8, r: usize) {
    if r < usize::from(i) {
        io::write_all(1, b"k ");
        identity(ids, i);
        identity(ids, r as u8);
    }
}

fn non_null(ids: &Identities, i: u8, known: bool) {
    if known {
        io::write_all(1, b"n ");
        identity(ids, i);
    }
}

fn literal(ids: &Identities, i: u8, h: Holder) {
    if h.present {
        io::write_all(1, b"l ");
        identity(ids, i);
        number(u64::from(scalar::case_of(h.value)));
        number(u64::from(scalar::code_of(h.value)));
        number(scalar::bits_of(h.value));
    }
}

fn bound(b: Bound) {
    flag(b.present);
    flag(b.inclusive);
    number(scalar::bits_of_float(b.value));
}

fn range(ids: &Identities, i: u8, e: Entry) {
    if e.present {
        io::write_all(1, b"r ");
        identity(ids, i);
        bound(e.range.lower);
        bound(e.range.upper);
    }
}

fn columns(ids: &Identities, f: &LogicalFacts) {
    for c in 0..64 {
        column(ids, c, f.lineage[c]);
        definition(c, f.definitions[c]);
    }
}

fn identities_all(ids: &Identities, s: &ConstraintSet) {
    for i in 0..128 {
        let k = usize::from(i);
        member(ids, i, s.equivalence_classes.canonical(k));
        non_null(ids, i, s.non_null_values[k]);
        literal(ids, i, s.literal_equalities[k]);
        range(ids, i, s.ranges[k]);
    }
}

fn residuals(s: &ConstraintSet) {
    for e in s.residual_predicates.iter().take(s.residuals) {
        io::write_all(1, b"e ");
        number(u64::from(*e));
    }
}

fn facts(p: &Plan, f: &LogicalFacts) {
    let ids = plan_identities::identities_of(p);
    flag(f.constraints.contradictory);
    columns(&ids, f);
    identities_all(&ids, &f.constraints);
    residuals(&f.constraints);
    io::write_all(1, b"\n");
}

// What the library promises of an answer is known here alone: a function of many calls that knew of it would take longer to prove.
fn derived(p: &Plan, h: u16) -> Result<LogicalFacts, DeriveError> {
    derive_logical_facts::derive_logical_facts(p, Operator(h))
}

fn answer(p: &Plan, h: u16) {
    let d = derived(p, h);
    number(u64::from(refusals::number(&d)));
    number(refusals::place(&d) as u64);
    facts(p, &d.unwrap_or(LogicalFacts::empty()));
}

fn one(s: &[u8], last: bool, asked: u16) {
    match plan_file::read(s) {
        Ok(p) => {
            let h = if last {
                refusals::last_operator(&p)
            } else {
                asked
            };
            answer(&p, h);
        }
        Err(_) => {
            io::write_all(1, b"unread\n");
        }
    }
}

// The next file, if there is a whole one.
fn next() -> bool {
    let mut head = [0; 7];
    let mut room = [0; 24576];
    match test_input::next(&mut head, 3, &mut room) {
        Some(body) => {
            one(body, head[0] == 1, test_input::word(&head, 1));
            true
        }
        None => false,
    }
}

// The bound stands in for the end of the input, which no contract speaks of.
fn main() {
    for _ in 0..1000000 {
        if !next() {
            return;
        }
    }
}
