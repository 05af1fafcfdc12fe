// Writes two listings and a refusal: the facts of the worked example, and facts with every kind of line.
#![tactic(auto)]

use apply_spec::LogicalFacts;
use constraint_spec::{ConstraintSet, Entry, Holder};
use plan_identities::Identities;
use scalar::ScalarValue;
use value_range::ValueRange;
use writing::Writer;

// The identities of a plan whose first n columns are scanned in the order of their numbers.
fn ids(n: usize) -> Identities {
    let mut base = [0; 64];
    for i in 0..64u8 {
        base[usize::from(i)] = i;
    }
    Identities { base, columns: n }
}

// The same, but for columns 0 and 1, which change places.
fn swapped_ids(n: usize) -> Identities {
    let mut ids = ids(n);
    ids.base.swap(0, 1);
    ids
}

fn entry(range: ValueRange) -> Entry {
    Entry {
        present: true,
        range,
    }
}

fn held(value: ScalarValue) -> Holder {
    Holder {
        present: true,
        value,
    }
}

// Column 0 = column 1 and column 1 < 7, both columns scanned.
fn worked() -> LogicalFacts {
    let mut f = LogicalFacts::empty();
    f.lineage[0] = 1;
    f.lineage[1] = 2;
    f.constraints.equivalence_classes.union(0, 1);
    f.constraints.non_null_values[0] = true;
    f.constraints.ranges[0] = entry(ValueRange::unbounded().tighten_upper(7.0, false));
    f
}

fn literals(s: &mut ConstraintSet) {
    s.literal_equalities[0] = held(ScalarValue::Boolean(true));
    s.literal_equalities[1] = held(ScalarValue::Boolean(false));
    s.literal_equalities[2] = held(ScalarValue::Int32(i32::MIN));
    s.literal_equalities[3] = held(ScalarValue::Int32(i32::MAX));
    s.literal_equalities[4] = held(ScalarValue::Int64(i64::MIN));
    s.literal_equalities[5] = held(ScalarValue::Int64(0));
    s.literal_equalities[6] = held(ScalarValue::Float64(-0.0));
    s.literal_equalities[7] = held(ScalarValue::Float64(0.0 / 0.0));
    s.literal_equalities[66] = held(ScalarValue::Date32(-1));
    s.literal_equalities[127] = held(ScalarValue::Date32(19000));
}

fn ranges(s: &mut ConstraintSet) {
    let low = ValueRange::unbounded().tighten_lower(-1.5, true);
    s.ranges[10] = entry(ValueRange::unbounded());
    s.ranges[11] = entry(low);
    s.ranges[64] = entry(low.tighten_upper(9007199254740992.0, false));
}

// Each second column has its Base identity, and the last its Derived one.
fn lineage() -> [u8; 64] {
    let mut lineage = [0; 64];
    for c in 0..64u8 {
        if c % 2 == 0 {
            lineage[usize::from(c)] = c + 1;
        }
    }
    lineage[63] = 128;
    lineage
}

// Two classes of more than one member; residuals in no order.
fn larger() -> LogicalFacts {
    let mut f = LogicalFacts::empty();
    f.lineage = lineage();
    f.definitions[63] = 1;
    f.definitions[5] = 1024;
    let s = &mut f.constraints;
    literals(s);
    ranges(s);
    for (left, right) in [(3, 9), (9, 100), (127, 64)] {
        s.equivalence_classes.union(left, right);
    }
    s.non_null_values[3] = true;
    s.non_null_values[64] = true;
    s.residual_predicates[0] = 1023;
    s.residual_predicates[1] = 7;
    s.residual_predicates[2] = 10;
    s.residuals = 3;
    s.contradictory = true;
    f
}

fn main() {
    let mut out = [0; 16384];
    let mut w = Writer::new(&mut out);
    listing::listing(&mut w, 1, &ids(2), &worked());
    listing::listing(&mut w, 127, &swapped_ids(64), &larger());
    listing::refused(&mut w, 8, 0);
    io::write_all(1, w.bytes());
}
