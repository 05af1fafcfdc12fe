// Records actions in a set, and writes what stands at their place then: the flag, and 1 or 0 for not NULL, for a literal, a range and its upper end,
// with the bits of the literal and of the end. What cannot be written is left out.
#![tactic(auto)]

use apply_action::Action;
use comparison::BinaryOp;
use constraint_spec::{ConstraintSet, Entry, Holder};
use scalar::ScalarValue;

const SEVEN: ScalarValue = ScalarValue::Int32(7);

fn say(rt: &impl Print, name: &str, s: &ConstraintSet, place: usize) {
    let flag = u8::from(s.contradictory);
    let non_null = u8::from(lists::at(&s.non_null_values, place, false));
    let literal = lists::at(&s.literal_equalities, place, Holder::empty());
    let range = lists::at(&s.ranges, place, Entry::empty());
    let held = u8::from(literal.present);
    let value = scalar::bits_of(literal.value);
    let there = u8::from(range.present);
    let ended = u8::from(range.range.upper.present);
    let end = scalar::bits_of_float(range.range.upper.value);
    let _ = println!(rt;
        "{name}: flag {flag}, not null {non_null}, literal {held} {value}, range {there}, upper end {ended} {end}"
    );
}

// An action recorded at a place of a set, of which nothing is known.
fn recorded(rt: &impl Print, name: &str, s: &mut ConstraintSet, place: usize, action: Action) {
    apply_action::record(s, place, action, false);
    say(rt, name, s, place);
}

// The same in a set of which nothing was said yet.
fn alone(rt: &impl Print, name: &str, place: usize, action: Action) {
    recorded(rt, name, &mut ConstraintSet::empty(), place, action);
}

// Identity 3 has the literal 7 and is below 7, which nobody has found yet.
fn crossed() -> ConstraintSet {
    let mut s = ConstraintSet::empty();
    s.literal_equalities[3] = Holder {
        present: true,
        value: SEVEN,
    };
    constraint_set::lay_range(&mut s, 3, constraint_set::bounds_by(BinaryOp::Lt, 7.0));
    s
}

// Each action by itself.
fn each(rt: &impl Print) {
    alone(rt, "nothing", 0, Action::Nothing);
    alone(rt, "contradiction", 0, Action::Contradiction);
    alone(rt, "residual", 0, Action::Residual);
    alone(rt, "literal", 5, Action::Literal(5, SEVEN));
    alone(rt, "bound", 5, Action::Bound(5, BinaryOp::Lt, 9.0));
    alone(rt, "entry", 5, Action::Entry(5));
    alone(rt, "no identity", 128, Action::Contradiction);
}

// Two identities of one class, under = and under IS NOT DISTINCT FROM.
fn joined(rt: &impl Print, name: &str, non_null: bool) {
    let mut s = ConstraintSet::empty();
    constraint_set::union_values(&mut s, 5, 9);
    let action = Action::Same {
        left: 9,
        right: 5,
        non_null,
    };
    recorded(rt, name, &mut s, 5, action);
}

// A literal outside a range at its own place, which is found whatever is known of the set.
fn crossing(rt: &impl Print, name: &str, checked: bool) {
    let mut s = ConstraintSet::empty();
    apply_action::record(&mut s, 5, Action::Literal(5, SEVEN), checked);
    apply_action::record(&mut s, 5, Action::Bound(5, BinaryOp::Lt, 7.0), checked);
    say(rt, name, &s, 5);
}

// What stood crossed elsewhere is found by a check of all places alone, which a literal asks for where the set is not known to be checked.
fn checks(rt: &impl Print) {
    crossing(rt, "crossed here", false);
    crossing(rt, "crossed here, checked before", true);
    recorded(
        rt,
        "crossed elsewhere",
        &mut crossed(),
        5,
        Action::Literal(5, SEVEN),
    );
    recorded(rt, "not asked for", &mut crossed(), 5, Action::Entry(5));
    let mut s = crossed();
    apply_action::record(&mut s, 5, Action::Literal(5, SEVEN), true);
    say(rt, "taken for checked", &s, 5);
}

fn main(rt: HostRuntime) {
    each(&rt);
    joined(&rt, "equal", true);
    joined(&rt, "not distinct", false);
    checks(&rt);
}
