// The lines of a listing.
#![tactic(auto)]

ghost use Rattle.std.specs.Prelude.{◌≡◌, ℕ, ◌-◌};
ghost use Rattle.scalar.specs.Scalars.{Typed};
ghost use Rattle.writing.specs.Writers.{written};
ghost use Rattle.listing_lines.specs.Lines.{flag_text, id_text, name_text, header_line, column_line, define_line, member_text, nonnull_line, kind_word};
ghost use Rattle.listing_lines.specs.Lines.{value_text, literal_line, form_text, bound_text, range_line, residual_line};

use constraint_spec::{Entry, Holder};
use plan_identities::{Identities, ValueId};
use scalar::{Kind, ScalarValue};
use value_range::Bound;
use writing::Writer;

fn flag(w: &mut Writer, b: bool)
    ensures { w.new ≡ written w.old (flag_text b) }
{
    w.byte(if b { b'1' } else { b'0' });
}

// b or d, and the column.
#[tactic(auto, using(writing::proofs::Writings::steps))]
fn id(w: &mut Writer, v: ValueId)
    ensures { w.new ≡ written w.old (id_text v) }
{
    match v {
        ValueId::Base(c) => {
            w.byte(b'b');
            w.decimal(u64::from(c.0));
        }
        ValueId::Derived(c) => {
            w.byte(b'd');
            w.decimal(u64::from(c.0));
        }
    }
}

// The name of the identity with a number.
#[tactic(auto, unfolding(crate::specs::Lines::name_text))]
pub fn name(w: &mut Writer, ids: &Identities, i: u8)
    ensures { w.new ≡ written w.old (name_text ids.now i) }
{
    id(w, plan_identities::value_id(ids, i));
}

#[tactic(auto, using(writing::proofs::Writings::steps), unfolding(crate::specs::Lines::header_line))]
pub fn header(w: &mut Writer, h: usize, contradictory: bool)
    ensures { w.new ≡ written w.old (header_line h contradictory) }
{
    w.text(b"facts ");
    w.decimal(h as u64);
    w.byte(b' ');
    flag(w, contradictory);
    w.byte(b'\n');
}

// A column's identity, from its entry in the lineage.
#[tactic(auto, using(writing::proofs::Writings::line_steps), unfolding(crate::specs::Lines::column_line))]
pub fn column_line(w: &mut Writer, ids: &Identities, c: usize, v: u8)
    ensures { w.new ≡ written w.old (column_line ids.now c v) }
{
    if v != 0 {
        w.text(b"column ");
        w.decimal(c as u64);
        w.byte(b' ');
        name(w, ids, v - 1);
        w.byte(b'\n');
    }
}

#[tactic(auto, using(writing::proofs::Writings::line_steps), unfolding(crate::specs::Lines::define_line))]
pub fn define_line(w: &mut Writer, c: usize, d: u16)
    ensures { w.new ≡ written w.old (define_line c d) }
{
    if d != 0 {
        w.text(b"define ");
        w.decimal(c as u64);
        w.text(b" e");
        w.decimal(u64::from(d - 1));
        w.byte(b'\n');
    }
}

#[tactic(auto, using(writing::proofs::Writings::line_steps), unfolding(crate::specs::Lines::nonnull_line))]
pub fn nonnull_line(w: &mut Writer, ids: &Identities, i: u8, b: bool)
    ensures { w.new ≡ written w.old (nonnull_line ids.now i b) }
{
    if b {
        w.text(b"nonnull ");
        name(w, ids, i);
        w.byte(b'\n');
    }
}

#[tactic(auto, using(writing::proofs::Writings::steps), unfolding(crate::specs::Lines::residual_line))]
pub fn residual_line(w: &mut Writer, e: u16)
    ensures { w.new ≡ written w.old (residual_line e) }
{
    w.text(b"residual e");
    w.decimal(u64::from(e));
    w.byte(b'\n');
}

// A member of a class, where root, the representative of i, is that of the class.
#[tactic(auto, using(writing::proofs::Writings::line_steps), unfolding(crate::specs::Lines::member_text))]
pub fn member(w: &mut Writer, ids: &Identities, root: u8, r: u8, i: u8)
    ensures { w.new ≡ written w.old (member_text ids.now root r i) }
{
    if root == r {
        w.byte(b' ');
        name(w, ids, i);
    }
}

fn kind_word(w: &mut Writer, k: Kind)
    ensures { w.new ≡ written w.old (kind_word k) }
{
    w.text(match k {
        Kind::Boolean => b" bool ",
        Kind::Int32 => b" i32 ",
        Kind::Int64 => b" i64 ",
        Kind::Float64 => b" f64 ",
        Kind::Date32 => b" date ",
    });
}

// Kind and value.
#[tactic(auto, using(writing::proofs::Writings::line_steps), unfolding(crate::specs::Lines::value_text))]
fn value(w: &mut Writer, v: ScalarValue)
    ensures { w.new ≡ written w.old (value_text v) }
{
    kind_word(w, v.kind());
    match v {
        ScalarValue::Null(_) => {}
        ScalarValue::Boolean(b) => flag(w, b),
        ScalarValue::Int32(n) => w.signed(i64::from(n)),
        ScalarValue::Int64(n) => w.signed(n),
        ScalarValue::Float64(x) => w.hex(scalar::bits_of_float(x), 16),
        ScalarValue::Date32(n) => w.signed(i64::from(n)),
    }
}

#[tactic(auto, using(writing::proofs::Writings::line_steps), unfolding(crate::specs::Lines::literal_line))]
pub fn literal_line(w: &mut Writer, ids: &Identities, i: u8, h: Holder)
    ensures wrote { w.new ≡ written w.old (literal_line ids.now i h) }
    ensures typed { Typed h.value }
{
    if h.present {
        w.text(b"literal ");
        name(w, ids, i);
        value(w, h.value);
        w.byte(b'\n');
    }
}

// An end of a range: its value, and i for an inclusive one, x for an exclusive one.
#[tactic(auto, using(writing::proofs::Writings::line_steps), unfolding(crate::specs::Lines::bound_text))]
fn bound(w: &mut Writer, b: Bound)
    ensures { w.new ≡ written w.old (bound_text b) }
{
    if b.present {
        w.hex(scalar::bits_of_float(b.value), 16);
        w.byte(if b.inclusive { b'i' } else { b'x' });
    } else {
        w.byte(b'-');
    }
}

#[tactic(auto, using(writing::proofs::Writings::line_steps), unfolding(crate::specs::Lines::range_line))]
pub fn range_line(w: &mut Writer, ids: &Identities, i: u8, e: Entry)
    ensures { w.new ≡ written w.old (range_line ids.now i e) }
{
    if e.present {
        w.text(b"range ");
        name(w, ids, i);
        w.byte(b' ');
        bound(w, e.range.lower);
        w.byte(b' ');
        bound(w, e.range.upper);
        w.byte(b'\n');
    }
}
