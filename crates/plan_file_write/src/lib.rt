// Writing a plan as a plan file. What does not fit the writer's buffer is left out.
#![tactic(auto)]

ghost use Rattle.std.specs.Prelude.{◌≡◌, []};
ghost use Rattle.plan_kinds.specs.Coding.{field_code};
ghost use Rattle.writing.specs.Writers.{written};
ghost use Rattle.plan_file_laws.specs.ListItems.{item_kind};
ghost use Rattle.plan_file_laws.specs.Writing.{put8, put_word, put_code, put_bits};
ghost use Rattle.plan_file_write.specs.Written.{clipped_bits, record_bytes, items_bytes, listed_bytes, written_of};

use plan::{Items, Plan};
use plan_kinds::{Field, Record};
use writing::Writer;

// A number of eight bytes, high byte first.
#[tactic(auto, using(crate::proofs::WriteLaws::bytes_8))]
pub fn put8(w: &mut Writer, v: u64)
    ensures { w.new ≡ written w.old (put8 v []) }
{
    w.text(&v.to_be_bytes());
}

// A number of two bytes, if the kind has it.
#[tactic(auto, unfolding(plan_file_laws::specs::Writing::put_word), using(crate::proofs::WriteLaws::bytes_2, writing::proofs::Writings::written_none))]
fn put_word(w: &mut Writer, field: Field, v: u16)
    ensures { w.new ≡ written w.old (put_word (field_code field) v []) }
{
    if field != Field::None {
        w.text(&v.to_be_bytes());
    }
}

// A code, if it stands here.
#[tactic(auto, unfolding(plan_file_laws::specs::Writing::put_code), using(writing::proofs::Writings::written_none))]
fn put_code(w: &mut Writer, here: bool, v: u8)
    ensures { w.new ≡ written w.old (put_code here v []) }
{
    if here {
        w.byte(v);
    }
}

// A literal of n bytes.
#[tactic(auto, unfolding(plan_file_laws::specs::Writing::put_bits), using(crate::proofs::WriteLaws::bytes_4, writing::proofs::Writings::written_none))]
fn put_bits(w: &mut Writer, n: u8, v: u64)
    ensures { w.new ≡ written w.old (put_bits n (clipped_bits n v) []) }
{
    match n {
        4 => w.text(&((v % 4294967296) as u32).to_be_bytes()),
        8 => put8(w, v),
        _ => {}
    }
}

// A record: its kind, its code if that stands first, its numbers, its code if that stands last, its literal.
#[tactic(auto, using(crate::proofs::WriteLaws::record_parts, writing::proofs::Writings::steps))]
fn put_record(w: &mut Writer, x: Record)
    ensures { w.new ≡ written w.old (record_bytes x) }
{
    let row = plan_kinds::row_of(x.kind);
    w.byte(x.kind);
    put_code(w, row.code == 1, x.code);
    put_word(w, row.a, x.a);
    put_word(w, row.b, x.b);
    put_word(w, row.c, x.c);
    put_word(w, row.d, x.d);
    put_code(w, row.code == 3, x.code);
    put_bits(w, row.bits, x.bits);
}

// The kind of the item at place k of the lists of x: items of the kind that its row names, then columns.
fn item_kind(x: Record, k: usize) -> u8
    ensures { result ≡ item_kind x k }
{
    let row = plan_kinds::row_of(x.kind);
    if k < usize::from(plan_kinds::count_of(row, x)) {
        row.item
    } else {
        0x40
    }
}

// The items of the lists of x, which start at st.
#[tactic(auto, unfolding(crate::specs::Written::items_bytes), using(crate::proofs::WriteLaws::lines_loop))]
fn put_items(w: &mut Writer, items: &Items, x: Record, st: u16)
    ensures { w.new ≡ written w.old (items_bytes items.now.a items.now.b x st) }
{
    let row = plan_kinds::row_of(x.kind);
    let n = usize::from(plan_kinds::count_of(row, x)) + usize::from(plan_kinds::more_of(row, x));
    for k in 0..n {
        let item = Record {
            kind: item_kind(x, k),
            ..items.record(usize::from(st) + k)
        };
        put_record(w, item);
    }
}

// A record and its items.
#[tactic(auto, unfolding(crate::specs::Written::listed_bytes), using(writing::proofs::Writings::steps))]
fn put_listed(w: &mut Writer, items: &Items, x: Record, st: u16)
    ensures { w.new ≡ written w.old (listed_bytes items.now.a items.now.b x st) }
{
    put_record(w, x);
    put_items(w, items, x, st);
}

// The whole plan.
#[tactic(auto, unfolding(crate::specs::Written::written_of, crate::specs::Written::columns_bytes), using(crate::proofs::WriteLaws::lines_loop))]
pub fn write(w: &mut Writer, p: &Plan)
    ensures { w.new ≡ written w.old (written_of p.now) }
{
    'columns: for i in 0..usize::from(p.columns.count) {
        put_record(w, p.columns.record(i));
    }
    'expressions: for i in 0..usize::from(p.expressions.count) {
        put_listed(w, &p.items, p.expressions.record(i), p.expressions.start(i));
    }
    'operators: for i in 0..usize::from(p.operators.count) {
        put_listed(w, &p.items, p.operators.record(i), p.operators.start(i));
    }
}
