// The kinds of record in a plan file: the rules' table, a line a kind, and what a record has to keep to.
#![tactic(auto)]

ghost use Rattle.std.specs.Prelude.{◌≡◌, ◌≤◌, get_or, length, map};
ghost use Rattle.plan_kinds.specs.Coding.{sort_code, field_code, numbered};
ghost use Rattle.plan_kinds.specs.Rows.{none, row_of, plain, coded, named, literal};
ghost use Rattle.plan_kinds.specs.Records.{code_ok, bits_ok, handle_ok, handles_ok, count_of, more_of};

use Field::{Column, Count, Expression, Number, Operand, Operator};
use Sort::{Columns, Expressions, Items, Operators, Unknown};

// What the bytes of one record say.
#[derive(Clone, Copy)]
pub struct Record {
    pub kind: u8,
    pub code: u8,
    pub a: u16,
    pub b: u16,
    pub c: u16,
    pub d: u16,
    pub bits: u64,
}

// The sort of a record.
#[derive(Clone, Copy, PartialEq, Eq)]
pub enum Sort {
    Unknown,
    Columns,
    Expressions,
    Operators,
    Items,
}

// The sort of a number in a body: none, any, a handle, an operand (an expression before its nary), how many items follow.
#[derive(Clone, Copy, PartialEq, Eq)]
pub enum Field {
    None,
    Number,
    Column,
    Expression,
    Operator,
    Operand,
    Count,
}

// What a kind says of its record: the sort of the record, its length with the kind's byte, where its code stands and between what it lies, where
// its numbers begin and of what sort each is, the bytes of a literal, and the kind of the items that follow.
#[derive(Clone, Copy)]
pub struct Row {
    pub sort: Sort,
    pub length: u8,
    pub code: u8,
    pub low: u8,
    pub high: u8,
    pub from: u8,
    pub a: Field,
    pub b: Field,
    pub c: Field,
    pub d: Field,
    pub bits: u8,
    pub item: u8,
}

// How many records of each sort stand before a record.
#[derive(Clone, Copy)]
pub struct Before {
    pub columns: u16,
    pub expressions: u16,
    pub operators: u16,
}

// The row of a kind that is not listed.
const UNLISTED: Row = Row {
    sort: Unknown,
    length: 1,
    code: 0,
    low: 0,
    high: 0,
    from: 1,
    a: Field::None,
    b: Field::None,
    c: Field::None,
    d: Field::None,
    bits: 0,
    item: 0,
};

// The sort of number i, none past the last.
#[tactic(auto, using(crate::proofs::Coding::code_at))]
fn field_at(fields: &[Field], i: usize) -> Field
    ensures { field_code result ≡ get_or (map field_code fields.now) i none }
{
    fields.get(i).copied().unwrap_or(Field::None)
}

// The numbers alone.
fn plain(sort: Sort, fields: &[Field], item: u8) -> Row
    requires { length fields.now ≤ 4 }
    ensures { numbered result ≡ plain (sort_code sort) (map field_code fields.now) item }
{
    Row {
        sort,
        length: 1 + 2 * fields.len() as u8,
        a: field_at(fields, 0),
        b: field_at(fields, 1),
        c: field_at(fields, 2),
        d: field_at(fields, 3),
        item,
        ..UNLISTED
    }
}

// A code from low to high, then the numbers.
fn coded(sort: Sort, low: u8, high: u8, fields: &[Field], item: u8) -> Row
    requires { length fields.now ≤ 4 }
    ensures { numbered result ≡ coded (sort_code sort) low high (map field_code fields.now) item }
{
    let row = plain(sort, fields, item);
    Row {
        length: row.length + 1,
        code: 1,
        low,
        high,
        from: 2,
        ..row
    }
}

// A number, then a code from low to high.
fn named(sort: Sort, low: u8, high: u8) -> Row
    ensures { numbered result ≡ named (sort_code sort) low high }
{
    Row {
        length: 4,
        code: 3,
        low,
        high,
        ..plain(sort, &[Number], 0)
    }
}

// A payload of n bytes.
fn literal(n: u8) -> Row
    requires { n ≤ 8 }
    ensures { numbered result ≡ literal n }
{
    Row {
        length: 1 + n,
        bits: n,
        ..plain(Expressions, &[], 0)
    }
}

// The row of the table of kinds; of a kind that is not listed, the row of the unknown sort.
#[tactic(auto, unfolding(crate::specs::Rows::row_of, crate::specs::Rows::line_of))]
pub fn row_of(kind: u8) -> Row
    ensures { numbered result ≡ row_of kind }
{
    match kind {
        0x01 => named(Columns, 1, 5),
        0x10 => coded(Expressions, 1, 5, &[], 0),
        0x11 => coded(Expressions, 0, 1, &[], 0),
        0x12 | 0x15 => literal(4),
        0x13 | 0x14 => literal(8),
        0x20 => plain(Expressions, &[Column], 0),
        0x21 => coded(Expressions, 0, 3, &[Expression], 0),
        0x22 => coded(Expressions, 0, 6, &[Expression, Expression], 0),
        0x23 => coded(Expressions, 0, 1, &[Count], 0x24),
        0x24 => plain(Items, &[Operand], 0),
        0x30 => plain(Operators, &[Number, Count], 0x40),
        0x31 | 0x32 => plain(Operators, &[Count], 0x40),
        0x33 => plain(Operators, &[Expression, Operator], 0),
        0x34 => plain(Operators, &[Operator, Count], 0x40),
        0x35 => plain(Operators, &[Operator, Count], 0x41),
        0x36 => plain(Operators, &[Operator, Count], 0x42),
        0x37 => plain(Operators, &[Operator, Count, Count], 0x43),
        0x38 => plain(Operators, &[Operator, Count], 0x43),
        0x39 | 0x3A => plain(Operators, &[Operator], 0),
        0x3B => plain(Operators, &[Operator, Operator], 0),
        0x3C => coded(Operators, 0, 6, &[Expression, Operator, Operator], 0),
        0x3D => plain(Operators, &[Expression, Operator, Operator, Column], 0),
        0x40 => plain(Items, &[Column], 0),
        0x41 => plain(Items, &[Column, Column], 0),
        0x42 => plain(Items, &[Column, Expression], 0),
        0x43 => plain(Items, &[Expression], 0),
        _ => UNLISTED,
    }
}

// Whether the code is listed.
pub fn code_ok(r: Row, x: Record) -> bool
    ensures { result ≡ code_ok (numbered r) x }
{
    r.low <= x.code && x.code <= r.high
}

// Whether a literal's payload fits the bytes of its kind.
#[tactic(auto, unfolding(crate::specs::Records::bits_ok))]
pub fn bits_ok(r: Row, x: Record) -> bool
    ensures { result ≡ bits_ok (numbered r) x }
{
    match r.bits {
        8 => true,
        4 => x.bits < 0x1_0000_0000,
        _ => x.bits == 0,
    }
}

// Whether v is a handle of an earlier record, by its sort.
#[tactic(auto, unfolding(crate::specs::Records::handle_ok))]
pub fn handle_ok(field: Field, v: u16, before: Before) -> bool
    ensures { result ≡ handle_ok (field_code field) v before.columns before.expressions before.operators }
{
    match field {
        Column => v < before.columns,
        Expression => v < before.expressions,
        Operator => v < before.operators,
        Operand => usize::from(v) + 1 < usize::from(before.expressions),
        Field::None => v == 0,
        Number | Count => true,
    }
}

// The same of all four numbers.
pub fn handles_ok(r: Row, x: Record, before: Before) -> bool
    ensures { result ≡ handles_ok (numbered r) x before.columns before.expressions before.operators }
{
    handle_ok(r.a, x.a, before)
        && handle_ok(r.b, x.b, before)
        && handle_ok(r.c, x.c, before)
        && handle_ok(r.d, x.d, before)
}

// How many items of the row's kind follow a record.
#[tactic(auto, unfolding(crate::specs::Records::count_of))]
pub fn count_of(r: Row, x: Record) -> u16
    ensures { result ≡ count_of (numbered r) x }
{
    if r.a == Count {
        x.a
    } else if r.b == Count {
        x.b
    } else {
        0
    }
}

// How many columns follow after those: an Aggregation's aggregates.
#[tactic(auto, unfolding(crate::specs::Records::more_of))]
pub fn more_of(r: Row, x: Record) -> u16
    ensures { result ≡ more_of (numbered r) x }
{
    if r.c == Count { x.c } else { 0 }
}
