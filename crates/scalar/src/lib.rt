// Scalars: their kinds, equality and order, the numbers that they bound by, and a scalar as three numbers.
#![tactic(auto)]

ghost use Rattle.std.specs.Prelude.{◌≡◌};
ghost use Rattle.std.specs.Float.Ieee as Ieee;
ghost use Rattle.std.specs.Float.{binary64};
ghost use Rattle.scalar.specs.Exact.{finite};
ghost use Rattle.scalar.specs.Kinds.{kind_code, kind_of_code, kind_of, is_null, same_kind};
ghost use Rattle.scalar.specs.Scalars.{same_scalar, less_scalar, scalar_to_f64};
ghost use Rattle.scalar.specs.Coded.{case_code, code_of, bits_of, low_signed, scalar_of};

#[derive(Clone, Copy, PartialEq, Eq)]
pub enum Kind {
    Boolean,
    Int32,
    Int64,
    Float64,
    Date32,
}

// Two are equal where variant and payload are: floats as floats, so that the NaN differs from itself.
#[derive(Clone, Copy, PartialEq)]
pub enum ScalarValue {
    Null(Kind),
    Boolean(bool),
    Int32(i32),
    Int64(i64),
    Float64(f64),
    Date32(i32),
}

impl From<Kind> for u8 {
    ghost from_gives = { λ k code. code ≡ kind_code k };

    fn from(k: Kind) -> u8 {
        match k {
            Kind::Boolean => 1,
            Kind::Int32 => 2,
            Kind::Int64 => 3,
            Kind::Float64 => 4,
            Kind::Date32 => 5,
        }
    }
}

// The kind of a code; a number that is no kind's code stands for Boolean.
impl From<u8> for Kind {
    ghost from_gives = { λ code k. k ≡ kind_of_code code };

    fn from(code: u8) -> Kind {
        match code {
            2 => Kind::Int32,
            3 => Kind::Int64,
            4 => Kind::Float64,
            5 => Kind::Date32,
            _ => Kind::Boolean,
        }
    }
}

impl ScalarValue {
    pub fn kind(self) -> Kind
        ensures { result ≡ kind_of self }
    {
        match self {
            ScalarValue::Null(k) => k,
            ScalarValue::Boolean(_) => Kind::Boolean,
            ScalarValue::Int32(_) => Kind::Int32,
            ScalarValue::Int64(_) => Kind::Int64,
            ScalarValue::Float64(_) => Kind::Float64,
            ScalarValue::Date32(_) => Kind::Date32,
        }
    }

    pub fn is_null(self) -> bool
        ensures { result ≡ is_null self }
    {
        matches!(self, ScalarValue::Null(_))
    }

    // Whether it is below another, for two of one variant.
    pub fn is_below(self, other: ScalarValue) -> bool
        ensures { result ≡ less_scalar self other }
    {
        match (self, other) {
            (ScalarValue::Boolean(x), ScalarValue::Boolean(y)) => !x && y,
            (ScalarValue::Int32(x), ScalarValue::Int32(y)) => x < y,
            (ScalarValue::Int64(x), ScalarValue::Int64(y)) => x < y,
            (ScalarValue::Float64(x), ScalarValue::Float64(y)) => x < y,
            (ScalarValue::Date32(x), ScalarValue::Date32(y)) => x < y,
            _ => false,
        }
    }
}

pub fn same_kind(k: Kind, l: Kind) -> bool
    ensures { result ≡ same_kind k l }
{
    k == l
}

pub fn equal(a: ScalarValue, b: ScalarValue) -> bool
    ensures { result ≡ same_scalar a b }
{
    a == b
}

// Whether x is a number.
pub fn is_finite(x: f64) -> bool
    ensures { result ≡ finite x }
{
    let top = f64::from_bits(0x7ff0_0000_0000_0000);
    -top < x && x < top
}

pub fn scalar_to_f64(v: ScalarValue) -> Option<f64>
    ensures { result ≡ scalar_to_f64 v }
{
    match v {
        ScalarValue::Int32(n) => Some(n as f64),
        ScalarValue::Int64(n) => {
            if n < -9007199254740992 {
                return None;
            }
            if 9007199254740992 < n {
                return None;
            }
            Some(n as f64)
        }
        ScalarValue::Float64(x) => { if is_finite(x) { Some(x) } else { None } }
        ScalarValue::Date32(n) => Some(n as f64),
        ScalarValue::Null(_) | ScalarValue::Boolean(_) => None,
    }
}

// The float of a bit pattern. A NaN's pattern is the one NaN.
pub fn float_of_bits(bits: u64) -> f64
    ensures { result ≡ Ieee.of_bits binary64 bits }
{
    if 0x7ff0_0000_0000_0000 < bits % 0x8000_0000_0000_0000 {
        return 0.0 / 0.0;
    }
    f64::from_bits(bits)
}

// The bit pattern of a float, for the NaN the quiet one with its sign clear.
pub fn bits_of_float(x: f64) -> u64
    ensures { result ≡ Ieee.to_bits binary64 x }
{
    if x != x {
        return 0x7ff8_0000_0000_0000;
    }
    f64::to_bits(x)
}

// The low 32 bits in two's complement.
fn low_signed(bits: u64) -> i32
    ensures { result ≡ low_signed bits }
{
    ((bits % 4294967296) as u32).cast_signed()
}

// The scalar of three numbers. Each triple has one, so that tables of plain numbers need no check before they are read.
pub fn scalar_of(case: u8, code: u8, bits: u64) -> ScalarValue
    ensures { result ≡ scalar_of case code bits }
{
    match case {
        0x10 => ScalarValue::Null(Kind::from(code)),
        0x11 => ScalarValue::Boolean(code == 1),
        0x12 => ScalarValue::Int32(low_signed(bits)),
        0x13 => ScalarValue::Int64(bits.cast_signed()),
        0x14 => ScalarValue::Float64(float_of_bits(bits)),
        0x15 => ScalarValue::Date32(low_signed(bits)),
        _ => ScalarValue::Null(Kind::Boolean),
    }
}

pub fn case_of(v: ScalarValue) -> u8
    ensures { result ≡ case_code v }
{
    match v {
        ScalarValue::Null(_) => 0x10,
        ScalarValue::Boolean(_) => 0x11,
        ScalarValue::Int32(_) => 0x12,
        ScalarValue::Int64(_) => 0x13,
        ScalarValue::Float64(_) => 0x14,
        ScalarValue::Date32(_) => 0x15,
    }
}

pub fn code_of(v: ScalarValue) -> u8
    ensures { result ≡ code_of v }
{
    match v {
        ScalarValue::Null(k) => u8::from(k),
        ScalarValue::Boolean(b) => u8::from(b),
        _ => 0,
    }
}

pub fn bits_of(v: ScalarValue) -> u64
    ensures { result ≡ bits_of v }
{
    match v {
        ScalarValue::Null(_) | ScalarValue::Boolean(_) => 0,
        ScalarValue::Int32(n) => u64::from(n.cast_unsigned()),
        ScalarValue::Int64(n) => n.cast_unsigned(),
        ScalarValue::Float64(x) => bits_of_float(x),
        ScalarValue::Date32(n) => u64::from(n.cast_unsigned()),
    }
}
