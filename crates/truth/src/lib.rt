// TRUE, UNKNOWN and FALSE, and what And, Or and Not make of them. A code above 2 is read as UNKNOWN.
// The codes are numbers and no enum, since tables are looked up by them and the replies of the C interface have them.
#![tactic(auto)]

ghost use Rattle.std.specs.Prelude.{◌≡◌, ◌<◌};
ghost use Rattle.truth.specs.Truth.{code_read, and_t, or_t, not_t};

pub const FALSE: u8 = 0;

pub const UNKNOWN: u8 = 1;

pub const TRUE: u8 = 2;

const AND: [[u8; 3]; 3] = [[0, 0, 0], [0, 1, 1], [0, 1, 2]];

const OR: [[u8; 3]; 3] = [[0, 1, 2], [1, 1, 2], [2, 2, 2]];

const NOT: [u8; 3] = [2, 1, 0];

// The row or column of a code in the tables.
fn place(x: u8) -> usize
    ensures code { result ≡ code_read x }
    ensures within { result < 3 }
{
    if x < 3 { usize::from(x) } else { 1 }
}

pub fn and3(a: u8, b: u8) -> u8
    ensures { result ≡ and_t a b }
{
    AND[place(a)][place(b)]
}

pub fn or3(a: u8, b: u8) -> u8
    ensures { result ≡ or_t a b }
{
    OR[place(a)][place(b)]
}

pub fn not3(a: u8) -> u8
    ensures { result ≡ not_t a }
{
    NOT[place(a)]
}
