// Reading a plan file: every byte string gets a plan, or a refusal with its place.
#![tactic(auto)]

ghost use Rattle.std.specs.Prelude.{◌≡◌, ℕ, ◌+◌, ◌≤◌, ◌<◌, true, false, get_or, length, Ok};
ghost use Rattle.plan_kinds.specs.Coding.{field_code, numbered};
ghost use Rattle.plan.specs.Append.{appended};
ghost use Rattle.plan_file.specs.Answer.{answer};
ghost use Rattle.plan_file.specs.Bytes.{word_from, bits_from, record_from};
ghost use Rattle.plan_file.specs.State.{mark, marks, state};
ghost use Rattle.plan_file.specs.Steps.{kind_wanted, kind_ok, scanned_twice, fault_of, append_of, list_of, less_one};
ghost use Rattle.plan_file.specs.Steps.{taken_by, record_step, done_at, is_done, step_of, start_state, read_of};

use plan::{AppendError, Plan};
use plan_kinds::{Before, Field, Record, Row, Sort};

// Why a plan file was refused: the number is the offset where the faulty record starts.
#[derive(Clone, Copy, PartialEq, Eq)]
pub enum ReadError {
    Short(usize),
    Unknown(usize),
    Room(usize),
    Handle(usize),
    ScannedTwice(usize),
}

// The items that are still to come: `left` of the kind `item`, then `more` of the kind 0x40; and whether they are a Scan's.
#[derive(Clone, Copy)]
pub struct Wanted {
    pub item: u8,
    pub left: u16,
    pub more: u16,
    pub scan: bool,
}

// What a reading knows between two records. `scans` has for each column the Scan operator that has it: with it the test for a second Scan takes one
// look.
#[derive(Drop)]
struct Reader {
    at: usize,
    wanted: Wanted,
    scans: [Option<u16>; 64],
    plan: Plan,
}

// The N bytes at a place, with zeros past the end.
fn bytes<const N: usize>(s: &[u8], at: usize) -> [u8; N]
    requires { at + N ≤ 1000 }
    ensures { (i : ℕ) → i < N → get_or result i 0 ≡ get_or s.now (at + i) 0 }
{
    let mut t = [0; N];
    for i in 0..N {
        t[i] = lists::at(s, at + i, 0);
    }
    t
}

// A number of the sort, 0 where the kind has none.
#[tactic(auto, unfolding(crate::specs::Bytes::word_from))]
fn word(s: &[u8], at: usize, field: Field) -> u16
    requires { at ≤ 900 }
    ensures { result ≡ word_from s.now at (field_code field) }
{
    if field == Field::None {
        0
    } else {
        u16::from_be_bytes(bytes(s, at))
    }
}

// A literal of n bytes, which stands right after the kind.
#[tactic(auto, unfolding(crate::specs::Bytes::bits_from))]
fn bits(s: &[u8], n: u8) -> u64
    ensures { result ≡ bits_from s.now n }
{
    match n {
        4 => u64::from(u32::from_be_bytes(bytes(s, 1))),
        8 => u64::from_be_bytes(bytes(s, 1)),
        _ => 0,
    }
}

// The record that begins s, whose kind has the row r. Past the end of s it has zeros: the length is tested apart.
#[tactic(auto, unfolding(crate::specs::Bytes::record_from, crate::specs::Bytes::code_from))]
fn fetch(s: &[u8], r: Row) -> Record
    ensures { result ≡ record_from s.now (numbered r) }
{
    let from = usize::from(r.from);
    Record {
        kind: lists::at(s, 0, 0),
        code: if r.code == 0 {
            0
        } else {
            lists::at(s, usize::from(r.code), 0)
        },
        a: word(s, from, r.a),
        b: word(s, from + 2, r.b),
        c: word(s, from + 4, r.c),
        d: word(s, from + 6, r.d),
        bits: bits(s, r.bits),
    }
}

impl Wanted {
    // The items that are to follow a record.
    fn list_of(r: Row, x: Record) -> Wanted
        ensures { result ≡ list_of (numbered r) x }
    {
        Wanted {
            item: r.item,
            left: plan_kinds::count_of(r, x),
            more: plan_kinds::more_of(r, x),
            scan: x.kind == 0x30,
        }
    }

    // The kind of item that is wanted next; 0, which is no kind, where none is: so the definition has it that the contract names.
    #[tactic(auto, unfolding(crate::specs::Steps::kind_wanted))]
    fn kind(self) -> u8
        ensures { result ≡ kind_wanted self }
    {
        if 0 < self.left {
            self.item
        } else if 0 < self.more {
            0x40
        } else {
            0
        }
    }

    // An item of the wanted kind where one is wanted, else a listed kind that is no item.
    #[tactic(auto, unfolding(crate::specs::Steps::kind_ok))]
    fn allows(self, r: Row, x: Record) -> bool
        ensures { result ≡ kind_ok (numbered r) x self }
    {
        match self.kind() {
            0 => r.sort != Sort::Unknown && r.sort != Sort::Items,
            kind => x.kind == kind,
        }
    }

    // One item less.
    #[tactic(auto, unfolding(crate::specs::Steps::less_one), using(crate::proofs::RecordTests::wanted_more))]
    fn less_one(&mut self)
        requires { kind_wanted self.old ≡ 0 → ⊥ }
        ensures { self.new ≡ less_one self.old }
    {
        if 0 < self.left {
            self.left -= 1;
        } else {
            self.more -= 1;
        }
    }
}

// A record takes the next handle of its sort, an item the next place; a list starts where the next item is to stand.
#[tactic(auto, unfolding(crate::specs::Steps::append_of))]
fn append(p: &mut Plan, r: Row, x: Record) -> Result<u16, AppendError>
    ensures { appended p.new result ≡ append_of p.old (numbered r) x }
{
    let start = p.items.count;
    match r.sort {
        Sort::Columns => p.append_column(x),
        Sort::Expressions => p.append_expr(x, start),
        Sort::Operators => p.append_operator(x, start),
        Sort::Items | Sort::Unknown => p.append_item(x),
    }
}

impl Reader {
    #[tactic(auto, unfolding(crate::specs::Steps::start_state))]
    fn new() -> Reader
        ensures { state result (Ok tt) ≡ start_state }
    {
        Reader {
            at: 0,
            wanted: Wanted {
                item: 0,
                left: 0,
                more: 0,
                scan: false,
            },
            scans: [None; 64],
            plan: Plan::empty(),
        }
    }

    // The last operator: where a Scan's columns are read, that is the Scan.
    fn last_operator(&self) -> Option<u16>
        ensures { mark result ≡ self.now.plan.operators.count }
    {
        self.plan.operators.count.checked_sub(1)
    }

    // Whether the item is a column of a Scan, and another Scan has it.
    fn scanned_twice(&self, r: Row, x: Record) -> bool
        ensures { result ≡ scanned_twice (numbered r) x self.now.wanted (marks self.now.scans) self.now.plan.operators.count }
    {
        let by = lists::at(&self.scans, usize::from(x.a), None);
        r.sort == Sort::Items && self.wanted.scan && by.is_some() && by != self.last_operator()
    }

    // The tests of a record of which n bytes are left, but the one for room, which appending makes.
    #[tactic(auto, unfolding(crate::specs::Steps::fault_of))]
    fn test(&self, r: Row, x: Record, n: usize) -> Result<(), ReadError>
        ensures { result ≡ fault_of (numbered r) x n (state self.now (Ok tt)) }
    {
        let before = Before {
            columns: self.plan.columns.count,
            expressions: self.plan.expressions.count,
            operators: self.plan.operators.count,
        };
        if !self.wanted.allows(r, x) {
            return Err(ReadError::Unknown(self.at));
        }
        if n < usize::from(r.length) {
            return Err(ReadError::Short(self.at));
        }
        if !plan_kinds::code_ok(r, x) {
            return Err(ReadError::Unknown(self.at));
        }
        if !plan_kinds::handles_ok(r, x, before) {
            return Err(ReadError::Handle(self.at));
        }
        if self.scanned_twice(r, x) {
            return Err(ReadError::ScannedTwice(self.at));
        }
        Ok(())
    }

    // The record is taken: what is wanted after it, and which Scan a column of a Scan's list belongs to.
    #[tactic(auto, unfolding(crate::specs::Steps::wanted_after, crate::specs::Steps::scans_after), using(crate::proofs::RecordTests::taking))]
    fn take(&mut self, r: Row, x: Record)
        requires { (self.old.at + r.length < 18446744073709551616) × (kind_ok (numbered r) x self.old.wanted ≡ true) }
        ensures { state self.new (Ok tt) ≡ taken_by (state self.old (Ok tt)) (numbered r) x self.old.plan }
    {
        self.at += usize::from(r.length);
        if r.sort != Sort::Items {
            self.wanted = Wanted::list_of(r, x);
            return;
        }
        if self.wanted.scan {
            let scan = self.last_operator();
            lists::put(&mut self.scans, usize::from(x.a), scan);
        }
        self.wanted.less_one();
    }

    // The record that begins s.
    fn record_step(&mut self, s: &[u8]) -> Result<(), ReadError>
        requires { self.old.at + length s.now < 18446744073709551616 }
        ensures { state self.new result ≡ record_step s.now (state self.old (Ok tt)) }
    {
        let r = plan_kinds::row_of(lists::at(s, 0, 0));
        let x = fetch(s, r);
        self.test(r, x, s.len())?;
        let Ok(_) = append(&mut self.plan, r, x) else {
            return Err(ReadError::Room(self.at));
        };
        self.take(r, x);
        Ok(())
    }

    // Whether the n bytes have been read, with no item wanted.
    fn is_done(&self, n: usize) -> bool
        ensures { result ≡ is_done n (state self.now (Ok tt)) }
    {
        n <= self.at && self.wanted.kind() == 0
    }

    // One record more; where an item is wanted the bytes may end.
    #[tactic(auto, unfolding(crate::specs::Steps::step_of))]
    fn step(&mut self, s: &[u8]) -> Result<(), ReadError>
        requires { is_done (length s.now) (state self.old (Ok tt)) ≡ false }
        ensures { state self.new result ≡ step_of s.now (state self.old (Ok tt)) }
    {
        if s.len() <= self.at {
            return Err(ReadError::Short(self.at));
        }
        self.record_step(&s[self.at..])
    }
}

// Reads a whole plan file.
pub fn read(s: &[u8]) -> Result<Plan, ReadError>
    ensures { answer result ≡ read_of s.now }
{
    let mut q = Reader::new();
    // It ends by the bytes that are left, of which a record takes as many as its kind says: a `for` would need a bound of records.
    while !q.is_done(s.len()) {
        q.step(s)?;
    }
    Ok(q.plan)
}
