// A plan as a value: columns, expressions, operators and list items in four tables of fixed size, each filled from its start.
#![tactic(auto)]

ghost use Rattle.std.specs.Prelude.{◌≡◌, cond, ltb, get_or};
ghost use Rattle.plan.specs.Plans.{empty_columns, empty_expressions, empty_operators, empty_items, empty_plan, column_pushed, expression_pushed};
ghost use Rattle.plan.specs.Plans.{operator_pushed, item_pushed};
ghost use Rattle.plan.specs.Append.{appended, append_column, append_expr, append_operator, append_item};
ghost use Rattle.plan.specs.Records.{column_record_in, expr_record_in, operator_record_in, item_record_in};

use plan_kinds::Record;

// Handles: three kinds, each a number.
#[derive(Clone, Copy, PartialEq, Eq)]
pub struct Column(pub u16);

#[derive(Clone, Copy, PartialEq, Eq)]
pub struct Expr(pub u16);

#[derive(Clone, Copy, PartialEq, Eq)]
pub struct Operator(pub u16);

// A column's name and the code of its kind.
#[derive(Clone, Copy)]
pub struct Columns {
    pub count: u16,
    pub name: [u16; 64],
    pub kind: [u8; 64],
}

// An expression's record, and where its list starts in the item table.
#[derive(Clone, Copy)]
pub struct Expressions {
    pub count: u16,
    pub kind: [u8; 1024],
    pub code: [u8; 1024],
    pub a: [u16; 1024],
    pub b: [u16; 1024],
    pub start: [u16; 1024],
    pub bits: [u64; 1024],
}

// An operator's record, and where its lists start in the item table.
#[derive(Clone, Copy)]
pub struct Operators {
    pub count: u16,
    pub kind: [u8; 128],
    pub code: [u8; 128],
    pub a: [u16; 128],
    pub b: [u16; 128],
    pub c: [u16; 128],
    pub d: [u16; 128],
    pub start: [u16; 128],
}

// A list item's record.
#[derive(Clone, Copy)]
pub struct Items {
    pub count: u16,
    pub a: [u16; 2048],
    pub b: [u16; 2048],
}

#[derive(Clone, Copy)]
pub struct Plan {
    pub columns: Columns,
    pub expressions: Expressions,
    pub operators: Operators,
    pub items: Items,
}

// Why an entry was not appended: its table is full.
#[derive(Clone, Copy, PartialEq, Eq)]
pub enum AppendError {
    Room,
}

impl Columns {
    pub fn empty() -> Columns
        ensures { result ≡ empty_columns }
    {
        Columns {
            count: 0,
            name: [0; 64],
            kind: [0; 64],
        }
    }

    // The record of column i; past the end of a table stand zeros.
    pub fn record(&self, i: usize) -> Record
        ensures { result ≡ column_record_in self.now i }
    {
        Record {
            kind: 0x01,
            code: lists::at(&self.kind, i, 0),
            a: lists::at(&self.name, i, 0),
            b: 0,
            c: 0,
            d: 0,
            bits: 0,
        }
    }

    // One more at the end; a table that is full stays as it is.
    pub fn push(&mut self, x: Record)
        ensures { self.new ≡ cond (ltb self.old.count 64) (column_pushed self.old x) self.old }
    {
        if self.count < Plan::COLUMNS {
            let i = self.count as usize;
            self.name[i] = x.a;
            self.kind[i] = x.code;
            self.count += 1;
        }
    }
}

impl Expressions {
    pub fn empty() -> Expressions
        ensures { result ≡ empty_expressions }
    {
        Expressions {
            count: 0,
            kind: [0; 1024],
            code: [0; 1024],
            a: [0; 1024],
            b: [0; 1024],
            start: [0; 1024],
            bits: [0; 1024],
        }
    }

    pub fn record(&self, i: usize) -> Record
        ensures { result ≡ expr_record_in self.now i }
    {
        Record {
            kind: lists::at(&self.kind, i, 0),
            code: lists::at(&self.code, i, 0),
            a: lists::at(&self.a, i, 0),
            b: lists::at(&self.b, i, 0),
            c: 0,
            d: 0,
            bits: lists::at(&self.bits, i, 0),
        }
    }

    // Where the list of expression i starts in the item table.
    pub fn start(&self, i: usize) -> u16
        ensures { result ≡ get_or self.now.start i 0 }
    {
        lists::at(&self.start, i, 0)
    }

    pub fn push(&mut self, x: Record, start: u16)
        ensures { self.new ≡ cond (ltb self.old.count 1024) (expression_pushed self.old x start) self.old }
    {
        if self.count < Plan::EXPRESSIONS {
            let i = self.count as usize;
            self.kind[i] = x.kind;
            self.code[i] = x.code;
            self.a[i] = x.a;
            self.b[i] = x.b;
            self.start[i] = start;
            self.bits[i] = x.bits;
            self.count += 1;
        }
    }
}

impl Operators {
    pub fn empty() -> Operators
        ensures { result ≡ empty_operators }
    {
        Operators {
            count: 0,
            kind: [0; 128],
            code: [0; 128],
            a: [0; 128],
            b: [0; 128],
            c: [0; 128],
            d: [0; 128],
            start: [0; 128],
        }
    }

    pub fn record(&self, i: usize) -> Record
        ensures { result ≡ operator_record_in self.now i }
    {
        Record {
            kind: lists::at(&self.kind, i, 0),
            code: lists::at(&self.code, i, 0),
            a: lists::at(&self.a, i, 0),
            b: lists::at(&self.b, i, 0),
            c: lists::at(&self.c, i, 0),
            d: lists::at(&self.d, i, 0),
            bits: 0,
        }
    }

    // Where the lists of operator i start in the item table.
    pub fn start(&self, i: usize) -> u16
        ensures { result ≡ get_or self.now.start i 0 }
    {
        lists::at(&self.start, i, 0)
    }

    pub fn push(&mut self, x: Record, start: u16)
        ensures { self.new ≡ cond (ltb self.old.count 128) (operator_pushed self.old x start) self.old }
    {
        if self.count < Plan::OPERATORS {
            let i = self.count as usize;
            self.kind[i] = x.kind;
            self.code[i] = x.code;
            self.a[i] = x.a;
            self.b[i] = x.b;
            self.c[i] = x.c;
            self.d[i] = x.d;
            self.start[i] = start;
            self.count += 1;
        }
    }
}

impl Items {
    pub fn empty() -> Items
        ensures { result ≡ empty_items }
    {
        Items {
            count: 0,
            a: [0; 2048],
            b: [0; 2048],
        }
    }

    // An item has no kind of its own, its list has.
    pub fn record(&self, i: usize) -> Record
        ensures { result ≡ item_record_in self.now i }
    {
        Record {
            kind: 0,
            code: 0,
            a: lists::at(&self.a, i, 0),
            b: lists::at(&self.b, i, 0),
            c: 0,
            d: 0,
            bits: 0,
        }
    }

    pub fn push(&mut self, x: Record)
        ensures { self.new ≡ cond (ltb self.old.count 2048) (item_pushed self.old x) self.old }
    {
        if self.count < Plan::ITEMS {
            let i = self.count as usize;
            self.a[i] = x.a;
            self.b[i] = x.b;
            self.count += 1;
        }
    }
}

impl Plan {
    pub const COLUMNS: u16 = 64;

    pub const EXPRESSIONS: u16 = 1024;

    pub const OPERATORS: u16 = 128;

    pub const ITEMS: u16 = 2048;

    #[tactic(auto, unfolding(crate::specs::Plans::empty_plan))]
    pub fn empty() -> Plan
        ensures { result ≡ empty_plan }
    {
        Plan {
            columns: Columns::empty(),
            expressions: Expressions::empty(),
            operators: Operators::empty(),
            items: Items::empty(),
        }
    }

    // One column more, and where it stands; where there is no room, the plan stays as it is.
    #[tactic(auto, unfolding(crate::specs::Append::append_column))]
    pub fn append_column(&mut self, x: Record) -> Result<u16, AppendError>
        ensures { appended self.new result ≡ append_column self.old x }
    {
        let n = self.columns.count;
        if Plan::COLUMNS <= n {
            return Err(AppendError::Room);
        }
        self.columns.push(x);
        Ok(n)
    }

    // An expression whose list, if it has one, starts at `start` in the item table.
    #[tactic(auto, unfolding(crate::specs::Append::append_expr))]
    pub fn append_expr(&mut self, x: Record, start: u16) -> Result<u16, AppendError>
        ensures { appended self.new result ≡ append_expr self.old x start }
    {
        let n = self.expressions.count;
        if Plan::EXPRESSIONS <= n {
            return Err(AppendError::Room);
        }
        self.expressions.push(x, start);
        Ok(n)
    }

    #[tactic(auto, unfolding(crate::specs::Append::append_operator))]
    pub fn append_operator(&mut self, x: Record, start: u16) -> Result<u16, AppendError>
        ensures { appended self.new result ≡ append_operator self.old x start }
    {
        let n = self.operators.count;
        if Plan::OPERATORS <= n {
            return Err(AppendError::Room);
        }
        self.operators.push(x, start);
        Ok(n)
    }

    #[tactic(auto, unfolding(crate::specs::Append::append_item))]
    pub fn append_item(&mut self, x: Record) -> Result<u16, AppendError>
        ensures { appended self.new result ≡ append_item self.old x }
    {
        let n = self.items.count;
        if Plan::ITEMS <= n {
            return Err(AppendError::Room);
        }
        self.items.push(x);
        Ok(n)
    }
}
