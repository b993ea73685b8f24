/// A calculation on two registers that cannot trip.
#[derive(Clone, Copy, PartialEq, Eq, Debug)]
pub enum Operation {
    Add,
    Sub,
    Mul,
    And,
    Or,
    Xor,
    Sl,
    Srl,
    Sra,
}

/// What a division keeps.
#[derive(Clone, Copy, PartialEq, Eq, Debug)]
pub enum Part {
    Quotient,
    Remainder,
}

/// The kind of a division: how it reads its operands and rounds its quotient.
#[derive(Clone, Copy, PartialEq, Eq, Debug)]
pub enum Kind {
    Unsigned,
    TowardsZero,
    Downwards,
}

/// How many bytes an access to memory has.
#[derive(Clone, Copy, PartialEq, Eq, Debug)]
pub enum Width {
    One,
    Two,
    Four,
}

/// When a conditional branch is taken.
#[derive(Clone, Copy, PartialEq, Eq, Debug)]
pub enum Test {
    Equal,
    Less,
    LessSigned,
}

/// A decoded instruction. Its fields have the letters that they have in a row.
#[derive(Clone, Copy, PartialEq, Eq, Debug)]
pub enum Instr {
    /// Adds a variable of value 0.
    New,
    /// Adds a constant of value n.
    Def {
        n: u32,
    },
    /// Removes the top register.
    Kill,
    /// Copies b to a.
    Mov {
        a: u8,
        b: u8,
    },
    /// Exchanges a and b.
    Swap {
        a: u8,
        b: u8,
    },
    /// Puts b with c into a.
    Calc {
        operation: Operation,
        a: u8,
        b: u8,
        c: u8,
    },
    /// Puts a part of b divided by c into a.
    Divide {
        part: Part,
        kind: Kind,
        a: u8,
        b: u8,
        c: u8,
    },
    /// Reads memory at b plus n into a.
    Load {
        width: Width,
        a: u8,
        b: u8,
        n: u32,
    },
    /// Writes a to memory at b plus n.
    Store {
        width: Width,
        a: u8,
        b: u8,
        n: u32,
    },
    /// Goes to instruction n.
    Bal {
        n: u32,
    },
    /// Goes to instruction n if a and b pass the test.
    Branch {
        test: Test,
        a: u8,
        b: u8,
        n: u32,
    },
    /// Calls routine n with arguments from b on, for results from a on.
    Call {
        a: u8,
        b: u8,
        n: u32,
    },
    /// Returns the results from a on.
    Ret {
        a: u8,
    },
    /// Reads port c into a.
    Get {
        a: u8,
        c: u8,
    },
    /// Writes b to port c.
    Put {
        b: u8,
        c: u8,
    },
    /// Lets the host advance once.
    Tick,
}
