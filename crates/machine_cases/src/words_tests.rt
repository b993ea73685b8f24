use isa::instr::Kind::{self, Downwards, TowardsZero, Unsigned};
use isa::instr::{Operation, Part, Test};
use std::process::Abort;
use words::calculation::calculate;
use words::division::divide;
use words::test::passes;

// Words at the edges of shifts and of signed words.
const WORDS: [u32; 8] = [0, 1, 31, 32, 33, 0x7FFFFFFF, 0x80000000, 0xFFFFFFFF];

// What is asked of two words.
#[derive(Clone, Copy)]
enum Asked {
    Calculate(Operation),
    Divide(Part, Kind),
}

use Asked::{Calculate, Divide};

fn wants(rt: &impl Abort, asked: Asked, b: u32, c: u32, wanted: Option<u32>) {
    let answer = match asked {
        Calculate(operation) => Some(calculate(operation, b, c)),
        Divide(part, kind) => divide(part, kind, b, c),
    };
    assert_eq!(rt; answer, wanted);
}

// What is asked of each b and each c, and a row of results for each b.
type Table<const N: usize> = (Asked, &'static [[u32; N]; 8]);

// Wants a row of results for each b, with a result for each c of these.
fn gives<const N: usize>(rt: &impl Abort, table: Table<N>, words: &[u32; N]) {
    let (asked, rows) = table;
    for (b, row) in WORDS.iter().zip(rows) {
        for (c, wanted) in words.iter().zip(row) {
            wants(rt, asked, *b, *c, Some(*wanted));
        }
    }
}

const SUMS: [[u32; 8]; 8] = [
    [0, 1, 31, 32, 33, 0x7FFFFFFF, 0x80000000, 0xFFFFFFFF],
    [1, 2, 32, 33, 34, 0x80000000, 0x80000001, 0],
    [31, 32, 62, 63, 64, 0x8000001E, 0x8000001F, 30],
    [32, 33, 63, 64, 65, 0x8000001F, 0x80000020, 31],
    [33, 34, 64, 65, 66, 0x80000020, 0x80000021, 32],
    [
        0x7FFFFFFF, 0x80000000, 0x8000001E, 0x8000001F, 0x80000020, 0xFFFFFFFE, 0xFFFFFFFF,
        0x7FFFFFFE,
    ],
    [
        0x80000000, 0x80000001, 0x8000001F, 0x80000020, 0x80000021, 0xFFFFFFFF, 0, 0x7FFFFFFF,
    ],
    [
        0xFFFFFFFF, 0, 30, 31, 32, 0x7FFFFFFE, 0x7FFFFFFF, 0xFFFFFFFE,
    ],
];

const DIFFERENCES: [[u32; 8]; 8] = [
    [
        0, 0xFFFFFFFF, 0xFFFFFFE1, 0xFFFFFFE0, 0xFFFFFFDF, 0x80000001, 0x80000000, 1,
    ],
    [
        1, 0, 0xFFFFFFE2, 0xFFFFFFE1, 0xFFFFFFE0, 0x80000002, 0x80000001, 2,
    ],
    [
        31, 30, 0, 0xFFFFFFFF, 0xFFFFFFFE, 0x80000020, 0x8000001F, 32,
    ],
    [32, 31, 1, 0, 0xFFFFFFFF, 0x80000021, 0x80000020, 33],
    [33, 32, 2, 1, 0, 0x80000022, 0x80000021, 34],
    [
        0x7FFFFFFF, 0x7FFFFFFE, 0x7FFFFFE0, 0x7FFFFFDF, 0x7FFFFFDE, 0, 0xFFFFFFFF, 0x80000000,
    ],
    [
        0x80000000, 0x7FFFFFFF, 0x7FFFFFE1, 0x7FFFFFE0, 0x7FFFFFDF, 1, 0, 0x80000001,
    ],
    [
        0xFFFFFFFF, 0xFFFFFFFE, 0xFFFFFFE0, 0xFFFFFFDF, 0xFFFFFFDE, 0x80000000, 0x7FFFFFFF, 0,
    ],
];

const PRODUCTS: [[u32; 8]; 8] = [
    [0, 0, 0, 0, 0, 0, 0, 0],
    [0, 1, 31, 32, 33, 0x7FFFFFFF, 0x80000000, 0xFFFFFFFF],
    [
        0, 31, 0x3C1, 0x3E0, 0x3FF, 0x7FFFFFE1, 0x80000000, 0xFFFFFFE1,
    ],
    [0, 32, 0x3E0, 0x400, 0x420, 0xFFFFFFE0, 0, 0xFFFFFFE0],
    [
        0, 33, 0x3FF, 0x420, 0x441, 0x7FFFFFDF, 0x80000000, 0xFFFFFFDF,
    ],
    [
        0, 0x7FFFFFFF, 0x7FFFFFE1, 0xFFFFFFE0, 0x7FFFFFDF, 1, 0x80000000, 0x80000001,
    ],
    [
        0, 0x80000000, 0x80000000, 0, 0x80000000, 0x80000000, 0, 0x80000000,
    ],
    [
        0, 0xFFFFFFFF, 0xFFFFFFE1, 0xFFFFFFE0, 0xFFFFFFDF, 0x80000001, 0x80000000, 1,
    ],
];

const ANDS: [[u32; 8]; 8] = [
    [0, 0, 0, 0, 0, 0, 0, 0],
    [0, 1, 1, 0, 1, 1, 0, 1],
    [0, 1, 31, 0, 1, 31, 0, 31],
    [0, 0, 0, 32, 32, 32, 0, 32],
    [0, 1, 1, 32, 33, 33, 0, 33],
    [0, 1, 31, 32, 33, 0x7FFFFFFF, 0, 0x7FFFFFFF],
    [0, 0, 0, 0, 0, 0, 0x80000000, 0x80000000],
    [0, 1, 31, 32, 33, 0x7FFFFFFF, 0x80000000, 0xFFFFFFFF],
];

const ORS: [[u32; 8]; 8] = [
    [0, 1, 31, 32, 33, 0x7FFFFFFF, 0x80000000, 0xFFFFFFFF],
    [1, 1, 31, 33, 33, 0x7FFFFFFF, 0x80000001, 0xFFFFFFFF],
    [31, 31, 31, 63, 63, 0x7FFFFFFF, 0x8000001F, 0xFFFFFFFF],
    [32, 33, 63, 32, 33, 0x7FFFFFFF, 0x80000020, 0xFFFFFFFF],
    [33, 33, 63, 33, 33, 0x7FFFFFFF, 0x80000021, 0xFFFFFFFF],
    [
        0x7FFFFFFF, 0x7FFFFFFF, 0x7FFFFFFF, 0x7FFFFFFF, 0x7FFFFFFF, 0x7FFFFFFF, 0xFFFFFFFF,
        0xFFFFFFFF,
    ],
    [
        0x80000000, 0x80000001, 0x8000001F, 0x80000020, 0x80000021, 0xFFFFFFFF, 0x80000000,
        0xFFFFFFFF,
    ],
    [
        0xFFFFFFFF, 0xFFFFFFFF, 0xFFFFFFFF, 0xFFFFFFFF, 0xFFFFFFFF, 0xFFFFFFFF, 0xFFFFFFFF,
        0xFFFFFFFF,
    ],
];

const XORS: [[u32; 8]; 8] = [
    [0, 1, 31, 32, 33, 0x7FFFFFFF, 0x80000000, 0xFFFFFFFF],
    [1, 0, 30, 33, 32, 0x7FFFFFFE, 0x80000001, 0xFFFFFFFE],
    [31, 30, 0, 63, 62, 0x7FFFFFE0, 0x8000001F, 0xFFFFFFE0],
    [32, 33, 63, 0, 1, 0x7FFFFFDF, 0x80000020, 0xFFFFFFDF],
    [33, 32, 62, 1, 0, 0x7FFFFFDE, 0x80000021, 0xFFFFFFDE],
    [
        0x7FFFFFFF, 0x7FFFFFFE, 0x7FFFFFE0, 0x7FFFFFDF, 0x7FFFFFDE, 0, 0xFFFFFFFF, 0x80000000,
    ],
    [
        0x80000000, 0x80000001, 0x8000001F, 0x80000020, 0x80000021, 0xFFFFFFFF, 0, 0x7FFFFFFF,
    ],
    [
        0xFFFFFFFF, 0xFFFFFFFE, 0xFFFFFFE0, 0xFFFFFFDF, 0xFFFFFFDE, 0x80000000, 0x7FFFFFFF, 0,
    ],
];

const LEFT: [[u32; 8]; 8] = [
    [0, 0, 0, 0, 0, 0, 0, 0],
    [1, 2, 0x80000000, 0, 0, 0, 0, 0],
    [31, 62, 0x80000000, 0, 0, 0, 0, 0],
    [32, 64, 0, 0, 0, 0, 0, 0],
    [33, 66, 0x80000000, 0, 0, 0, 0, 0],
    [0x7FFFFFFF, 0xFFFFFFFE, 0x80000000, 0, 0, 0, 0, 0],
    [0x80000000, 0, 0, 0, 0, 0, 0, 0],
    [0xFFFFFFFF, 0xFFFFFFFE, 0x80000000, 0, 0, 0, 0, 0],
];

const RIGHT: [[u32; 8]; 8] = [
    [0, 0, 0, 0, 0, 0, 0, 0],
    [1, 0, 0, 0, 0, 0, 0, 0],
    [31, 15, 0, 0, 0, 0, 0, 0],
    [32, 16, 0, 0, 0, 0, 0, 0],
    [33, 16, 0, 0, 0, 0, 0, 0],
    [0x7FFFFFFF, 0x3FFFFFFF, 0, 0, 0, 0, 0, 0],
    [0x80000000, 0x40000000, 1, 0, 0, 0, 0, 0],
    [0xFFFFFFFF, 0x7FFFFFFF, 1, 0, 0, 0, 0, 0],
];

const SIGNED: [[u32; 8]; 8] = [
    [0, 0, 0, 0, 0, 0, 0, 0],
    [1, 0, 0, 0, 0, 0, 0, 0],
    [31, 15, 0, 0, 0, 0, 0, 0],
    [32, 16, 0, 0, 0, 0, 0, 0],
    [33, 16, 0, 0, 0, 0, 0, 0],
    [0x7FFFFFFF, 0x3FFFFFFF, 0, 0, 0, 0, 0, 0],
    [
        0x80000000, 0xC0000000, 0xFFFFFFFF, 0xFFFFFFFF, 0xFFFFFFFF, 0xFFFFFFFF, 0xFFFFFFFF,
        0xFFFFFFFF,
    ],
    [
        0xFFFFFFFF, 0xFFFFFFFF, 0xFFFFFFFF, 0xFFFFFFFF, 0xFFFFFFFF, 0xFFFFFFFF, 0xFFFFFFFF,
        0xFFFFFFFF,
    ],
];

static CALCULATIONS: [Table<8>; 9] = [
    (Calculate(Operation::Add), &SUMS),
    (Calculate(Operation::Sub), &DIFFERENCES),
    (Calculate(Operation::Mul), &PRODUCTS),
    (Calculate(Operation::And), &ANDS),
    (Calculate(Operation::Or), &ORS),
    (Calculate(Operation::Xor), &XORS),
    (Calculate(Operation::Sl), &LEFT),
    (Calculate(Operation::Srl), &RIGHT),
    (Calculate(Operation::Sra), &SIGNED),
];

#[test]
fn calculations_at_the_edges(rt: HostRuntime) {
    for table in &CALCULATIONS {
        gives(&rt, *table, &WORDS);
    }
}

// The highest bit, shifted by four.
static SHIFTS: [(Operation, u32); 3] = [
    (Operation::Sl, 0),
    (Operation::Srl, 0x08000000),
    (Operation::Sra, 0xF8000000),
];

#[test]
fn shifts_by_four(rt: HostRuntime) {
    for (operation, result) in &SHIFTS {
        wants(&rt, Calculate(*operation), 0x80000000, 4, Some(*result));
    }
}

// Two words, a kind, and the quotient and the remainder of the one by the other.
static DIVISIONS: [(u32, u32, Kind, u32, u32); 30] = [
    (4294967289, 2, Unsigned, 2147483644, 1),
    (4294967289, 2, TowardsZero, 4294967293, 4294967295),
    (4294967289, 2, Downwards, 4294967292, 1),
    (7, 4294967294, Unsigned, 0, 7),
    (7, 4294967294, TowardsZero, 4294967293, 1),
    (7, 4294967294, Downwards, 4294967292, 4294967295),
    (2147483648, 4294967295, Unsigned, 0, 2147483648),
    (2147483648, 4294967295, TowardsZero, 2147483648, 0),
    (2147483648, 4294967295, Downwards, 2147483648, 0),
    (4294967289, 4294967294, Unsigned, 0, 4294967289),
    (4294967289, 4294967294, TowardsZero, 3, 4294967295),
    (4294967289, 4294967294, Downwards, 3, 4294967295),
    (7, 2, Unsigned, 3, 1),
    (7, 2, TowardsZero, 3, 1),
    (7, 2, Downwards, 3, 1),
    (4294967288, 2, Unsigned, 2147483644, 0),
    (4294967288, 2, TowardsZero, 4294967292, 0),
    (4294967288, 2, Downwards, 4294967292, 0),
    (2147483648, 1, Unsigned, 2147483648, 0),
    (2147483648, 1, TowardsZero, 2147483648, 0),
    (2147483648, 1, Downwards, 2147483648, 0),
    (1, 2147483648, Unsigned, 0, 1),
    (1, 2147483648, TowardsZero, 0, 1),
    (1, 2147483648, Downwards, 4294967295, 2147483649),
    (2147483647, 2147483648, Unsigned, 0, 2147483647),
    (2147483647, 2147483648, TowardsZero, 0, 2147483647),
    (2147483647, 2147483648, Downwards, 4294967295, 4294967295),
    (0, 4294967295, Unsigned, 0, 0),
    (0, 4294967295, TowardsZero, 0, 0),
    (0, 4294967295, Downwards, 0, 0),
];

#[test]
fn quotients_and_remainders(rt: HostRuntime) {
    for (b, c, kind, quotient, remainder) in &DIVISIONS {
        wants(&rt, Divide(Part::Quotient, *kind), *b, *c, Some(*quotient));
        wants(
            &rt,
            Divide(Part::Remainder, *kind),
            *b,
            *c,
            Some(*remainder),
        );
    }
}

const QUOTIENTS_UNSIGNED: [[u32; 7]; 8] = [
    [0, 0, 0, 0, 0, 0, 0],
    [1, 0, 0, 0, 0, 0, 0],
    [31, 1, 0, 0, 0, 0, 0],
    [32, 1, 1, 0, 0, 0, 0],
    [33, 1, 1, 1, 0, 0, 0],
    [0x7FFFFFFF, 0x04210842, 0x03FFFFFF, 0x03E0F83E, 1, 0, 0],
    [0x80000000, 0x04210842, 0x04000000, 0x03E0F83E, 1, 1, 0],
    [0xFFFFFFFF, 0x08421084, 0x07FFFFFF, 0x07C1F07C, 2, 1, 1],
];

const QUOTIENTS_TOWARDS_ZERO: [[u32; 7]; 8] = [
    [0, 0, 0, 0, 0, 0, 0],
    [1, 0, 0, 0, 0, 0, 0xFFFFFFFF],
    [31, 1, 0, 0, 0, 0, 0xFFFFFFE1],
    [32, 1, 1, 0, 0, 0, 0xFFFFFFE0],
    [33, 1, 1, 1, 0, 0, 0xFFFFFFDF],
    [
        0x7FFFFFFF, 0x04210842, 0x03FFFFFF, 0x03E0F83E, 1, 0, 0x80000001,
    ],
    [
        0x80000000, 0xFBDEF7BE, 0xFC000000, 0xFC1F07C2, 0xFFFFFFFF, 1, 0x80000000,
    ],
    [0xFFFFFFFF, 0, 0, 0, 0, 0, 1],
];

const QUOTIENTS_DOWNWARDS: [[u32; 7]; 8] = [
    [0, 0, 0, 0, 0, 0, 0],
    [1, 0, 0, 0, 0, 0xFFFFFFFF, 0xFFFFFFFF],
    [31, 1, 0, 0, 0, 0xFFFFFFFF, 0xFFFFFFE1],
    [32, 1, 1, 0, 0, 0xFFFFFFFF, 0xFFFFFFE0],
    [33, 1, 1, 1, 0, 0xFFFFFFFF, 0xFFFFFFDF],
    [
        0x7FFFFFFF, 0x04210842, 0x03FFFFFF, 0x03E0F83E, 1, 0xFFFFFFFF, 0x80000001,
    ],
    [
        0x80000000, 0xFBDEF7BD, 0xFC000000, 0xFC1F07C1, 0xFFFFFFFE, 1, 0x80000000,
    ],
    [
        0xFFFFFFFF, 0xFFFFFFFF, 0xFFFFFFFF, 0xFFFFFFFF, 0xFFFFFFFF, 0, 1,
    ],
];

const REMAINDERS_UNSIGNED: [[u32; 7]; 8] = [
    [0, 0, 0, 0, 0, 0, 0],
    [0, 1, 1, 1, 1, 1, 1],
    [0, 0, 31, 31, 31, 31, 31],
    [0, 1, 0, 32, 32, 32, 32],
    [0, 2, 1, 0, 33, 33, 33],
    [0, 1, 31, 1, 0, 0x7FFFFFFF, 0x7FFFFFFF],
    [0, 2, 0, 2, 1, 0, 0x80000000],
    [0, 3, 31, 3, 1, 0x7FFFFFFF, 0],
];

const REMAINDERS_TOWARDS_ZERO: [[u32; 7]; 8] = [
    [0, 0, 0, 0, 0, 0, 0],
    [0, 1, 1, 1, 1, 1, 0],
    [0, 0, 31, 31, 31, 31, 0],
    [0, 1, 0, 32, 32, 32, 0],
    [0, 2, 1, 0, 33, 33, 0],
    [0, 1, 31, 1, 0, 0x7FFFFFFF, 0],
    [0, 0xFFFFFFFE, 0, 0xFFFFFFFE, 0xFFFFFFFF, 0, 0],
    [
        0, 0xFFFFFFFF, 0xFFFFFFFF, 0xFFFFFFFF, 0xFFFFFFFF, 0xFFFFFFFF, 0,
    ],
];

const REMAINDERS_DOWNWARDS: [[u32; 7]; 8] = [
    [0, 0, 0, 0, 0, 0, 0],
    [0, 1, 1, 1, 1, 0x80000001, 0],
    [0, 0, 31, 31, 31, 0x8000001F, 0],
    [0, 1, 0, 32, 32, 0x80000020, 0],
    [0, 2, 1, 0, 33, 0x80000021, 0],
    [0, 1, 31, 1, 0, 0xFFFFFFFF, 0],
    [0, 29, 0, 31, 0x7FFFFFFE, 0, 0],
    [0, 30, 31, 32, 0x7FFFFFFE, 0xFFFFFFFF, 0],
];

static QUOTIENTS_AND_REMAINDERS: [Table<7>; 6] = [
    (Divide(Part::Quotient, Unsigned), &QUOTIENTS_UNSIGNED),
    (Divide(Part::Quotient, TowardsZero), &QUOTIENTS_TOWARDS_ZERO),
    (Divide(Part::Quotient, Downwards), &QUOTIENTS_DOWNWARDS),
    (Divide(Part::Remainder, Unsigned), &REMAINDERS_UNSIGNED),
    (
        Divide(Part::Remainder, TowardsZero),
        &REMAINDERS_TOWARDS_ZERO,
    ),
    (Divide(Part::Remainder, Downwards), &REMAINDERS_DOWNWARDS),
];

// The words but 0.
const DIVISORS: [u32; 7] = [1, 31, 32, 33, 0x7FFFFFFF, 0x80000000, 0xFFFFFFFF];

#[test]
fn divisions_at_the_edges(rt: HostRuntime) {
    for table in &QUOTIENTS_AND_REMAINDERS {
        gives(&rt, *table, &DIVISORS);
    }
}

#[test]
fn no_quotient_by_zero(rt: HostRuntime) {
    for word in WORDS {
        for kind in [Unsigned, TowardsZero, Downwards] {
            wants(&rt, Divide(Part::Quotient, kind), word, 0, None);
            wants(&rt, Divide(Part::Remainder, kind), word, 0, None);
        }
    }
}

// Two words, and which tests they pass: equal, below, and below as signed.
static COMPARISONS: [(u32, u32, (bool, bool, bool)); 11] = [
    (0, 0, (true, false, false)),
    (0, 1, (false, true, true)),
    (1, 0, (false, false, false)),
    (1, 4294967295, (false, true, false)),
    (4294967295, 1, (false, false, true)),
    (4294967295, 4294967295, (true, false, false)),
    (2147483647, 2147483648, (false, true, false)),
    (2147483648, 2147483647, (false, false, true)),
    (2147483648, 4294967295, (false, true, true)),
    (4294967295, 2147483648, (false, false, false)),
    (4294967295, 0, (false, false, true)),
];

#[test]
fn comparisons_at_the_edges(rt: HostRuntime) {
    for (a, b, wanted) in &COMPARISONS {
        let passed = (
            passes(Test::Equal, *a, *b),
            passes(Test::Less, *a, *b),
            passes(Test::LessSigned, *a, *b),
        );
        assert_eq!(rt; passed, *wanted);
    }
}

// The same words as signed: here too the lowest stands first.
const WORDS_AS_SIGNED: [u32; 8] = [0x80000000, 0xFFFFFFFF, 0, 1, 31, 32, 33, 0x7FFFFFFF];

// Wants words that stand in order to pass this test for that.
fn in_order(rt: &impl Abort, words: &[u32; 8], less: Test) {
    for (i, a) in words.iter().enumerate() {
        for (j, b) in words.iter().enumerate() {
            let passed = (passes(Test::Equal, *a, *b), passes(less, *a, *b));
            assert_eq!(rt; passed, (i == j, i < j));
        }
    }
}

#[test]
fn words_are_in_order(rt: HostRuntime) {
    in_order(&rt, &WORDS, Test::Less);
    in_order(&rt, &WORDS_AS_SIGNED, Test::LessSigned);
}
