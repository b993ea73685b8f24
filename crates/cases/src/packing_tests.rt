use crate::build::RAMP;
use crate::written::{holds, room};
use isa::row::Row;
use module::check::examine;
use module::checked::Checked;
use module::entry::Entry;
use module::shape::ShapeRow;
use packing::pack::pack;
use packing::parts::Parts;
use packing::repack::repack;
use packing::unpack::unpack;
use refusal::{Place, Refusal};
use std::process::Abort;

// Macros, since the value of a constant calls no function.
macro_rules! entry {
    ($count:expr, $arguments:expr, $results:expr) => {
        Entry {
            count: $count,
            arguments: $arguments,
            results: $results,
        }
    };
}

macro_rules! row {
    ($op:expr, $a:expr, $b:expr, $c:expr, $n:expr) => {
        Row {
            op: $op,
            a: $a,
            b: $b,
            c: $c,
            n: $n,
        }
    };
}

macro_rules! place {
    ($routine:expr, $instruction:expr) => {
        Place {
            routine: $routine,
            instruction: $instruction,
        }
    };
}

// What entries, rows and output hold that no call wrote.
const OTHER_ENTRY: Entry = entry!(9, 9, 9);

const OTHER_ROW: Row = row!(99, 99, 99, 99, 99);

const OTHER_BYTE: u8 = 0xEE;

// What the ramp is made of.
const RAMP_PARTS: Parts<'static> = Parts {
    entries: &[entry!(6, 0, 0)],
    rows: &[
        NEW,
        row!(1, 0, 0, 0, 1200),
        row!(25, 0, 1, 0, 0),
        row!(26, 0, 0, 0, 0),
        row!(24, 0, 0, 2, 0),
        RET,
    ],
    image: &[],
};

// The module of two routines in the documents.
const TWO_ROUTINES: [u8; 111] = [
    0x02, 0x00, 0x03, 0x00, 0x14, 0x00, 0x00, 0x00, 0x08, 0x00, 0x00, 0x00, 0x54, 0x00, 0x00, 0x00,
    0x03, 0x00, 0x02, 0x01, 0x00, 0x00, 0x00, 0x00, 0x00, 0x00, 0x00, 0x00, 0x00, 0x00, 0x00, 0x00,
    0x00, 0x00, 0x00, 0x00, 0x01, 0x00, 0x00, 0x00, 0x00, 0x00, 0x00, 0x00, 0x10, 0x00, 0x02, 0x02,
    0x00, 0x00, 0x00, 0x00, 0x10, 0x01, 0x02, 0x01, 0x02, 0x00, 0x00, 0x00, 0x16, 0x00, 0x00, 0x00,
    0x01, 0x00, 0x00, 0x00, 0x19, 0x00, 0x00, 0x00, 0x00, 0x00, 0x00, 0x00, 0x17, 0x00, 0x00, 0x00,
    0x00, 0x00, 0x00, 0x00, 0x14, 0x00, 0x01, 0x00, 0x02, 0x00, 0x00, 0x00, 0x03, 0x00, 0x01, 0x00,
    0x00, 0x00, 0x00, 0x00, 0x17, 0x00, 0x00, 0x00, 0x00, 0x00, 0x00, 0x00, 0xDC, 0x05, 0xC8,
];

// What it is made of.
const ENTRIES: [Entry; 2] = [entry!(8, 0, 0), entry!(3, 2, 1)];

const ROWS: [Row; 11] = [NEW, NEW, ZERO, FIRST, SECOND, CALL, PUT, RET, BLT, MOV, RET];

const IMAGE: [u8; 3] = [0xDC, 0x05, 0xC8];

const NEW: Row = row!(0, 0, 0, 0, 0);

const ZERO: Row = row!(1, 0, 0, 0, 0);

const FIRST: Row = row!(16, 0, 2, 2, 0);

const SECOND: Row = row!(16, 1, 2, 1, 2);

const CALL: Row = row!(22, 0, 0, 0, 1);

const PUT: Row = row!(25, 0, 0, 0, 0);

const BLT: Row = row!(20, 0, 1, 0, 2);

const MOV: Row = row!(3, 0, 1, 0, 0);

const RET: Row = row!(23, 0, 0, 0, 0);

// Not well formed: with an n, with a b, and of no opcode.
const MOV_N: Row = row!(3, 0, 1, 0, 1);

const RET_B: Row = row!(23, 0, 1, 0, 0);

const UNKNOWN: Row = row!(27, 0, 0, 0, 0);

// To what is absent: a routine, a register, and an instruction.
const CALL_2: Row = row!(22, 0, 0, 0, 2);

const MOV_DEEP: Row = row!(3, 0, 2, 0, 0);

const BLT_FAR: Row = row!(20, 0, 1, 0, 3);

const PARTS: Parts<'static> = Parts {
    entries: &ENTRIES,
    rows: &ROWS,
    image: &IMAGE,
};

// The parts of 64 routines of one RET.
const MANY_ROUTINES: Parts<'static> = Parts {
    entries: &[entry!(1, 0, 0); 64],
    rows: &[RET; 64],
    image: &[],
};

const NO_PARTS: Parts<'static> = Parts {
    entries: &[],
    rows: &[],
    image: &[],
};

// Over a sheet that is long enough for every module of the tests.
fn checked(bytes: &[u8]) -> Result<Checked<'_>, Refusal> {
    examine(bytes, &mut [ShapeRow::BLANK; 64])
}

// A call of unpack: the module, and how many entries and rows there is room for. What it answers and writes, and the image.
struct Unpack {
    bytes: &'static [u8],
    room: (usize, usize),
    answer: Result<(usize, usize), Refusal>,
    written: Parts<'static>,
    image: &'static [u8],
}

static UNPACKED: [Unpack; 6] = [
    Unpack {
        bytes: &RAMP,
        room: (4, 9),
        answer: Ok((1, 6)),
        written: RAMP_PARTS,
        image: &[],
    },
    // as in the documents
    Unpack {
        bytes: &TWO_ROUTINES,
        room: (4, 12),
        answer: Ok((2, 11)),
        written: PARTS,
        image: &IMAGE,
    },
    // just enough room
    Unpack {
        bytes: &TWO_ROUTINES,
        room: (2, 11),
        answer: Ok((2, 11)),
        written: PARTS,
        image: &IMAGE,
    },
    // one too few changes nothing
    Unpack {
        bytes: &TWO_ROUTINES,
        room: (1, 11),
        answer: Err(Refusal::Room),
        written: NO_PARTS,
        image: &IMAGE,
    },
    Unpack {
        bytes: &TWO_ROUTINES,
        room: (2, 10),
        answer: Err(Refusal::Room),
        written: NO_PARTS,
        image: &IMAGE,
    },
    Unpack {
        bytes: &TWO_ROUTINES,
        room: (0, 0),
        answer: Err(Refusal::Room),
        written: NO_PARTS,
        image: &IMAGE,
    },
];

#[test]
fn unpack_writes_what_there_is_room_for(rt: HostRuntime) {
    for case in &UNPACKED {
        let mut entries = [OTHER_ENTRY; 4];
        let mut rows = [OTHER_ROW; 12];
        let (most_entries, most_rows) = case.room;
        let checked = checked(case.bytes).expect(&rt, "a module");
        let answer = unpack(
            &checked,
            room(&rt, &mut entries, most_entries),
            room(&rt, &mut rows, most_rows),
        );
        assert_eq!(rt; answer, case.answer);
        holds(&rt, &entries, case.written.entries, &OTHER_ENTRY);
        holds(&rt, &rows, case.written.rows, &OTHER_ROW);
        assert!(rt; checked.image() == case.image);
    }
}

// A call of pack: the parts, and how many bytes there is room for. What it answers and writes.
#[derive(Clone, Copy)]
struct Pack {
    parts: Parts<'static>,
    room: usize,
    answer: Result<usize, Refusal>,
    written: &'static [u8],
}

static PACKED: [Pack; 5] = [
    Pack {
        parts: RAMP_PARTS,
        room: 63,
        answer: Ok(60),
        written: &RAMP,
    },
    // as in the documents
    Pack {
        parts: PARTS,
        room: 113,
        answer: Ok(111),
        written: &TWO_ROUTINES,
    },
    // just enough room, and one byte less
    Pack {
        parts: PARTS,
        room: 111,
        answer: Ok(111),
        written: &TWO_ROUTINES,
    },
    Pack {
        parts: PARTS,
        room: 110,
        answer: Err(Refusal::Room),
        written: &[],
    },
    // the rows come before the room
    Pack {
        parts: Parts {
            rows: &[
                NEW, NEW, ZERO, FIRST, SECOND, CALL, PUT, RET, BLT, MOV_N, RET_B,
            ],
            ..PARTS
        },
        room: 110,
        answer: Err(Refusal::Form(place!(1, 1))),
        written: &[],
    },
];

// What pack refuses, over 113 bytes.
static REFUSED: [(Parts<'static>, Refusal); 17] = [
    // counts
    (
        Parts {
            entries: &[],
            ..PARTS
        },
        Refusal::Counts,
    ),
    (
        Parts {
            entries: &[entry!(1, 0, 0); 65],
            ..PARTS
        },
        Refusal::Counts,
    ),
    (
        Parts {
            entries: &[entry!(8, 0, 0), entry!(0, 2, 1)],
            rows: &ROWS,
            image: &[0; 4097],
        },
        Refusal::Counts,
    ),
    // the first wrong entry
    (
        Parts {
            entries: &[entry!(8, 0, 0), entry!(0, 2, 1)],
            ..PARTS
        },
        Refusal::Entry(1),
    ),
    (
        Parts {
            entries: &[entry!(8, 0, 0), entry!(3, 33, 1)],
            ..PARTS
        },
        Refusal::Entry(1),
    ),
    (
        Parts {
            entries: &[entry!(8, 0, 0), entry!(3, 2, 9)],
            ..PARTS
        },
        Refusal::Entry(1),
    ),
    (
        Parts {
            entries: &[entry!(8, 0, 0), entry!(4089, 2, 1)],
            ..PARTS
        },
        Refusal::Entry(1),
    ),
    (
        Parts {
            entries: &[
                entry!(8, 0, 0),
                entry!(3, 2, 1),
                OTHER_ENTRY,
                entry!(0, 0, 0),
            ],
            ..PARTS
        },
        Refusal::Entry(2),
    ),
    // another number of rows than the entries count, at the last routine
    (
        Parts {
            entries: &[entry!(8, 0, 0), entry!(3, 2, 1), entry!(1, 0, 0)],
            ..PARTS
        },
        Refusal::Entry(2),
    ),
    (
        Parts {
            entries: &[entry!(7, 0, 0), entry!(3, 2, 1)],
            ..PARTS
        },
        Refusal::Entry(1),
    ),
    (
        Parts {
            rows: &[NEW, NEW, ZERO, FIRST, SECOND, CALL, PUT, RET, BLT, MOV],
            ..PARTS
        },
        Refusal::Entry(1),
    ),
    // and rows are not looked at
    (
        Parts {
            rows: &[OTHER_ROW; 12],
            ..PARTS
        },
        Refusal::Entry(1),
    ),
    // a wrong entry comes first
    (
        Parts {
            entries: &[entry!(0, 0, 0), entry!(3, 2, 1)],
            rows: &[],
            image: &IMAGE,
        },
        Refusal::Entry(0),
    ),
    // the first row that is not well formed
    (
        Parts {
            rows: &[
                NEW, NEW, ZERO, FIRST, SECOND, CALL, PUT, RET, BLT, MOV, RET_B,
            ],
            ..PARTS
        },
        Refusal::Form(place!(1, 2)),
    ),
    (
        Parts {
            rows: &[
                NEW, NEW, ZERO, FIRST, SECOND, CALL, PUT, RET, BLT, MOV_N, RET_B,
            ],
            ..PARTS
        },
        Refusal::Form(place!(1, 1)),
    ),
    (
        Parts {
            entries: &[entry!(7, 0, 0), entry!(4, 2, 1)],
            rows: &[
                NEW, NEW, ZERO, FIRST, SECOND, CALL, PUT, RET, BLT, MOV_N, RET_B,
            ],
            image: &IMAGE,
        },
        Refusal::Form(place!(1, 2)),
    ),
    (
        Parts {
            rows: &[
                NEW, NEW, ZERO, FIRST, SECOND, CALL, UNKNOWN, RET, BLT, MOV_N, RET_B,
            ],
            ..PARTS
        },
        Refusal::Form(place!(0, 6)),
    ),
];

fn packs(rt: &impl Abort, case: Pack) {
    let mut output = [OTHER_BYTE; 113];
    let answer = pack(case.parts, room(rt, &mut output, case.room));
    assert_eq!(rt; answer, case.answer);
    holds(rt, &output, case.written, &OTHER_BYTE);
}

#[test]
fn pack_writes_or_refuses(rt: HostRuntime) {
    for case in &PACKED {
        packs(&rt, *case);
    }
    for (parts, refusal) in &REFUSED {
        packs(
            &rt,
            Pack {
                parts: *parts,
                room: 113,
                answer: Err(*refusal),
                written: &[],
            },
        );
    }
}

// A call of repack: how many entries, rows and bytes there is room for. What it answers and writes.
struct Repack {
    room: (usize, usize, usize),
    answer: Result<usize, Refusal>,
    written: Parts<'static>,
    output: &'static [u8],
}

static REPACKED: [Repack; 5] = [
    Repack {
        room: (5, 14, 114),
        answer: Ok(111),
        written: PARTS,
        output: &TWO_ROUTINES,
    },
    // just enough room
    Repack {
        room: (2, 11, 111),
        answer: Ok(111),
        written: PARTS,
        output: &TWO_ROUTINES,
    },
    // one too few of entries, of rows or of bytes changes nothing
    Repack {
        room: (1, 11, 111),
        answer: Err(Refusal::Room),
        written: NO_PARTS,
        output: &[],
    },
    Repack {
        room: (2, 10, 111),
        answer: Err(Refusal::Room),
        written: NO_PARTS,
        output: &[],
    },
    Repack {
        room: (2, 11, 110),
        answer: Err(Refusal::Room),
        written: NO_PARTS,
        output: &[],
    },
];

#[test]
fn repack_gives_the_bytes_back(rt: HostRuntime) {
    for case in &REPACKED {
        let mut entries = [OTHER_ENTRY; 5];
        let mut rows = [OTHER_ROW; 14];
        let mut output = [OTHER_BYTE; 114];
        let (most_entries, most_rows, most_bytes) = case.room;
        let checked = checked(&TWO_ROUTINES).expect(&rt, "a module");
        let answer = repack(
            &checked,
            room(&rt, &mut entries, most_entries),
            room(&rt, &mut rows, most_rows),
            room(&rt, &mut output, most_bytes),
        );
        assert_eq!(rt; answer, case.answer);
        holds(&rt, &entries, case.written.entries, &OTHER_ENTRY);
        holds(&rt, &rows, case.written.rows, &OTHER_ROW);
        holds(&rt, &output, case.output, &OTHER_BYTE);
    }
}

// Parts that are packed: the length, and what check answers of the bytes. An accepted module unpacks to the parts again.
struct Trip {
    parts: Parts<'static>,
    size: usize,
    verdict: Result<(), Refusal>,
}

static TRIPS: [Trip; 8] = [
    Trip {
        parts: PARTS,
        size: 111,
        verdict: Ok(()),
    },
    // 64 routines of one RET, with images of all lengths
    Trip {
        parts: MANY_ROUTINES,
        size: 1028,
        verdict: Ok(()),
    },
    Trip {
        parts: Parts {
            image: &[7],
            ..MANY_ROUTINES
        },
        size: 1029,
        verdict: Ok(()),
    },
    Trip {
        parts: Parts {
            image: &[7; 4096],
            ..MANY_ROUTINES
        },
        size: 5124,
        verdict: Ok(()),
    },
    // packed, and refused by the check
    Trip {
        parts: Parts {
            rows: &[
                NEW, NEW, ZERO, FIRST, SECOND, CALL_2, PUT, RET, BLT, MOV, RET,
            ],
            ..PARTS
        },
        size: 111,
        verdict: Err(Refusal::Callee(place!(0, 5))),
    },
    Trip {
        parts: Parts {
            rows: &[
                NEW, NEW, ZERO, FIRST, SECOND, CALL, PUT, RET, BLT, MOV_DEEP, RET,
            ],
            ..PARTS
        },
        size: 111,
        verdict: Err(Refusal::Register(place!(1, 1))),
    },
    Trip {
        parts: Parts {
            rows: &[
                NEW, NEW, ZERO, FIRST, SECOND, CALL, PUT, RET, BLT_FAR, MOV, RET,
            ],
            ..PARTS
        },
        size: 111,
        verdict: Err(Refusal::Target(place!(1, 0))),
    },
    Trip {
        parts: Parts {
            entries: &[entry!(7, 0, 0), entry!(4, 2, 1)],
            ..PARTS
        },
        size: 111,
        verdict: Err(Refusal::Ending(place!(0, 6))),
    },
];

// Unpacks a checked module into more than enough room: the parts that it was packed from come back.
fn comes_back(rt: &impl Abort, checked: &Checked<'_>, parts: Parts<'_>) {
    let mut entries = [OTHER_ENTRY; 67];
    let mut rows = [OTHER_ROW; 67];
    let answer = unpack(checked, &mut entries, &mut rows);
    assert_eq!(rt; answer, Ok((parts.entries.len(), parts.rows.len())));
    holds(rt, &entries, parts.entries, &OTHER_ENTRY);
    holds(rt, &rows, parts.rows, &OTHER_ROW);
    assert!(rt; checked.image() == parts.image);
}

#[test]
fn parts_come_back_of_what_check_accepts(rt: HostRuntime) {
    for case in &TRIPS {
        let mut output = [OTHER_BYTE; 5125];
        assert_eq!(rt; pack(case.parts, &mut output), Ok(case.size));
        match checked(output.get(..case.size).expect(&rt, "room for the bytes")) {
            Ok(checked) => {
                assert_eq!(rt; case.verdict, Ok(()));
                comes_back(&rt, &checked, case.parts);
            }
            Err(refusal) => assert_eq!(rt; case.verdict, Err(refusal)),
        }
    }
}
