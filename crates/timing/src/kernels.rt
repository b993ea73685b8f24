// The kernels, and their modules. Registers have the numbers in which they are made: variables first, then constants.
use crate::code::{Routine, calc, module_of, single, while_less};
use isa::instr::{Instr, Operation, Width};
use std::alloc::Global;

// What is measured.
#[derive(Clone, Copy)]
pub(crate) enum Kernel {
    // Arithmetic, shifts and a branch.
    Arith,
    // Loads and stores of one width.
    Memory { width: Width },
    // A call in a loop, with two arguments and two results.
    Calls,
    // Orders, ticks and reads.
    Ports,
    // The check of a module that has so many times four instructions in its loop.
    Check { times: u16 },
    // Unpack and pack of the same.
    Repack { times: u16 },
}

// Each with its name. A number after check and repack is that of the instructions; without one there are 4,096, the most.
pub(crate) const KERNELS: [(&str, Kernel); 14] = [
    ("arith", Kernel::Arith),
    ("memory1", Kernel::Memory { width: Width::One }),
    ("memory2", Kernel::Memory { width: Width::Two }),
    ("memory4", Kernel::Memory { width: Width::Four }),
    ("calls", Kernel::Calls),
    ("ports", Kernel::Ports),
    ("check512", Kernel::Check { times: 127 }),
    ("check1024", Kernel::Check { times: 255 }),
    ("check2048", Kernel::Check { times: 511 }),
    ("check", Kernel::Check { times: 1023 }),
    ("repack512", Kernel::Repack { times: 127 }),
    ("repack1024", Kernel::Repack { times: 255 }),
    ("repack2048", Kernel::Repack { times: 511 }),
    ("repack", Kernel::Repack { times: 1023 }),
];

pub(crate) fn named(name: &str) -> Option<Kernel> {
    for (known, kernel) in KERNELS {
        if known == name {
            return Some(kernel);
        }
    }
    None
}

impl Kernel {
    pub(crate) fn module(self, heap: Global) -> anyhow::Result<Vec<u8>> {
        match self {
            Kernel::Arith => arith(heap),
            Kernel::Memory { width } => memory(heap, width),
            Kernel::Calls => calls(heap),
            Kernel::Ports => ports(heap),
            Kernel::Check { times } => long(heap, times),
            Kernel::Repack { times } => long(heap, times),
        }
    }
}

// How often a loop is made before it is begun again.
const TURNS: Instr = Instr::Def { n: 1000 };

const ZERO: Instr = Instr::Def { n: 0 };

const ONE: Instr = Instr::Def { n: 1 };

// x is made anew by a multiplication and an addition, and y gathers its shifts.
fn arith(heap: Global) -> anyhow::Result<Vec<u8>> {
    let [x, y, t, i] = [0, 1, 2, 3];
    let [factor, term, left, right, signed, one, turns, zero] = [4, 5, 6, 7, 8, 9, 10, 11];
    let instrs = [
        Instr::New,
        Instr::New,
        Instr::New,
        Instr::New,
        Instr::Def { n: 1664525 },
        Instr::Def { n: 1013904223 },
        Instr::Def { n: 13 },
        Instr::Def { n: 17 },
        Instr::Def { n: 5 },
        ONE,
        TURNS,
        ZERO,
        calc(Operation::Mul, x, x, factor),
        calc(Operation::Add, x, x, term),
        calc(Operation::Sl, t, x, left),
        calc(Operation::Xor, y, y, t),
        calc(Operation::Srl, t, x, right),
        calc(Operation::Xor, y, y, t),
        calc(Operation::Sra, t, x, signed),
        calc(Operation::Add, y, y, t),
        calc(Operation::Add, i, i, one),
        while_less(i, turns, 12),
        Instr::Mov { a: i, b: zero },
        Instr::Bal { n: 12 },
    ];
    single(heap, &instrs)
}

// Two neighbours at a time, the sum is changed by each and stored over it, from address 0 to the end of memory.
fn memory(heap: Global, width: Width) -> anyhow::Result<Vec<u8>> {
    let [sum, x, at] = [0, 1, 2];
    let [step, end, seed, zero] = [3, 4, 5, 6];
    let next = u32::from(u8::from(width));
    let instrs = [
        Instr::New,
        Instr::New,
        Instr::New,
        Instr::Def { n: 2 * next },
        Instr::Def { n: 4096 },
        Instr::Def { n: 2654435769 },
        ZERO,
        load(width, x, at, 0),
        calc(Operation::Add, sum, sum, x),
        store(width, sum, at, 0),
        load(width, x, at, next),
        calc(Operation::Xor, sum, sum, x),
        store(width, sum, at, next),
        calc(Operation::Add, at, at, step),
        while_less(at, end, 7),
        Instr::Mov { a: at, b: zero },
        calc(Operation::Add, sum, sum, seed),
        Instr::Bal { n: 7 },
    ];
    single(heap, &instrs)
}

fn load(width: Width, a: u8, b: u8, n: u32) -> Instr {
    Instr::Load { width, a, b, n }
}

fn store(width: Width, a: u8, b: u8, n: u32) -> Instr {
    Instr::Store { width, a, b, n }
}

// Two neighbours of the Fibonacci numbers go to routine 1, and the next two come back.
fn calls(heap: Global) -> anyhow::Result<Vec<u8>> {
    let [a, b, i] = [0, 1, 2];
    let [one, turns, zero] = [3, 4, 5];
    let main = [
        Instr::New,
        Instr::New,
        Instr::New,
        ONE,
        TURNS,
        ZERO,
        Instr::Mov { a: b, b: one },
        Instr::Call { a, b: a, n: 1 },
        calc(Operation::Add, i, i, one),
        while_less(i, turns, 7),
        Instr::Mov { a: i, b: zero },
        Instr::Bal { n: 7 },
    ];
    let next = [
        Instr::Swap { a, b },
        calc(Operation::Add, b, b, a),
        Instr::Ret { a },
    ];
    let routines = [
        Routine {
            arguments: 0,
            results: 0,
            instrs: &main,
        },
        Routine {
            arguments: 2,
            results: 2,
            instrs: &next,
        },
    ];
    module_of(heap, &routines)
}

// The axis is ordered to a speed, makes a tick, and its position gives the next order: 1 to 2,048.
fn ports(heap: Global) -> anyhow::Result<Vec<u8>> {
    let [order, speed, position, i] = [0, 1, 2, 3];
    let [mask, one, turns, zero] = [4, 5, 6, 7];
    let instrs = [
        Instr::New,
        Instr::New,
        Instr::New,
        Instr::New,
        Instr::Def { n: 2047 },
        ONE,
        TURNS,
        ZERO,
        Instr::Put { b: order, c: 0 },
        Instr::Tick,
        Instr::Get { a: speed, c: 2 },
        Instr::Get { a: position, c: 3 },
        calc(Operation::And, order, position, mask),
        calc(Operation::Add, order, order, one),
        calc(Operation::Add, i, i, one),
        while_less(i, turns, 8),
        Instr::Mov { a: i, b: zero },
        Instr::Bal { n: 8 },
    ];
    single(heap, &instrs)
}

// A routine of 4 + 4 times so many instructions.
fn long(heap: Global, times: u16) -> anyhow::Result<Vec<u8>> {
    let [x, y, one] = [0, 1, 2];
    let again = [
        calc(Operation::Add, x, x, one),
        Instr::Mov { a: y, b: x },
        calc(Operation::Xor, x, y, one),
        while_less(x, y, 3),
    ];
    let mut instrs = Vec::new(heap);
    instrs.extend_from_slice(&[Instr::New, Instr::New, ONE])?;
    for _ in 0..times {
        instrs.extend_from_slice(&again)?;
    }
    instrs.extend_from_slice(&[Instr::Ret { a: x }])?;
    single(heap, instrs.as_slice())
}
