ghost use Rattle.std.specs.Prelude.{◌≡◌, ℕ, ◌+◌, ◌<◌, ◌≤◌, Bool, true, not, ◌&&◌, ◌||◌, List, length, ◌==◌};
ghost use Rattle.isa.specs.Access.{callee, ends};
ghost use Rattle.module.specs.Layout.{routines, count};
ghost use Rattle.module.specs.Ready.{EarlierHold, InTurn, Shallow};
ghost use Rattle.module.specs.Rules.{stacks, calls, callee_signature, access_in, both, within_depth, spares, targets, holds};
ghost use Rattle.module.specs.Shape.{row_of, routine_rows, rows_before};
ghost use Rattle.module.specs.Told.{bytes_in, bytes_of};
ghost use Rattle.module.specs.Verdict.{breach_in, breach};

use crate::limits;
use crate::opened::Opened;
use crate::routine::Routine;
use crate::rule::Rule;
use crate::shape::ShapeRow;
use isa::access::{Access, Signature, Span};
use isa::instr::Instr;
use refusal::Place;

fn stack_holds(depth: u16, instr: Instr) -> bool
    ensures { result ≡ stacks depth instr }
{
    match instr {
        Instr::New | Instr::Def { .. } => depth < limits::REGISTERS,
        Instr::Kill => depth >= 1,
        _ => true,
    }
}

fn span_fits(depth: u16, span: Span) -> bool
    ensures { result ≡ within_depth depth span }
{
    u16::from(span.first) + u16::from(span.len) <= depth
}

fn registers_hold(depth: u16, access: Access) -> bool
    ensures { result ≡ (both (within_depth depth) access.reads && both (within_depth depth) access.writes) }
{
    let Access { reads, writes } = access;
    [reads.0, reads.1, writes.0, writes.1]
        .iter()
        .all(|span| span_fits(depth, *span))
}

// Whether no constant of the row stands in the span.
fn span_spared(row: ShapeRow, span: Span) -> bool
    ensures { (s : List Bool) → row ≡ row_of s → length s ≤ 32 → result ≡ spares s span }
{
    let above = u64::from(row.mask) >> span.first.min(32);
    above % (1u64 << span.len.min(32)) == 0
}

fn constants_hold(row: ShapeRow, access: Access) -> bool
    ensures { (s : List Bool) → row ≡ row_of s → length s ≤ 32 → result ≡ both (spares s) access.writes }
{
    let (one, other) = access.writes;
    [one, other].iter().all(|span| span_spared(row, *span))
}

// Whether a branch from a place of the routine with this row goes where it may.
fn target_holds(rows: &[ShapeRow], here: ShapeRow, instr: Instr) -> bool
    ensures { (bs : List ℕ) (r : ℕ) (s : List Bool) → rows.now ≡ routine_rows bs r → here ≡ row_of s → length s ≤ 32 → Shallow bs r → result ≡ targets bs r s instr }
{
    match instr.target() {
        Some(n) => rows.get(n as usize).is_some_and(|row| *row == here),
        None => true,
    }
}

// Whether instruction i of a routine of count instructions may stand there.
fn ending_holds(count: usize, i: usize, instr: Instr) -> bool
    requires { i < count }
    ensures { result ≡ (not (i + 1 == count) || ends instr) }
{
    i + 1 != count || instr.ends()
}

impl Routine<'_> {
    fn callee_holds(&self, instr: Instr) -> bool
        ensures { result ≡ calls (bytes_in self.now) instr }
    {
        // Not by is_none_or: of what its closure gives the proof knows too little.
        match instr.callee() {
            Some(n) => (n as usize) < self.module.counts.routines,
            None => true,
        }
    }

    fn callee_signature(&self, instr: Instr) -> Signature
        requires { calls (bytes_in self.now) instr ≡ true }
        ensures { result ≡ callee_signature (bytes_in self.now) (callee instr) }
    {
        match instr.callee() {
            Some(n) => self.module.routine(n as usize).signature(),
            None => Signature::default(),
        }
    }

    fn access(&self, instr: Instr) -> Access
        requires { calls (bytes_in self.now) instr ≡ true }
        ensures { result ≡ access_in (bytes_in self.now) self.now.index instr }
    {
        let called = self.callee_signature(instr);
        instr.access(called, self.signature())
    }

    // Whether an instruction keeps a rule. One match names all seven: closures in their place would be the same list, in a
    // table that no function may hand out.
    fn keeps(&self, rule: Rule, rows: &[ShapeRow], i: usize) -> bool
        requires turn { InTurn rule self.now rows.now }
        requires index { i < count (bytes_in self.now) self.now.index }
        ensures { result ≡ holds rule (bytes_in self.now) self.now.index i }
    {
        let Some(instr) = self.instr(i) else {
            return !matches!(rule, Rule::Form);
        };
        let here = rows[i];
        match rule {
            Rule::Form => true,
            Rule::Stack => stack_holds(here.depth, instr),
            Rule::Callee => self.callee_holds(instr),
            Rule::Registers => registers_hold(here.depth, self.access(instr)),
            Rule::Constants => constants_hold(here, self.access(instr)),
            Rule::Target => target_holds(rows, here, instr),
            Rule::Ending => ending_holds(rows.len(), i, instr),
        }
    }

    // The first instruction that breaks a rule.
    fn breach(&self, rule: Rule, rows: &[ShapeRow]) -> Option<usize>
        requires { InTurn rule self.now rows.now }
        ensures { result ≡ breach_in rule (bytes_in self.now) self.now.index }
    {
        (0..rows.len()).find(|i| !self.keeps(rule, rows, *i))
    }
}

impl Opened<'_> {
    // The first place that breaks a rule.
    pub(crate) fn breach(&self, rule: Rule, rows: &[ShapeRow]) -> Option<Place>
        requires earlier { EarlierHold rule (bytes_of self.now) }
        requires filled { rows.now ≡ rows_before (bytes_of self.now) (routines (bytes_of self.now)) }
        ensures { result ≡ breach rule (bytes_of self.now) (routines (bytes_of self.now)) 0 }
    {
        let mut rest = rows;
        for index in 0..self.counts.routines {
            let routine = self.routine(index);
            let (own, later) = rest.split_at(routine.count());
            if let Some(i) = routine.breach(rule, own) {
                return Some(Place {
                    routine: index as u16,
                    instruction: i as u16,
                });
            }
            rest = later;
        }
        None
    }
}
