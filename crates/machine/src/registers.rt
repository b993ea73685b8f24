// What an instruction does to the registers of the running routine. That a register is there, or is a variable, relates an
// argument to the frame: it is a fact of neither alone, and each method asks it. Numbers of registers become indices by `as`: from
// u8 it loses nothing, and `usize::from` says it no plainer.
ghost use Rattle.std.specs.Prelude.{◌≡◌, false, ◌+◌, ◌-◌, ◌^◌, ◌<◌, ◌≤◌, [], ◌∷◌, ◌++◌, length, map, take, drop, slice_set};
ghost use Rattle.machine.specs.declared.frame.Register.TheVariants.{Variable};
ghost use Rattle.machine.specs.Level.{level, level_of, is_constant, variable_at, Variables, value_of, value, still, onward, exchanged, as_variables, given};
ghost use Rattle.machine.specs.Shown.{register_of};

use crate::frame::{Frame, REGISTERS, Register};

impl Register {
    pub(crate) fn value(self) -> u32
        ensures { result ≡ value_of self }
    {
        match self {
            Register::Variable(v) | Register::Constant(v) => v,
        }
    }
}

impl Register {
    // Gives a variable the value v. No constant comes here; both arms write the value alone, so that no test is left of them.
    fn set(&mut self, v: u32)
        requires { is_constant self.old ≡ false }
        ensures { self.new ≡ Variable v }
    {
        match self {
            Register::Variable(value) => *value = v,
            Register::Constant(value) => *value = v,
        }
    }
}

impl Frame {
    // A routine that begins, with no registers.
    pub(crate) fn new(routine: usize) -> Frame
        ensures { level_of result ≡ level routine 0 [] }
    {
        Frame {
            routine,
            pc: 0,
            depth: 0,
            registers: [Register::Variable(0); REGISTERS],
        }
    }

    // The registers that there are.
    fn registers(&self) -> &[Register]
        ensures { result.now ≡ (level_of self.now).registers }
    {
        &self.registers[..self.depth]
    }

    // So many registers, from one on.
    pub(crate) fn span(&self, first: u8, len: u8) -> &[Register]
        requires { first + len ≤ length (level_of self.now).registers }
        ensures registers { result.now ≡ take len (drop first (level_of self.now).registers) }
        ensures length { length result.now ≡ len }
    {
        let first = first as usize;
        &self.registers()[first..first + len as usize]
    }

    /// Register k, if there is one.
    pub fn register(&self, k: usize) -> Option<u32>
        ensures { result ≡ register_of (level_of self.now) k }
    {
        let register = self.registers().get(k)?;
        Some(register.value())
    }

    pub(crate) fn read(&self, a: u8) -> u32
        requires { a < length (level_of self.now).registers }
        ensures { result ≡ value (level_of self.now) a }
    {
        self.registers()[a as usize].value()
    }

    // Gives register k, which is a variable, the value v.
    fn put(&mut self, k: usize, v: u32)
        requires there { k < length (level_of self.old).registers }
        requires variable { variable_at (level_of self.old) k }
        ensures { level_of self.new ≡ still (level_of self.old) (slice_set (level_of self.old).registers k (Variable v)) }
    {
        self.registers[k].set(v);
    }

    // The same of a register that an instruction names.
    pub(crate) fn write(&mut self, a: u8, v: u32)
        requires there { a < length (level_of self.old).registers }
        requires variable { variable_at (level_of self.old) a }
        ensures { level_of self.new ≡ still (level_of self.old) (slice_set (level_of self.old).registers a (Variable v)) }
    {
        self.put(a as usize, v);
    }

    // Exchanges the values of two registers.
    pub(crate) fn swap(&mut self, a: u8, b: u8)
        requires first { a < length (level_of self.old).registers }
        requires second { b < length (level_of self.old).registers }
        requires variables { variable_at (level_of self.old) a × variable_at (level_of self.old) b }
        ensures { level_of self.new ≡ still (level_of self.old) (exchanged (level_of self.old) a b) }
    {
        let first = self.read(a);
        let second = self.read(b);
        self.write(a, second);
        self.write(b, first);
    }

    // Adds a register.
    pub(crate) fn push(&mut self, register: Register)
        requires { length (level_of self.old).registers < 32 }
        ensures { level_of self.new ≡ still (level_of self.old) ((level_of self.old).registers ++ (register ∷ [])) }
    {
        self.registers[self.depth] = register;
        self.depth += 1;
    }

    // Removes the last register.
    pub(crate) fn pop(&mut self)
        requires { 0 < length (level_of self.old).registers }
        ensures { level_of self.new ≡ still (level_of self.old) (take (length (level_of self.old).registers - 1) (level_of self.old).registers) }
    {
        self.depth -= 1;
    }

    // Moves on to the next instruction.
    pub(crate) fn skip(&mut self)
        requires { (level_of self.old).pc < 2 ^ 32 }
        ensures { level_of self.new ≡ onward (level_of self.old) (level_of self.old).registers }
    {
        self.pc += 1;
    }

    // Another routine begins in its place, with these arguments as variables. Lists of one and of two are copied without a loop, here
    // and in `take`: the compiler prepares a loop for long lists, which costs more than to copy a short one.
    #[inline(always)]
    pub(crate) fn begin(&mut self, routine: usize, arguments: &[Register])
        requires { length arguments.now ≤ 32 }
        ensures { level_of self.new ≡ level routine 0 (as_variables arguments.now) }
    {
        self.routine = routine;
        self.pc = 0;
        self.depth = 0;
        match arguments {
            [] => {}
            [only] => self.push(Register::Variable(only.value())),
            [first, second] => {
                // Both are read before one is written, so that the depth is stored once.
                let [first, second] = [first.value(), second.value()];
                self.push(Register::Variable(first));
                self.push(Register::Variable(second));
            }
            _ => self.push_many(arguments),
        }
    }

    #[inline(never)]
    fn push_many(&mut self, arguments: &[Register])
        requires { length (level_of self.old).registers + length arguments.now ≤ 32 }
        ensures { level_of self.new ≡ still (level_of self.old) ((level_of self.old).registers ++ as_variables arguments.now) }
    {
        for argument in arguments {
            self.push(Register::Variable(argument.value()));
        }
    }

    // Takes results into its registers from one on.
    #[inline(always)]
    pub(crate) fn take(&mut self, into: usize, results: &[Register])
        requires there { into + length results.now ≤ length (level_of self.old).registers }
        requires variables { Variables (level_of self.old) into (length results.now) }
        ensures { level_of self.new ≡ still (level_of self.old) (given (level_of self.old).registers into (map value_of results.now)) }
    {
        match results {
            [] => {}
            [only] => self.put(into, only.value()),
            [first, second] => {
                self.put(into, first.value());
                self.put(into + 1, second.value());
            }
            _ => self.take_many(into, results),
        }
    }

    #[inline(never)]
    fn take_many(&mut self, into: usize, results: &[Register])
        requires there { into + length results.now ≤ length (level_of self.old).registers }
        requires variables { Variables (level_of self.old) into (length results.now) }
        ensures { level_of self.new ≡ still (level_of self.old) (given (level_of self.old).registers into (map value_of results.now)) }
    {
        // By index: with `self.registers[into..].iter_mut().zip(results)` what the registers hold after the loop stayed open, as a
        // proof knows nothing of what an adapter of `iter_mut` gives back.
        for (k, result) in results.iter().enumerate() {
            self.put(into + k, result.value());
        }
    }
}
