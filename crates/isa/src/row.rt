/// An instruction as it stands in a module: its opcode and its fields.
#[derive(Clone, Copy, PartialEq, Eq, Debug, Default)]
pub struct Row {
    pub op: u8,
    pub a: u8,
    pub b: u8,
    pub c: u8,
    pub n: u32,
}

/// Why a number is refused that names nothing of its kind.
#[derive(Clone, Copy, PartialEq, Eq, Debug)]
pub struct Malformed;
