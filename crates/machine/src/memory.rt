/// How many bytes of memory there are.
pub const BYTES: usize = 4_096;

/// The memory of a machine.
#[derive(Clone, Copy)]
pub struct Memory {
    pub(crate) bytes: [u8; BYTES],
}
