ghost use Rattle.std.specs.Prelude.{◌<◌};

use crate::frame::Frame;

/// The most routines that are nested, routine 0 included.
pub const MOST_NESTED: usize = 32;

/// Which of the 32 frames is that of the running routine. The bound stands here and not in the stack, which could not lend a
/// frame if it had a fact of its own.
#[derive(Clone, Copy)]
pub(crate) struct Top {
    pub(crate) index: usize,
    ghost nested: { index < 32 },
}

/// The nested routines: the running one, and those that wait below it.
#[derive(Drop)]
pub struct Stack {
    // Fixed memory and its top: nothing on the drive allocates.
    pub(crate) frames: [Frame; MOST_NESTED],
    pub(crate) top: Top,
}
