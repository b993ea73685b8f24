ghost use Rattle.std.specs.Prelude.{◌≡◌, Ok};
ghost use Rattle.module.specs.Kept.{KeptEverywhere};
ghost use Rattle.module.specs.Laid.{Laid};
ghost use Rattle.module.specs.Layout.{counts};
ghost use Rattle.module.specs.Rules.{rules};
ghost use Rattle.module.specs.Told.{bytes_of};
ghost use Rattle.module.specs.Verdict.{tried};

use crate::opened::{Counts, Opened};

/// A module that check accepted: its bytes open, and keep all seven rules.
#[derive(Drop)]
pub struct Checked<'a> {
    pub(crate) opened: Opened<'a>,
    ghost keeps: { tried rules (bytes_of opened) ≡ Ok tt },
}

impl<'a> Checked<'a> {
    /// The counts of the module. Its bytes are laid out as the format says, and every instruction keeps the seven rules.
    pub fn counts(&self) -> Counts
        ensures counts { result ≡ counts (bytes_of self.now.opened) }
        ensures laid { Laid (bytes_of self.now.opened) }
        ensures kept { KeptEverywhere (bytes_of self.now.opened) }
    {
        self.opened.counts
    }

    /// The caller's own bytes.
    pub fn bytes(&self) -> &'a [u8]
        ensures { result.now ≡ bytes_of self.now.opened }
    {
        self.opened.bytes
    }
}
