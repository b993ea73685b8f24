ghost use Rattle.std.specs.Prelude.{◌≡◌, Ok};
ghost use Rattle.module.specs.Bytes.{Octets};
ghost use Rattle.module.specs.Layout.{opening};

/// How much there is of everything in a module.
#[derive(Clone, Copy, PartialEq, Eq, Debug)]
pub struct Counts {
    /// The number of routines.
    pub routines: usize,
    /// The length of the image.
    pub image: usize,
    /// The number of instructions in all routines.
    pub total: usize,
}

/// A module whose bytes passed the tests of open. It shows the caller's own bytes.
#[derive(Drop)]
pub struct Opened<'a> {
    pub(crate) bytes: &'a [u8],
    pub(crate) counts: Counts,
    ghost opens: { opening bytes.now ≡ Ok counts },
    ghost octets: { Octets bytes.now },
}

impl<'a> Opened<'a> {
    ghost use Rattle.module.specs.Layout.{counts};
    ghost use Rattle.module.specs.Told.{bytes_of};

    /// How much there is of everything.
    pub fn counts(&self) -> Counts
        ensures shown { result ≡ self.now.counts }
        ensures counts { result ≡ counts (bytes_of self.now) }
    {
        self.counts
    }

    /// The caller's own bytes.
    pub fn bytes(&self) -> &'a [u8]
        ensures { result.now ≡ self.now.bytes.now }
    {
        self.bytes
    }
}
