//! How a word and its stamps are laid out.
ghost use Rattle.std.specs.Prelude.{◌≡◌, ◌+◌, ◌-◌, ◌/◌, ◌%◌, ◌==◌, ◌<◌, ◌≤◌, ◌^◌, ◌↔◌, IsTrue, if◌then◌else◌};
ghost use Rattle.stamp_core.specs.Layout.{units_of};

/// The layout of words and stamps: how the bits of a number are shared out.
#[derive(Clone, Copy, Debug, PartialEq, Eq)]
pub enum Layout {
    /// 55 bits of version and 127 readers.
    One,
    /// 46 bits of version and 65,535 readers.
    Two,
}

#[tactic(auto, unfolding(crate::specs::Layout::units_of))]
impl Layout {
    /// What one write acquisition adds to a number.
    pub(crate) fn version_unit(self) -> u64
        ensures { result ≡ (units_of self).version }
    {
        match self {
            Layout::One => 256,
            Layout::Two => 131_072,
        }
    }

    /// The unit of the writer, which acquiring write mode adds to a number: 128, in layout 2
    /// 65,536.
    #[inline(always)]
    pub fn writer_unit(self) -> u64
        ensures { result ≡ (units_of self).writer }
    {
        match self {
            Layout::One => 128,
            Layout::Two => 65_536,
        }
    }

    /// The most readers that the layout has room for: 127, in layout 2 65,535.
    pub fn most_readers(self) -> u64
        ensures { result ≡ (units_of self).readers }
    {
        match self {
            Layout::One => 127,
            Layout::Two => 65_535,
        }
    }

    /// The most write acquisitions that the layout has room for: 2^55-2, in layout 2 2^46-2.
    pub fn most_versions(self) -> u64
        ensures { result ≡ (units_of self).versions }
    {
        match self {
            Layout::One => 36_028_797_018_963_966,
            Layout::Two => 70_368_744_177_662,
        }
    }

    /// What stands below the version in a number: the readers, or the writer.
    #[inline(always)]
    pub(crate) fn holders_of(self, number: u64) -> u64
        ensures { result ≡ number % (units_of self).version }
    {
        match self {
            Layout::One => number & 0xff,
            Layout::Two => number & 0x1_ffff,
        }
    }

    /// How many times the unit of a version fits into a number.
    #[inline(always)]
    pub(crate) fn version_units_in(self, number: u64) -> u64
        ensures { result ≡ number / (units_of self).version }
    {
        match self {
            Layout::One => number >> 8,
            Layout::Two => number >> 17,
        }
    }

    /// Whether the number of a word has a writer.
    #[inline(always)]
    pub fn has_writer(self, number: u64) -> bool
        ensures { let u = units_of self in result ≡ (number % u.version == u.writer) }
    {
        self.holders_of(number) == self.writer_unit()
    }

    /// How often write mode was acquired, by the number of a word. The number is 256 or more (in
    /// layout 2 131,072 or more).
    #[inline(always)]
    pub fn writes_of(self, number: u64) -> u64
        requires { (units_of self).version ≤ number }
        ensures { let u = units_of self in result ≡ (if number % u.version == u.writer
            then number / u.version else number / u.version - 1) }
    {
        if self.has_writer(number) {
            self.version_units_in(number)
        } else {
            self.version_units_in(number) - 1
        }
    }

    /// The number of the word that a writer with this stamp leaves behind. It is one writer's unit
    /// more than the stamp, which is below 2^63.
    #[inline(always)]
    pub fn released(self, stamp: u64) -> u64
        requires { stamp < 2 ^ 63 }
        ensures { result ≡ stamp + (units_of self).writer }
    {
        stamp + self.writer_unit()
    }

    /// Whether it is this layout.
    pub(crate) fn is_same(self, other: Layout) -> bool
        ensures { IsTrue result ↔ (self ≡ other) }
    {
        self == other
    }
}
