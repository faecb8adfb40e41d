// Where the mask of leading writers and the past stand in a version, behind the issue number, and
// where the past stands in a writer, behind the count; and where the rows of both do.
ghost use Rattle.std.specs.Prelude.{◌≡◌, ◌<◌};
ghost use Rattle.sizes.specs.Bounds.{leaders_offset, past_offset, writer_past_offset, version_limit, Ranged, row_at, writer_row_at};

use crate::Counts;

#[derive(Clone, Copy)]
pub struct VersionOffset {}

#[derive(Clone, Copy)]
pub struct WriterOffset {}

impl VersionOffset {
    pub const LEADERS: usize = 1;

    pub const PAST: usize = 2;

    // They are those of the definitions.
    pub fn offsets()
        ensures leaders { VersionOffset.LEADERS ≡ leaders_offset }
        ensures past { VersionOffset.PAST ≡ past_offset }
    {}
}

impl WriterOffset {
    pub const PAST: usize = 1;

    // It is that of the definitions.
    pub fn offsets()
        ensures { WriterOffset.PAST ≡ writer_past_offset }
    {}
}

impl Counts {
    // Where row d begins in the version at an index.
    pub fn row_at(self, at: usize, d: usize) -> usize
        requires ranged { Ranged self }
        requires at_lt_version_limit { (at < version_limit) × (d < self.keys) }
        ensures { result ≡ row_at self at d }
    {
        at + (VersionOffset::PAST + d * self.writers)
    }

    // Where row d begins in the past of the writer at an index.
    pub fn writer_row_at(self, at: usize, d: usize) -> usize
        requires ranged { Ranged self }
        requires at_lt_version_limit { (at < version_limit) × (d < self.keys) }
        ensures { result ≡ writer_row_at self at d }
    {
        at + (WriterOffset::PAST + d * self.writers)
    }
}
