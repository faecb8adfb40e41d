// Where the words of the header stand: the counts, the last issue number, the offsets of the areas
// and the total.
ghost use Rattle.std.specs.Prelude.{◌≡◌};
ghost use Rattle.sizes.specs.Bounds.{keys_offset, writers_offset, sites_offset, runs_offset, last_offset, master_offset, sites_at_offset, writers_at_offset, runs_at_offset, total_offset, header_size};

#[derive(Clone, Copy)]
pub struct HeaderOffset {}

impl HeaderOffset {
    pub const KEYS: usize = 0;

    pub const WRITERS: usize = 1;

    pub const SITES: usize = 2;

    pub const RUNS: usize = 3;

    pub const LAST: usize = 4;

    pub const MASTER: usize = 5;

    pub const SITES_AT: usize = 6;

    pub const WRITERS_AT: usize = 7;

    pub const RUNS_AT: usize = 8;

    pub const TOTAL: usize = 9;

    // The words of the header.
    pub const SIZE: usize = 10;

    // They are those of the definitions.
    pub fn offsets()
        ensures keys { HeaderOffset.KEYS ≡ keys_offset }
        ensures writers { HeaderOffset.WRITERS ≡ writers_offset }
        ensures sites { HeaderOffset.SITES ≡ sites_offset }
        ensures runs { HeaderOffset.RUNS ≡ runs_offset }
        ensures last { HeaderOffset.LAST ≡ last_offset }
        ensures master { HeaderOffset.MASTER ≡ master_offset }
        ensures sites_at { HeaderOffset.SITES_AT ≡ sites_at_offset }
        ensures writers_at { HeaderOffset.WRITERS_AT ≡ writers_at_offset }
        ensures runs_at { HeaderOffset.RUNS_AT ≡ runs_at_offset }
        ensures total { HeaderOffset.TOTAL ≡ total_offset }
        ensures size { HeaderOffset.SIZE ≡ header_size }
    {}
}
