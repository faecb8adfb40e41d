// Where the words of the tail stand, behind the runs.
ghost use Rattle.std.specs.Prelude.{◌≡◌, ◌<◌};
ghost use Rattle.sizes.specs.Bounds.{Ranged, round_at_of, may_hold_at, may_save_at};

use crate::Counts;

impl Counts {
    // Where the round stands.
    pub fn round_at(self) -> usize
        requires { Ranged self }
        ensures { result ≡ round_at_of self }
    {
        self.areas().tail
    }

    // Where the mask stands of what site o may hold.
    pub fn may_hold_at(self, o: usize) -> usize
        requires ranged { Ranged self }
        requires o_lt_sites { o < self.sites }
        ensures { result ≡ may_hold_at self o }
    {
        self.round_at() + 1 + o
    }

    // Where the mask stands of what writer w may save, behind those of the sites.
    pub fn may_save_at(self, w: usize) -> usize
        requires ranged { Ranged self }
        requires w_lt_writers { w < self.writers }
        ensures { result ≡ may_save_at self w }
    {
        self.round_at() + 1 + self.sites + w
    }
}
