// A writer's past: it takes in what a run read, its rows get the new count, and the master's
// versions are merged with it.
ghost use Rattle.std.specs.Prelude.{◌≡◌, ◌<◌, length};
ghost use Rattle.masks.specs.Mask.{test_bit};
ghost use Rattle.model.specs.Version.{merge};
ghost use Rattle.model.specs.Issue.{taken_in, rows_set, new_version, issued_master};
ghost use Rattle.layout.specs.Reading.{read_place, read_writer};
ghost use Rattle.layout.specs.Stored.{put_place, put_writer};
ghost use Rattle.version.specs.Places.{version_of, put_key};
ghost use Rattle.issue.specs.Saves.{with_past, takes, row_set, WriterArea, Takes, Saves};

use clock::count::{WriterCount, set_count};
use masks::has;
use numbers::IssueNumber;
use sizes::Counts;
use version::merge::merge_version;
use version::{merge_past, row_of};

// The writer at an index takes in the past of key k of the place, if k is in the mask.
fn take_if(words: &mut [u32], z: Counts, at: usize, place: usize, read: u32, k: usize)
    requires takes { Takes (length words.old) z at place }
    requires k_lt_keys { k < z.keys }
    ensures { words.new ≡ put_writer z words.old at
        (takes read (read_place z words.old place) k
        (read_writer z words.old at)) }
{
    if has(read, k as u32) {
        let own = z.writer_row_at(at, 0);
        let past = row_of(z, place, k, 0);
        merge_past(words, z, own, past);
    }
}

// The writer at an index takes in the pasts of the keys of the mask, from a place.
fn take_in(words: &mut [u32], z: Counts, at: usize, place: usize, read: u32)
    requires { Takes (length words.old) z at place }
    ensures { words.new ≡ put_writer z words.old at
        (with_past (read_writer z words.old at)
        (taken_in z.keys read (read_place z words.old place)
        (read_writer z words.old at).past)) }
{
    for k in 0..z.keys {
        take_if(words, z, at, place, read, k);
    }
}

// Row k of the writer at an index gets the count at writer w, if k is in the mask.
fn set_if(words: &mut [u32], z: Counts, at: usize, w: usize, mask: u32, new: WriterCount, k: usize)
    requires writer_area { WriterArea (length words.old) z at }
    requires w_lt_writers { (w < z.writers) × (k < z.keys) }
    ensures { words.new ≡ put_writer z words.old at
        (row_set mask w new.0 k (read_writer z words.old at)) }
{
    if has(mask, k as u32) {
        let row = z.writer_row_at(at, k);
        set_count(words, row + w, new);
    }
}

// The rows of the mask, of the writer at an index, get the count at writer w.
fn set_rows(words: &mut [u32], z: Counts, at: usize, w: usize, mask: u32, new: WriterCount)
    requires writer_area { WriterArea (length words.old) z at }
    requires w_lt_writers { w < z.writers }
    ensures { words.new ≡ put_writer z words.old at
        (with_past (read_writer z words.old at)
        (rows_set mask w new.0 (read_writer z words.old at).past)) }
{
    for k in 0..z.keys {
        set_if(words, z, at, w, mask, new, k);
    }
}

// The writer w at an index after an issue of the keys of a mask: it takes in what was read on the
// place, then gets the new count, in its rows and as its count.
pub fn save_writer(
    words: &mut [u32],
    z: Counts,
    at: usize,
    place: usize,
    read: u32,
    w: usize,
    mask: u32,
    new: WriterCount,
)
    requires takes { Takes (length words.old) z at place }
    requires w_lt_writers { w < z.writers }
    ensures { words.new ≡ put_writer z words.old at
        (record {
          count = new.0;
          past = rows_set mask w new.0
              (taken_in z.keys read (read_place z words.old place)
              (read_writer z words.old at).past);
        }) }
{
    take_in(words, z, at, place, read);
    set_rows(words, z, at, w, mask, new);
    set_count(words, at, new);
}

// Merges key k of the place with the saved version, if k is in the mask: the issue number, the
// mask of leading writers, and the past of the writer at an index.
fn merge_if(
    words: &mut [u32],
    z: Counts,
    place: usize,
    at: usize,
    mask: u32,
    number: IssueNumber,
    leaders: u32,
    k: usize,
)
    requires saves { Saves (length words.old) z place at }
    requires k_lt_keys { k < z.keys }
    ensures { words.new ≡ put_key z words.old place (test_bit mask) k
        (merge z.writers k (read_place z words.old place k)
        (version_of number.0 leaders (read_writer z words.old at).past)) }
{
    if has(mask, k as u32) {
        let version = z.key_at(place, k);
        let past = z.writer_row_at(at, 0);
        merge_version(words, z, k, version, number, leaders, past);
    }
}

// Merges the keys of the mask, of a place, with the version that writer w, at an index, saved.
pub fn merge_saved(
    words: &mut [u32],
    z: Counts,
    place: usize,
    at: usize,
    w: usize,
    mask: u32,
    number: IssueNumber,
)
    requires saves { Saves (length words.old) z place at }
    requires w_lt_writers { w < z.writers }
    ensures { words.new ≡ put_place z words.old place
        (issued_master z.writers mask
        (new_version number.0 w (read_writer z words.old at).past)
        (read_place z words.old place)) }
{
    let leaders: u32 = 1 << w;
    for k in 0..z.keys {
        merge_if(words, z, place, at, mask, number, leaders, k);
    }
}
