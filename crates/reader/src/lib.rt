// The reads of a record (CR 14), handed out one after the other. `RecordReader` is document 01's
// form, and its functions are few and thin: the work is in `read_at`, and callers that have the
// words and an index take `read_from`.
#![tactic(auto)]

ghost use Rattle.std.specs.Prelude.{◌≡◌};
ghost use Rattle.reader.specs.Reads.{read_from_of};

// The words of a record, and the index of the next read.
#[derive(Clone, Copy)]
pub struct RecordReader<'a> {
    pub words: &'a [u32],
    pub at: usize,
}

// A read: its key, the index of its counts and that of the next read.
#[derive(Clone, Copy)]
pub struct Read {
    pub key: u32,
    pub counts: usize,
    pub next: usize,
}

// A reader at an index.
pub fn reader_at<'a>(words: &'a [u32], at: usize) -> RecordReader<'a>
    ensures { (result.words ≡ words.entry) × (result.at ≡ at) }
{
    RecordReader { words, at }
}

// The next read, of a key and w counts. None where the words end before it does.
pub fn next_read<'a>(r: RecordReader<'a>, w: usize) -> Option<Read>
    ensures { result ≡ read_from_of r.entry.words.now r.entry.at w }
{
    read_at(r.words, r.at, w)
}

// The read at an index, of a key and w counts.
fn read_at(words: &[u32], at: usize, w: usize) -> Option<Read>
    ensures { result ≡ read_from_of words.now at w }
{
    let len = words.len();
    if len <= at {
        return None;
    }
    if len - at <= w {
        return None;
    }
    Some(Read {
        key: words[at],
        counts: at + 1,
        next: at + 1 + w,
    })
}

// The read that a reader at this index hands out.
pub fn read_from(words: &[u32], at: usize, w: usize) -> Option<Read>
    ensures { result ≡ read_from_of words.now at w }
{
    next_read(reader_at(words, at), w)
}
