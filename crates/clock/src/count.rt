// Writers' counts: a type of their own, so that none is taken for an issue number or for a plain
// word. Only this file takes one out of a word or puts one into it.
ghost use Rattle.std.specs.Prelude.{◌≡◌, ◌<◌, eqb, leb, length, get_or, set};
ghost use Rattle.clock.specs.Count.{max_word, count_after};

// How many issues a writer has made.
#[derive(Clone, Copy, PartialEq, Eq, PartialOrd, Ord)]
pub struct WriterCount(u32);

// The largest count, and the largest issue number: no issue follows it.
pub const MAX: u32 = 4294967295;

// It is that of the definitions.
pub fn limits()
    ensures { MAX ≡ max_word }
{}

impl WriterCount {
    // Whether the writer is present: its count isn't 0.
    pub fn is_present(self) -> bool
        ensures { result ≡ leb 1 self.0 }
    {
        0 < self.0
    }

    // Whether the writer can make no further issue.
    pub fn is_full(self) -> bool
        ensures { result ≡ eqb self.0 max_word }
    {
        self.0 == MAX
    }

    // The count after one more issue.
    pub fn next(self) -> WriterCount
        requires { self.0 < max_word }
        ensures { result ≡ count_after self }
    {
        WriterCount(self.0 + 1)
    }
}

// The count at an index: a writer's, or one of a row.
pub fn count_at(words: &[u32], at: usize) -> WriterCount
    requires { at < length words.now }
    ensures { result.0 ≡ get_or words.now at 0 }
{
    WriterCount(words[at])
}

pub fn set_count(words: &mut [u32], at: usize, new: WriterCount)
    requires { at < length words.old }
    ensures { words.new ≡ set words.old at new.0 }
{
    words[at] = new.0;
}
