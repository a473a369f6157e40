// Sets of up to 256 pages, by value: a mark for each place, and what joins and counts them.
#![tactic(auto)]

ghost use Rattle.std.specs.Prelude.{◌≡◌, ◌%◌, ◌^◌, true, false, cond, ◌||◌, ◌&&◌, get_or, set, replicate};
ghost use Rattle.text.specs.Table.{tabulate, count_to};
ghost use Rattle.pageset.specs.Marks.{marks_from};

// A set of pages: the mark at a page's place says whether it is in. The marks are the bits of four words, the lowest first.
#[derive(Clone, Copy)]
pub struct PageSet {
    pub words: [u64; 4],
}

// The mark at a page's place; there is none past the end.
pub fn mark_at(words: &[u64], page: usize) -> bool
    ensures { result ≡ get_or (marks_from words.now) page false }
{
    let k = page / 64;
    if (page < 256) & (k < words.len()) {
        (words[k] >> (page % 64)) % 2 == 1
    } else {
        false
    }
}

// The bit of a page's mark in its word.
fn bit_of(page: usize) -> u64
    ensures { result ≡ 2 ^ (page % 64) }
{
    1 << (page % 64)
}

// A number, or 0.
fn only_if(t: bool, n: u64) -> u64
    ensures { result ≡ cond t n 0 }
{
    if t { n } else { 0 }
}

impl PageSet {
    pub fn none() -> PageSet
        ensures { marks_from result.words ≡ replicate 256 false }
    {
        PageSet { words: [0; 4] }
    }

    // One page marked; a page from 256 on changes nothing. No place in the words depends on the page, so that they stay in registers.
    pub fn with(self, page: usize) -> PageSet
        ensures { marks_from result.words ≡ set (marks_from self.words) page true }
    {
        let a = self.words;
        let b = bit_of(page);
        let k = page / 64;
        PageSet {
            words: [
                a[0] | only_if(k == 0, b),
                a[1] | only_if(k == 1, b),
                a[2] | only_if(k == 2, b),
                a[3] | only_if(k == 3, b),
            ],
        }
    }

    pub fn union(self, other: PageSet) -> PageSet
        ensures { marks_from result.words ≡ tabulate 256 (λ i. get_or (marks_from self.words) i false || get_or (marks_from other.words) i false) }
    {
        let a = self.words;
        let b = other.words;
        PageSet {
            words: [a[0] | b[0], a[1] | b[1], a[2] | b[2], a[3] | b[3]],
        }
    }

    pub fn intersection(self, other: PageSet) -> PageSet
        ensures { marks_from result.words ≡ tabulate 256 (λ i. get_or (marks_from self.words) i false && get_or (marks_from other.words) i false) }
    {
        let a = self.words;
        let b = other.words;
        PageSet {
            words: [a[0] & b[0], a[1] & b[1], a[2] & b[2], a[3] & b[3]],
        }
    }

    pub fn count(self) -> usize
        ensures { result ≡ count_to 256 (λ i. get_or (marks_from self.words) i false) }
    {
        let words = self.words;
        let mut n: usize = 0;
        for page in 0..256 {
            if mark_at(&words, page) {
                n += 1;
            }
        }
        n
    }
}
