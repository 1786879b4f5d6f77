// The judgement of what a question is lent, and the answers from it.
ghost use Rattle.std.specs.Prelude.{◌≡◌, ◌+◌, ◌*◌, ◌≤◌, ◌<◌, length, true};
ghost use Rattle.tag_index.specs.Index.{tag_count, code_of, how_many, where_is, is_index};
ghost use Rattle.questions.specs.Judged.{tag_at, start_of, Before, Paired, Rising, Parts, Started, Says};

// The last code that a tag can have.
const LAST_CODE: usize = 1023;

// A tag table and an index that has two numbers for each of its tags, behind the 1,024 starts.
#[derive(Clone, Copy)]
pub struct Lent<'a> {
    pub tags: &'a [u32],
    pub index: &'a [u32],
    ghost sized: { 1024 + 2 * tag_count tags.now ≡ length index.now },
}

impl Lent<'_> {
    // How many tags there are.
    fn count(&self) -> usize
        ensures { result ≡ tag_count self.now.tags.now }
    {
        tag_index::tag_count(self.tags)
    }

    // The number of the tag whose pair is the k-th.
    fn tag_at(&self, k: usize) -> usize
        requires { k < tag_count self.now.tags.now }
        ensures { result ≡ tag_at self.now.index.now k }
    {
        self.index[1024 + 2 * k] as usize
    }

    // Its code, where it is a tag.
    fn code_at(&self, k: usize) -> usize
        requires { (k < tag_count self.now.tags.now) × (tag_at self.now.index.now k < tag_count self.now.tags.now) }
        ensures { result ≡ code_of self.now.tags.now (tag_at self.now.index.now k) }
    {
        tag_index::code_of(self.tags, self.tag_at(k))
    }

    // Does tag u stand before tag v: by code and in file order?
    fn is_before(&self, u: usize, v: usize) -> bool
        requires { (u < tag_count self.now.tags.now) × (v < tag_count self.now.tags.now) }
        ensures { Says result (Before self.now.tags.now u v) }
    {
        let first = tag_index::code_of(self.tags, u);
        let second = tag_index::code_of(self.tags, v);
        if first == second {
            u < v
        } else {
            first < second
        }
    }

    // Is the k-th pair that of a tag?
    fn is_pair(&self, k: usize) -> bool
        requires { k < tag_count self.now.tags.now }
        ensures { Says result (Paired self.now.tags.now self.now.index.now k) }
    {
        let tag = self.tag_at(k);
        tag < self.count() && self.index[1025 + 2 * k] == tag_index::place_of(self.tags, tag)
    }

    // Is the k-th pair that of a tag, and does it stand after the one before it?
    fn is_next(&self, k: usize) -> bool
        requires { (k < tag_count self.now.tags.now) × Rising self.now.tags.now self.now.index.now k }
        ensures { Says result (Rising self.now.tags.now self.now.index.now (k + 1)) }
    {
        self.is_pair(k) && (k == 0 || self.is_before(self.tag_at(k - 1), self.tag_at(k)))
    }

    // Are the pairs those of tags, by code and in file order?
    pub fn is_rising(&self) -> bool
        ensures { Says result (Rising self.now.tags.now self.now.index.now (tag_count self.now.tags.now)) }
    {
        for k in 0..self.count() {
            if !self.is_next(k) {
                return false;
            }
        }
        true
    }

    // The start of a code; all tags come before that of 1024.
    fn start_of(&self, code: usize) -> usize
        ensures { result ≡ start_of self.now.tags.now self.now.index.now code }
    {
        if code < 1024 {
            self.index[code] as usize
        } else {
            self.count()
        }
    }

    // Do the pairs with a lower code end at the start of a code?
    fn is_start(&self, code: usize) -> bool
        requires { Rising self.now.tags.now self.now.index.now (tag_count self.now.tags.now) }
        ensures { Says result (Parts self.now.tags.now self.now.index.now code (start_of self.now.tags.now self.now.index.now code)) }
    {
        let start = self.start_of(code);
        if self.count() < start {
            return false;
        }
        if 0 < start && code <= self.code_at(start - 1) {
            return false;
        }
        start == self.count() || code <= self.code_at(start)
    }

    // Are the starts those of the pairs' codes, and all codes below 1024?
    pub fn are_starts(&self) -> bool
        requires { Rising self.now.tags.now self.now.index.now (tag_count self.now.tags.now) }
        ensures { Says result (Started self.now.tags.now self.now.index.now 1025) }
    {
        for code in 0..=1024 {
            if !self.is_start(code) {
                return false;
            }
        }
        true
    }

    // How many tags have a code: from its start to the next. A code above 1023 has none.
    pub fn how_many(&self, code: usize) -> usize
        requires { is_index self.now.tags.now self.now.index.now ≡ true }
        ensures { result ≡ how_many self.now.tags.now code }
    {
        if LAST_CODE < code {
            return 0;
        }
        self.start_of(code + 1) - self.start_of(code)
    }

    // The place of the k-th of them.
    #[tactic(auto, using(crate::proofs::AskLaws::pair_inside, crate::proofs::AskLaws::pair_place))]
    pub fn where_is(&self, code: usize, k: usize) -> u32
        requires { (is_index self.now.tags.now self.now.index.now ≡ true) × (k < how_many self.now.tags.now code) }
        ensures { result ≡ where_is self.now.tags.now code k }
    {
        let pair = self.start_of(code) + k;
        self.index[1025 + 2 * pair]
    }
}
