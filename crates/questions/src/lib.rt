// Questions to an index of tags: how many tags have a code, and where is the k-th?
#![tactic(auto)]

ghost use Rattle.std.specs.Prelude.{◌≡◌, true, false, IfNone, IfSome};
ghost use Rattle.answers.specs.Answers.{answer_of};
ghost use Rattle.tag_index.specs.Index.{is_index, count_answer, place_answer};

use answers::Answer;
use lent::Lent;
use reasons::Reason;

mod lent;

// The lent numbers, if they are the index of the lent tag table: whole tags, codes to 1023. Inline, since else the answer takes stack of its own.
#[inline(always)]
fn judged<'a>(tags: &'a [u32], index: &'a [u32]) -> Option<Lent<'a>>
    ensures none { IfNone result (is_index tags.now index.now ≡ false) }
    ensures some { IfSome result (λ lent. (is_index tags.now index.now ≡ true) × (lent.tags.now ≡ tags.now) × (lent.index.now ≡ index.now)) }
{
    let count = tag_index::tag_count(tags);
    if tags.len() != 5 * count || index.len() != 1024 + 2 * count {
        return None;
    }
    let lent = Lent { tags, index };
    if lent.is_rising() && lent.are_starts() {
        Some(lent)
    } else {
        None
    }
}

// How many tags have the code?
pub fn count(tags: &[u32], index: &[u32], code: u32) -> Answer
    ensures { answer_of result ≡ count_answer tags.now index.now code }
{
    let Some(lent) = judged(tags, index) else {
        return Answer::Refused(Reason::NotTheIndex, 0);
    };
    Answer::Accepted(lent.how_many(code as usize) as u64)
}

// Where is the k-th of them?
pub fn place(tags: &[u32], index: &[u32], code: u32, k: u64) -> Answer
    ensures { answer_of result ≡ place_answer tags.now index.now code k }
{
    let Some(lent) = judged(tags, index) else {
        return Answer::Refused(Reason::NotTheIndex, 0);
    };
    if lent.how_many(code as usize) as u64 <= k {
        return Answer::Refused(Reason::KNotBelowTheCount, 0);
    }
    Answer::Accepted(u64::from(lent.where_is(code as usize, k as usize)))
}
