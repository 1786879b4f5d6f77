// An index of tags, for hosts (C-14).
ghost use Rattle.std.specs.Prelude.{◌≡◌};
ghost use Rattle.format.specs.Reasons.{read_tags};
ghost use Rattle.tag_index.specs.Index.{building, count_answer, place_answer};
ghost use Rattle.pag.specs.Plain.{plain_of};
ghost use Rattle.pag.specs.PlainIndex.{leaves_both};

use crate::PagAnswer;

#[unsafe(no_mangle)]
pub extern "C" fn pag_index(
    level: u32,
    order: u32,
    file: &[u8],
    tags: &mut [u32],
    index: &mut [u32],
) -> PagAnswer
    ensures { leaves_both tags.new index.new result (building tags.old index.old (read_tags order level file.now)) }
{
    PagAnswer::from(tag_index::index(level, order, file, tags, index))
}

#[unsafe(no_mangle)]
pub extern "C" fn pag_count(tags: &[u32], index: &[u32], code: u32) -> PagAnswer
    ensures { result ≡ plain_of (count_answer tags.now index.now code) }
{
    PagAnswer::from(questions::count(tags, index, code))
}

#[unsafe(no_mangle)]
pub extern "C" fn pag_place(tags: &[u32], index: &[u32], code: u32, k: u64) -> PagAnswer
    ensures { result ≡ plain_of (place_answer tags.now index.now code k) }
{
    PagAnswer::from(questions::place(tags, index, code, k))
}
