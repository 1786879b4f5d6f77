// The tags of a table, one after the other, with their rows of the tag table.
ghost use Rattle.std.specs.Prelude.{◌≡◌, ◌+◌, ◌≤◌, ◌<◌, ◌^◌, length, get_or};
ghost use Rattle.format.specs.Reasons.{walk_file};
ghost use Rattle.format.specs.TableOfNumbers.{table as table_of};
ghost use Rattle.answers.specs.Answers.{answer_of};
ghost use Rattle.path_singles.specs.Converting.{left, body_at};
ghost use Rattle.path_singles.specs.Tables.{values_by, in_singles, judged, TablesOf};

use crate::blocks::convert_block;
use crate::up_to;
use answers::Answer;
use reasons::Reason;

// The values of a tag, by its state and by its row of the tag table. Has it a coordinate beyond?
fn convert_tag(file: &[u8], row: &[u32; 5], state: u64, values: &mut [u64]) -> bool
    requires { (length file.now < 2 ^ 60) × (length values.old < 2 ^ 32) }
    ensures { left values.new result ≡ values_by state (get_or row.now 1 0) (body_at file.now (get_or row.now 2 0 + get_or row.now 3 0) (get_or row.now 4 0)) values.old }
{
    if state % 2 == 0 {
        return false;
    }
    let [_, code, place, header, length] = *row;
    let start = up_to(0, u64::from(place) + u64::from(header), file.len());
    let end = up_to(start, u64::from(length), file.len());
    convert_block(code, &file[start..end], values)
}

// The table of a file, with the bits of singles for path coordinates; or 29 with the place of the first tag that has a coordinate beyond.
pub fn convert(file: &[u8], rows: &[u32], table: &mut [u64]) -> Answer
    requires { TablesOf file.now table.old rows.now }
    ensures { (table.new ≡ table_of file.now (in_singles file.now (walk_file 0 1023 file.now))) × (answer_of result ≡ judged file.now (walk_file 0 1023 file.now).tags) }
{
    let mut first = None;
    let mut index = 1;
    let (tags, _) = rows.as_chunks::<5>();
    for row in tags {
        let state = table[index + 1];
        let start = index + 3;
        let end = start + table[index + 2] as usize;
        let beyond = convert_tag(file, row, state, &mut table[start..end]);
        first = first.or(beyond.then_some(u64::from(row[2])));
        index = end;
    }
    match first {
        Some(place) => Answer::Refused(Reason::StepBeyondSingles, place),
        None => Answer::Accepted(0),
    }
}
