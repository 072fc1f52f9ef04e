// Rows with their formulas, below the heading of their table.
ghost use Rattle.std.specs.Prelude.{◌≡◌};
ghost use Rattle.word.specs.Limits as Max;
ghost use Rattle.word.specs.Kinds.{table_type_number};
ghost use Rattle.reader.specs.Known.{known};
ghost use Rattle.reader.specs.Faults.{reached};
ghost use Rattle.reader.specs.Formulas.{formula_reach, row_reach, rows_reach};

use crate::faults::Fault;
use crate::first::first_word;
use crate::formulas::{read_condition, read_event};
use crate::headings::Heading;
use crate::tests::{fits_kind, row_ok};
use index::{Variables, word_at};
use word::{Kind, MAX_DEPTH, MAX_ROWS, TableType, kind};

// The formula of a row. Each row asks for the type of its table, which could be asked once a table: but then a closure for the formula would go through read_rows, which reads rows at
// two places, and read_row, with a contract over the closure for each, and in place of these two arms there would be two calls of read_rows.
#[tactic(auto, using(crate::proofs::RowLaws::formula_laws))]
fn read_formula(set: &Variables, table_type: TableType, at: usize) -> Result<usize, Fault>
    ensures { reached result ≡ formula_reach set.now.words.now (known set.now) (table_type_number table_type) at }
{
    match table_type {
        TableType::Condition => read_condition(set, at, MAX_DEPTH),
        TableType::Mode | TableType::Event => read_event(set, at, MAX_DEPTH),
    }
}

// A row with its formula; `left` rows may still stand, this one included.
#[tactic(auto, using(crate::proofs::RowLaws::row_laws))]
fn read_row(set: &Variables, heading: Heading, left: usize, at: usize) -> Result<usize, Fault>
    ensures { reached result ≡ row_reach set.now.words.now (known set.now) (table_type_number heading.table_type) heading.variable heading.class_read left at }
{
    let w = first_word(set.words, at, left, |w| fits_kind(w, Kind::Row))?;
    if !row_ok(set, heading, w) {
        return Err(Fault::Range(at));
    }
    read_formula(set, heading.table_type, at + 1)
}

// The rows of a table, to the first word that is no row. One row too many is read with none left, which refuses it.
#[tactic(auto, using(crate::proofs::RowLaws::rows_laws))]
pub fn read_rows(set: &Variables, heading: Heading, at: usize) -> Result<usize, Fault>
    ensures { reached result ≡ rows_reach set.now.words.now (known set.now) (table_type_number heading.table_type) heading.variable heading.class_read Max.max_rows at }
{
    let mut on = at;
    // The next row stands where the formula ends, so the rows are no list to go over.
    for i in 0..MAX_ROWS {
        on = read_row(set, heading, MAX_ROWS - i, on)?;
        if kind(word_at(set.words, on)) != Kind::Row as u32 {
            return Ok(on);
        }
    }
    read_row(set, heading, 0, on)
}
