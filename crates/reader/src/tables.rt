// Tables with their rows.
ghost use Rattle.std.specs.Prelude.{◌≡◌};
ghost use Rattle.reader.specs.Known.{known};
ghost use Rattle.index.specs.Places.{variables_to, reach, told};
ghost use Rattle.reader.specs.Faults.{reached};
ghost use Rattle.reader.specs.Tables.{next_place, read_places};

use crate::faults::Fault;
use crate::first::first_word;
use crate::found::Found;
use crate::headings::{heading_fits, read_heading};
use crate::rows::read_rows;
use crate::tests::fits_kind;
use index::{Variables, word_at};
use word::{Kind, defined, kind};

// A table with its rows, behind one for variable `before` (0 for none: no variable is lower). The set's places have, by variable, the place of
// the first row of each table so far, 0 for none.
#[tactic(auto, using(crate::proofs::TableLaws::table_laws))]
fn read_table(set: &Variables, at: usize, before: usize) -> Result<usize, Fault>
    ensures { reached result ≡ reach (next_place set.now.words.now (known set.now) at set.now.places.now before) }
{
    // Whether one more may stand is told by what is there already (5), so that there is no limit here.
    first_word(set.words, at, 1, |w| fits_kind(w, Kind::Table))?;
    let heading = read_heading(set, at)?;
    let free = set.place_of(heading.variable) == 0;
    // Both in one truth: with `&&` what comes after knows of them only by the way that led there, and the laws of what comes after were not found to apply.
    if !(heading_fits(set, heading) & free) {
        return Err(Fault::Fit(at));
    }
    if heading.variable < before {
        return Err(Fault::Order(at));
    }
    read_rows(set, heading, at + 1)
}

// The tables, which stand right behind the variables, in rising number of the variables that they define. The place of each one's first row goes to the entry
// of its variable. A variable has one table, so that there are no more tables than variables: one too many is refused for what is wrong with it, else by 5.
#[tactic(auto, using(crate::proofs::TableLaws::tables_laws))]
pub fn read_tables(words: &[u32], found: &mut Found) -> Result<usize, Fault>
    ensures places_after { told (reached result) found.new.places ≡ read_places words.now (variables_to words.now found.old.places found.old.count) found.old.count found.old.count found.old.places 0 }
    ensures variables_unchanged { variables_to words.now found.new.places found.old.count ≡ variables_to words.now found.old.places found.old.count }
    ensures count_unchanged { found.new.count ≡ found.old.count }
{
    let n = found.count;
    let mut on = n;
    let mut before = 0;
    // The next table stands where the rows of the one before end, so the tables are no list to go over.
    for _ in 0..n {
        if words.len() <= on {
            return Ok(on);
        }
        let w = word_at(words, on);
        if kind(w) != Kind::Table as u32 {
            return Ok(on);
        }
        let set = found.variables(words);
        let next = read_table(&set, on, before)?;
        let v = defined(w) as usize;
        found.places[v] = on + 1;
        before = v;
        on = next;
    }
    let w = word_at(words, on);
    if kind(w) != Kind::Table as u32 {
        return Ok(on);
    }
    let set = found.variables(words);
    read_table(&set, on, before)?;
    Err(Fault::Fit(on))
}
