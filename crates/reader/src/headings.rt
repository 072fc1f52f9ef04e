// What a table word says to the reader of its rows. Truths are joined by `&` and `|` as in the tests of one word, and for the same reason.
ghost use Rattle.std.specs.Prelude.{ℕ, ◌≡◌};
ghost use Rattle.meaning.specs.Reading as R;
ghost use Rattle.reader.specs.Known.{known};
ghost use Rattle.reader.specs.Headings.{HeadingAs, HeadingOf};

use crate::faults::Fault;
use index::{Variables, word_at};
use word::{Class, NO_CLASS, TableType, class_read, defined, sort};

// The table's type, the variable that it defines, and the class that it reads.
#[derive(Clone, Copy)]
pub struct Heading {
    pub table_type: TableType,
    pub variable: usize,
    pub class_read: usize,
}

// The heading that the table word at `at` says, if its fields are in range.
#[tactic(auto, using(crate::proofs::TestLaws::heading_laws))]
pub fn read_heading(set: &Variables, at: usize) -> Result<Heading, Fault>
    ensures { HeadingAs (known set.now) (R.word set.now.words.now at) at result }
{
    let w = word_at(set.words, at);
    let v = defined(w) as usize;
    let m = class_read(w) as usize;
    let table_type = TableType::try_from(sort(w)).map_err(|_| Fault::Range(at))?;
    if (v < set.count) & ((m == NO_CLASS) | (m < set.count)) {
        return Ok(Heading {
            table_type,
            variable: v,
            class_read: m,
        });
    }
    Err(Fault::Range(at))
}

// Do its type and the class that it reads suit the variable that it defines?
#[tactic(auto, using(crate::proofs::TestLaws::fit_laws))]
pub fn heading_fits(set: &Variables, heading: Heading) -> bool
    ensures { (w : ℕ) → HeadingOf w heading → result ≡ R.table_fits (known set.now) w }
{
    let class = set.class_of(heading.variable);
    let read = set.class_of(heading.class_read);
    match heading.table_type {
        TableType::Mode => (class == Class::ModeClass as u32)
            & (heading.class_read == heading.variable),
        TableType::Event | TableType::Condition => {
            (Class::Term as u32 <= class)
                & ((heading.class_read == NO_CLASS) | (read == Class::ModeClass as u32))
        }
    }
}
