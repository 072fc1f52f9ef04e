// Which variable reads which, as one mask for each variable, with a bit for each that it reads; the dependency order; and the cycle shown where variables
// are stuck (document 01, "States and steps", and refusal 9). All of it from the words of a set that has been read and its places.
#![tactic(auto)]

mod taking; // the order and the cycle, from the masks

ghost use Rattle.std.specs.Prelude.{◌≡◌, ℕ, ◌≤◌, length, get_or, take};
ghost use Rattle.order.specs.declared.Masked.{Masked};
ghost use Rattle.word.specs.Limits as Max;
ghost use Rattle.order.specs.Masks.{condition_mask, event_mask, formula_mask, rows_mask, table_mask, masks_at};
ghost use Rattle.order.specs.Orders.{cycle_said, order_at, no_cycle_at};

use index::bits::one_bit;
use index::{Variables, word_at};
use taking::{Taking, take_ready};
use word::{
    Kind, MAX_DEPTH, MAX_ROWS, MAX_VARIABLES, TableType, class_read, kind, operands, sort, variable,
};

// What a formula reads, and the place after it. A type of its own, not one generic with a formula's truth and its place: the field says which of them it has.
#[derive(Clone, Copy)]
pub struct Masked {
    pub mask: u32,
    pub next: usize,
}

// ---- what a table reads
// The variables that the condition at a place tests. `left` levels may still stand.
#[tactic(auto, using(crate::proofs::Scans::condition_laws))]
pub fn condition_mask(words: &[u32], at: usize, left: usize) -> Masked
    ensures { result ≡ condition_mask words.now left at }
{
    if left == 0 {
        return Masked { mask: 0, next: at };
    }
    if words.len() <= at {
        return Masked { mask: 0, next: at };
    }
    let w = word_at(words, at);
    let on = at + 1;
    let d = left - 1;
    match operands(w) {
        2 => {
            let a = condition_mask(words, on, d);
            let b = condition_mask(words, a.next, d);
            Masked {
                mask: a.mask | b.mask,
                next: b.next,
            }
        }
        1 => condition_mask(words, on, d),
        _ => {
            if kind(w) == Kind::Test as u32 {
                Masked {
                    mask: one_bit(variable(w) as usize),
                    next: on,
                }
            } else {
                Masked { mask: 0, next: on }
            }
        }
    }
}

// The variables that the event at a place tests inside c of a change. Tests in d read the past, so only d's end is wanted.
#[tactic(auto, using(crate::proofs::Scans::event_laws))]
pub fn event_mask(words: &[u32], at: usize, left: usize) -> Masked
    ensures { result ≡ event_mask words.now left at }
{
    if left == 0 {
        return Masked { mask: 0, next: at };
    }
    if words.len() <= at {
        return Masked { mask: 0, next: at };
    }
    let w = word_at(words, at);
    let on = at + 1;
    let d = left - 1;
    match operands(w) {
        2 => {
            if kind(w) == Kind::Or as u32 {
                let a = event_mask(words, on, d);
                let b = event_mask(words, a.next, d);
                Masked {
                    mask: a.mask | b.mask,
                    next: b.next,
                }
            } else {
                let a = condition_mask(words, on, d);
                let b = condition_mask(words, a.next, d);
                Masked {
                    mask: a.mask,
                    next: b.next,
                }
            }
        }
        _ => Masked { mask: 0, next: on },
    }
}

// `first` and what the rows from a place on read. What the formula of a row reads is `formula`'s matter: t is the type of the tables whose formulas it reads.
fn rows_mask<F: Fn(usize) -> Masked>(words: &[u32], at: usize, first: u32, formula: F) -> u32
    requires { F.IsAlwaysCallable formula }
    ensures { (t : ℕ) → ((x : ℕ) (r : Masked) → F.post formula x r → r ≡ formula_mask words.now t x) → result ≡ rows_mask words.now t Max.max_rows at first }
{
    let mut mask = first;
    let mut on = at;
    // The next row stands where the formula ends, so the rows are no slice to go over.
    for _ in 0..MAX_ROWS {
        if words.len() <= on {
            return mask;
        }
        let j = formula(on + 1);
        mask |= j.mask;
        on = j.next;
        let w = word_at(words, on);
        if kind(w) != Kind::Row as u32 {
            return mask;
        }
    }
    mask
}

// What variable v reads. A table of type 3 reads the class that its table word names, whatever its rows' modes.
#[tactic(auto, using(crate::proofs::Scans::table_none))]
fn table_mask(set: &Variables, v: usize) -> u32
    ensures { result ≡ table_mask set.now.words.now (get_or set.now.places.now v 0) }
{
    let p = set.place_of(v);
    if p == 0 {
        return 0;
    }
    let words = set.words;
    let w = word_at(words, p - 1);
    if sort(w) == TableType::Condition as u32 {
        let c = class_read(w) as usize;
        rows_mask(words, p, one_bit(c), |i| {
            condition_mask(words, i, MAX_DEPTH)
        })
    } else {
        rows_mask(words, p, 0, |i| event_mask(words, i, MAX_DEPTH))
    }
}

// The masks of all variables. Past the last variable there is no table and the mask is 0.
#[tactic(auto, using(crate::proofs::Scans::masks_laws))]
pub fn fill_masks(set: &Variables, masks: &mut [u32; MAX_VARIABLES])
    ensures { masks.new ≡ masks_at set.now.words.now set.now.places.now }
{
    for (v, mask) in masks.iter_mut().enumerate() {
        *mask = table_mask(set, v);
    }
}

// A cycle of variables, each of which reads the next: the variable shown of it, and how many they are.
#[derive(Clone, Copy, PartialEq, Eq)]
pub struct Cycle {
    pub variable: usize,
    pub length: usize,
}

// Writes the dependency order to the front of `order`, as far as it goes; what stands after it has no meaning. Where a cycle keeps it from
// reaching every variable, the error shows it.
// That there are no more variables than a set may have is a clause: `Variables` can't hold it, since other calls take any number of them.
#[tactic(auto, using(crate::proofs::Takes::tables_laws))]
pub fn order_tables(set: &Variables, order: &mut [usize; MAX_VARIABLES]) -> Result<(), Cycle>
    requires { set.now.count ≤ Max.max_variables }
    ensures result_value { cycle_said result ≡ no_cycle_at set.now.words.now set.now.places.now set.now.count }
    ensures order_after { take (length (order_at set.now.words.now set.now.places.now set.now.count)) order.new ≡ order_at set.now.words.now set.now.places.now set.now.count }
{
    let mut masks = [0u32; MAX_VARIABLES];
    fill_masks(set, &mut masks);
    let count = set.count;
    let taken = take_ready(&masks, count, order);
    let stuck = Taking {
        masks: &masks,
        count,
        taken,
    };
    stuck.find_cycle()
}
