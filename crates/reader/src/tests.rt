// Tests of one word. Of one word 2 is tested first, then 4, then 3, then 5; of a table word also 21, after those.
// Truths are joined by `&` and `|`, so that a test is one value and what it promises one equation. With `&&` and `||` each part is a way out of its own, and none of these was proved
// from the law of the whole.
ghost use Rattle.std.specs.Prelude.{◌≡◌, [], ◌∷◌};
ghost use Rattle.word.specs.Kinds.{kind_number};
ghost use Rattle.meaning.specs.Reading as R;
ghost use Rattle.reader.specs.Known.{known};

use crate::headings::Heading;
use index::Variables;
use word::{
    Class, EVERY_MODE, Kind, MAX_MODES, MAX_SIZE, MIN_SIZE, NO_CLASS, Relation, initial, kind,
    mode, relation, size, sort, spare_clear, value, variable,
};

// Has the word kind k, and are its spare bits zero?
pub fn fits_kind(w: u32, k: Kind) -> bool
    ensures { result ≡ R.fits (kind_number k ∷ []) w }
{
    let found = kind(w);
    let clear = spare_clear(w);
    (found == k as u32) & clear
}

// Has the word a kind that a condition starts with, and are its spare bits zero?
#[tactic(auto, using(crate::proofs::TestLaws::condition_kind))]
pub fn fits_condition(w: u32) -> bool
    ensures { result ≡ R.fits R.condition_kinds w }
{
    let k = kind(w);
    let clear = spare_clear(w);
    ((k == Kind::Test as u32)
        | ((k == Kind::Not as u32)
            | ((k == Kind::And as u32) | ((k == Kind::Or as u32) | (k == Kind::Constant as u32)))))
        & clear
}

#[tactic(auto, using(crate::proofs::TestLaws::event_kind))]
pub fn fits_event(w: u32) -> bool
    ensures { result ≡ R.fits R.event_kinds w }
{
    let k = kind(w);
    let clear = spare_clear(w);
    ((k == Kind::Or as u32) | ((k == Kind::Change as u32) | (k == Kind::Constant as u32))) & clear
}

// Are the fields of a variable word in range? A mode class has one value less, as 255 stands for every mode.
#[tactic(auto, using(crate::proofs::TestLaws::variable_fields))]
pub fn variable_ok(w: u32) -> bool
    ensures { result ≡ R.variable_ok w }
{
    let class = sort(w);
    let n = size(w);
    let first = initial(w);
    let known = Class::try_from(class).is_ok();
    let sized = (MIN_SIZE <= n) & (n <= MAX_SIZE);
    ((known & sized) & ((class != Class::ModeClass as u32) | (n <= MAX_MODES))) & (first < n)
}

// Are the fields of a test word in range?
#[tactic(auto, using(crate::proofs::TestLaws::test_fields))]
pub fn test_ok(set: &Variables, w: u32) -> bool
    ensures { result ≡ R.test_ok (known set.now) w }
{
    let v = variable(w) as usize;
    let related = Relation::try_from(relation(w)).is_ok();
    let k = value(w);
    let values = set.size_of(v);
    ((v < set.count) & related) & (k < values)
}

// Are the fields of a row word in range, in the table with this heading?
#[tactic(auto, using(crate::proofs::TestLaws::row_fields))]
pub fn row_ok(set: &Variables, heading: Heading, w: u32) -> bool
    ensures { result ≡ R.row_ok (known set.now) heading.variable heading.class_read w }
{
    let r = mode(w);
    let k = value(w);
    let modes = set.size_of(heading.class_read);
    let values = set.size_of(heading.variable);
    ((r == EVERY_MODE) | ((heading.class_read != NO_CLASS) & (r < modes))) & (k < values)
}
