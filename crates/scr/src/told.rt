// A number with what it carries.
ghost use Rattle.std.specs.Prelude.{◌≡◌, ℕ, ◌≤◌, ◌∷◌, ◌++◌, length, take, flat_map, Some};
ghost use Rattle.std.specs.Fmt.{decimal};
ghost use Rattle.word.specs.Limits as Max;
ghost use Rattle.scr.specs.Carried.{max_carried};

use std::fmt;

// No refusal carries more.
pub const MAX_CARRIED: usize = 6;

// The number of a refusal, and what it carries: the first `count` of `carried`, which has room for as many as any refusal carries. There is no heap, and it is
// copied, which a vector with room of its own can't be: so the count stands beside the list.
#[derive(Clone, Copy)]
pub struct Told {
    pub number: u32,
    pub carried: [u64; MAX_CARRIED],
    pub count: usize,
    ghost known: { number ≤ Max.last_refusal },
    ghost few: { count ≤ max_carried },
}

impl Told {
    // What is carried as it stands, and zeros behind it.
    pub fn new(number: u32, carried: &[u64]) -> Told
        requires { (number ≤ Max.last_refusal) × (length carried.now ≤ max_carried) }
        ensures number_value { result.number ≡ number }
        ensures carried_value { take result.count result.carried ≡ carried.now }
    {
        let mut all = [0u64; MAX_CARRIED];
        all[..carried.len()].copy_from_slice(carried);
        Told {
            number,
            carried: all,
            count: carried.len(),
        }
    }
}

// The number, and what is carried.
impl fmt::Display for Told {
    ghost output = { λ t. Some (decimal t.number ++ flat_map (λ n. 32 ∷ decimal n) (take t.count t.carried)) };

    fn fmt<W: fmt::Write>(&self, f: &mut fmt::Formatter<W>) -> fmt::Result {
        write!(f, "{}", self.number)?;
        for carried in &self.carried[..self.count] {
            write!(f, " {carried}")?;
        }
        Ok(())
    }
}
