// The dependency order, and the cycle shown where variables are stuck, from the masks of what each variable reads.
// That a single variable's number is in range stays a clause: a type that held it would be made anew at every turn of a loop and taken apart at every index.
ghost use Rattle.std.specs.Prelude.{◌≡◌, not, ◌||◌, ◌≤◌, ◌<◌, length, get_or, take};
ghost use Rattle.word.specs.Limits as Max;
ghost use Rattle.index.specs.Bits.{bit_in};
ghost use Rattle.index.specs.Search.{found_of};
ghost use Rattle.order.specs.Orders.{covered, untaken_by, ready_by, least_ready, order_by, taken_by, least_stuck, stuck_read, move_by, shown_by, back_by, cycle_said, cycle_by};

use crate::Cycle;
use index::bits::{bit, one_bit};
use index::element;
use word::{CYCLE_MOVES, MAX_VARIABLES};

// The variables while they are put in order: what each of them reads, as a mask, how many they are, and the mask of those taken so far.
#[derive(Clone, Copy)]
pub struct Taking<'a> {
    pub masks: &'a [u32],
    pub count: usize,
    pub taken: u32,
    ghost few: { count ≤ Max.max_variables },
}

impl<'a> Taking<'a> {
    // ---- the dependency order
    #[tactic(auto, using(crate::proofs::Takes::untaken_is))]
    fn is_untaken(&self, v: usize) -> bool
        requires { v < Max.max_variables }
        ensures { result ≡ untaken_by self.now.taken v }
    {
        !bit(self.taken, v)
    }

    // Is b read by what has the mask m, and not yet taken?
    #[tactic(auto, using(crate::proofs::Takes::missing_is))]
    fn is_missing(&self, m: u32, b: usize) -> bool
        requires { b < Max.max_variables }
        ensures { result ≡ not (not (bit_in m b) || bit_in self.now.taken b) }
    {
        bit(m, b) & !bit(self.taken, b)
    }

    fn all_taken(&self, m: u32) -> bool
        ensures { result ≡ covered m self.now.taken self.now.count }
    {
        (0..self.count).all(|b| !self.is_missing(m, b))
    }

    // Is v untaken, and all that it reads taken? One that is taken isn't asked what it reads: that was a good part of the time of a set's reading.
    #[tactic(auto, using(crate::proofs::Takes::ready_then, crate::proofs::Takes::ready_else))]
    fn is_ready(&self, v: usize) -> bool
        requires { v < self.now.count }
        ensures { result ≡ ready_by self.now.masks.now self.now.count self.now.taken v }
    {
        self.is_untaken(v) && self.all_taken(element(self.masks, v, 0))
    }

    fn next_ready(&self) -> Option<usize>
        ensures { result ≡ found_of (least_ready self.now.masks.now self.now.count self.now.taken) }
    {
        (0..self.count).find(|v| self.is_ready(*v))
    }

    // ---- the cycle shown; `taken` is the mask of all that is ever taken, so the others are stuck
    fn lowest_stuck(&self) -> Option<usize>
        ensures { result ≡ found_of (least_stuck self.now.taken self.now.count) }
    {
        (0..self.count).find(|v| self.is_untaken(*v))
    }

    // Is b stuck, and read by what has the mask m?
    #[tactic(auto, using(crate::proofs::Takes::stuck_read_is))]
    fn is_stuck_read(&self, m: u32, b: usize) -> bool
        requires { b < Max.max_variables }
        ensures { result ≡ stuck_read m self.now.taken b }
    {
        self.is_untaken(b) & bit(m, b)
    }

    // The lowest stuck variable that v reads; v where it reads none, which is never so of a stuck one.
    fn move_on(&self, v: usize) -> usize
        ensures { result ≡ move_by self.now.masks.now self.now.count self.now.taken v }
    {
        let m = element(self.masks, v, 0);
        (0..self.count)
            .find(|b| self.is_stuck_read(m, *b))
            .unwrap_or(v)
    }

    // The variable shown. So many moves from any stuck variable end on a cycle, for there are no more variables.
    fn shown_from(&self, v: usize) -> usize
        ensures { result ≡ shown_by self.now.masks.now self.now.count self.now.taken v }
    {
        (0..CYCLE_MOVES).fold(v, |u, _| self.move_on(u))
    }

    // The least number of moves, at least 1, from w back to w. The variable shown is met again within as many moves as there are variables.
    #[tactic(auto, using(crate::proofs::Takes::back_laws))]
    fn moves_back(&self, w: usize) -> usize
        ensures { result ≡ back_by self.now.masks.now self.now.count self.now.taken w }
    {
        let mut u = w;
        // Each move starts where the one before ended, so the moves are no list to search; k counts them.
        for k in 0..self.count {
            u = self.move_on(u);
            if u == w {
                return k + 1;
            }
        }
        1
    }

    // Is every variable in the order? Else the cycle shown.
    #[tactic(auto, using(crate::proofs::Takes::cycle_laws))]
    pub fn find_cycle(&self) -> Result<(), Cycle>
        ensures { cycle_said result ≡ cycle_by self.now.masks.now self.now.count self.now.taken }
    {
        match self.lowest_stuck() {
            None => Ok(()),
            Some(v) => {
                let variable = self.shown_from(v);
                let length = self.moves_back(variable);
                Err(Cycle { variable, length })
            }
        }
    }
}

// Writes the order of the variables that have these masks, and gives the mask of those in it.
#[tactic(auto, using(crate::proofs::Takes::taking_laws))]
pub fn take_ready(masks: &[u32], count: usize, order: &mut [usize; MAX_VARIABLES]) -> u32
    requires { count ≤ Max.max_variables }
    ensures value { result ≡ taken_by masks.now count }
    ensures order_after { take (length (order_by masks.now count)) order.new ≡ order_by masks.now count }
{
    let mut taken = 0u32;
    for place in &mut order[..count] {
        let turn = Taking {
            masks,
            count,
            taken,
        };
        let Some(v) = turn.next_ready() else {
            return taken;
        };
        *place = v;
        taken |= one_bit(v);
    }
    taken
}
