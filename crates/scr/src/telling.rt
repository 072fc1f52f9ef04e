// A refusal as numbers, for those that answer by numbers or print them.
ghost use Rattle.std.specs.Prelude.{◌≡◌};
ghost use Rattle.scr.specs.Answers.{refusal_says};
ghost use Rattle.scr.specs.Telling.{told_says};

use crate::Refusal;
pub use crate::told::{MAX_CARRIED, Told};

// The number of a refusal, and what it carries, in the documents' order.
#[tactic(auto, using(crate::proofs::Refusing::told_case), unfolding(crate::specs::Answers::refusal_says, crate::specs::Telling::told_says))]
pub fn tell(q: Refusal) -> Told
    ensures { told_says result ≡ refusal_says q }
{
    match q {
        Refusal::Length(n) => Told::new(1, &[n as u64]),
        Refusal::Kind(i) => Told::new(2, &[i as u64]),
        Refusal::Range(i) => Told::new(3, &[i as u64]),
        Refusal::Limit(i) => Told::new(4, &[i as u64]),
        Refusal::Fit(i) => Told::new(5, &[i as u64]),
        Refusal::NoTable(v) => Told::new(6, &[v as u64]),
        Refusal::InitialValue(v) => Told::new(7, &[v as u64]),
        Refusal::States(v) => Told::new(8, &[v as u64]),
        Refusal::Cycle(c) => Told::new(9, &[c.variable as u64, c.length as u64]),
        Refusal::Gap(g) => Told::new(10, &[g.side as u64, g.state as u64, g.variable as u64]),
        Refusal::Overlap(o) => Told::new(
            11,
            &[
                o.side as u64,
                o.state as u64,
                o.variable as u64,
                o.first as u64,
                o.second as u64,
            ],
        ),
        Refusal::StepOverlap(o) => Told::new(
            12,
            &[
                o.state as u64,
                o.input.variable as u64,
                o.input.value as u64,
                o.variable as u64,
                o.first as u64,
                o.second as u64,
            ],
        ),
        Refusal::FalseInitially(j) => Told::new(13, &[j as u64]),
        Refusal::Broken(b) => Told::new(
            14,
            &[
                b.assertion as u64,
                b.state as u64,
                b.input.variable as u64,
                b.input.value as u64,
            ],
        ),
        Refusal::NoState(s) => Told::new(15, &[s as u64]),
        Refusal::NotEnabled(i) => Told::new(16, &[i as u64]),
        Refusal::Room(n) => Told::new(17, &[n as u64]),
        Refusal::Order(i) => Told::new(21, &[i as u64]),
    }
}
