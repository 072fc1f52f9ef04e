// What the layers below refuse, as the documents' refusals: each promise is the number and what is carried.
ghost use Rattle.std.specs.Prelude.{◌≡◌, [], ◌∷◌, ℕ};
ghost use Rattle.meaning.specs.Steps.{input_of};
ghost use Rattle.reader.specs.Faults.{refusal, carried};
ghost use Rattle.set.specs.ReadSet.{unread_is};
ghost use Rattle.simulator.specs.Walks.{clash_is};
ghost use Rattle.simulator.specs.StepIndex.{no_step_is};
ghost use Rattle.checker.specs.Sweeps.{fault_is};
ghost use Rattle.checker.specs.Checked.{refused_is};
ghost use Rattle.scr.specs.Answers.{refusal_says};

use crate::{Broken, Gap, Input, Overlap, Refusal, StepOverlap};
use checker::Place;
use simulator::{Clash, NoStep, Stopped, Unsettled};
use word::{given, variable};

// ---- of reading
impl From<reader::Fault> for Refusal {
    ghost from_gives = { λ f q. refusal_says q ≡ (refusal f, carried f ∷ []) };

    #[tactic(auto, unfolding(crate::specs::Answers::refusal_says, reader::specs::Faults::refusal, reader::specs::Faults::carried))]
    fn from(fault: reader::Fault) -> Refusal {
        match fault {
            reader::Fault::Length(n) => Refusal::Length(n),
            reader::Fault::Kind(i) => Refusal::Kind(i),
            reader::Fault::Range(i) => Refusal::Range(i),
            reader::Fault::Limit(i) => Refusal::Limit(i),
            reader::Fault::Fit(i) => Refusal::Fit(i),
            reader::Fault::NoTable(v) => Refusal::NoTable(v),
            reader::Fault::InitialValue(v) => Refusal::InitialValue(v),
            reader::Fault::States(v) => Refusal::States(v),
            reader::Fault::Order(i) => Refusal::Order(i),
        }
    }
}

impl From<set::Fault> for Refusal {
    ghost from_gives = { λ f q. refusal_says q ≡ unread_is f };

    #[tactic(auto, unfolding(crate::specs::Answers::refusal_says, set::specs::ReadSet::unread_is))]
    fn from(fault: set::Fault) -> Refusal {
        match fault {
            set::Fault::Unread(fault) => Refusal::from(fault),
            set::Fault::Cycle(cycle) => Refusal::Cycle(cycle),
        }
    }
}

// ---- of a state and of a step
// A variable that has no value: on side 0 in the state itself, on side 1 after the step from it by the input event.
#[tactic(auto, unfolding(crate::specs::Answers::refusal_says, simulator::specs::Walks::clash_is))]
pub fn unsettled(side: u32, state: u32, input: Input, fault: Unsettled) -> Refusal
    ensures { refusal_says result ≡ clash_is side state (record { variable = input.variable; value = input.value }) fault.variable fault.why }
{
    let variable = fault.variable;
    match fault.why {
        Clash::Gap => Refusal::Gap(Gap {
            side,
            state,
            variable,
        }),
        Clash::Overlap(first, second) => Refusal::Overlap(Overlap {
            side,
            state,
            variable,
            first,
            second,
        }),
        Clash::StepOverlap(first, second) => Refusal::StepOverlap(StepOverlap {
            state,
            input,
            variable,
            first,
            second,
        }),
    }
}

// An event that is not done.
impl From<Stopped> for Refusal {
    ghost from_gives = { λ t q. refusal_says q ≡ no_step_is t.state (input_of t.event) t.why };

    #[tactic(auto, unfolding(crate::specs::Answers::refusal_says, simulator::specs::StepIndex::no_step_is, meaning::specs::Steps::input_of))]
    fn from(stopped: Stopped) -> Refusal {
        let input = Input {
            variable: variable(stopped.event) as usize,
            value: given(stopped.event),
        };
        match stopped.why {
            NoStep::NotEnabled(i) => Refusal::NotEnabled(i),
            NoStep::Before(fault) => unsettled(0, stopped.state, input, fault),
            NoStep::After(fault) => unsettled(1, stopped.state, input, fault),
        }
    }
}

// ---- of check
impl From<checker::Fault> for Refusal {
    ghost from_gives = { λ f q. refusal_says q ≡ fault_is f };

    #[tactic(auto, unfolding(checker::specs::Sweeps::fault_is))]
    fn from(fault: checker::Fault) -> Refusal {
        match fault.place {
            Place::InState(state) => {
                let none = Input {
                    variable: 0,
                    value: 0,
                };
                unsettled(0, state, none, fault.unsettled)
            }
            Place::AfterStep(state, input) => unsettled(1, state, input, fault.unsettled),
            Place::Given(side, state, input) => unsettled(side, state, input, fault.unsettled),
        }
    }
}

impl From<checker::Refused> for Refusal {
    ghost from_gives = { λ r q. refusal_says q ≡ refused_is r };

    #[tactic(auto, unfolding(crate::specs::Answers::refusal_says, checker::specs::Checked::refused_is))]
    fn from(refused: checker::Refused) -> Refusal {
        match refused {
            checker::Refused::Fault(fault) => Refusal::from(fault),
            checker::Refused::FalseInitially(j) => Refusal::FalseInitially(j),
            checker::Refused::Broken(note) => Refusal::Broken(Broken {
                assertion: note.bound,
                state: note.state,
                input: note.input,
            }),
        }
    }
}
