// The probe: one entry called on arguments from standard input, and all of its effect printed, for tests and for the curious.
//
// The input is words of 32 bits, lowest byte first; what is missing counts as zeros:
//
//     call   1 start, 2 step, 3 run, 4 values, 5 rows, 6 check
//     n      the number of words of the set, 5,000 counting for every greater one
//     set    n words
//     then   step: state, event; run: state, place, length of the lent list, at most 8,000, and all words left are its events, at most
//            5,000; values: state, length of the lent list, at most 300; rows: variable
//
// The output is a line STATE s, VALUES n, ROWS place length (0 0 for the empty part), PASS states steps assertions or REFUSE number carried..,
// then for run and values a line with the whole lent list, whose elements are 4294967295 and 238 before the call. Another call prints
// nothing.
#![tactic(auto)]

mod calls; // each call and its lines
mod input; // the words of the input
mod text; // lines

use calls::Entry;
use input::Input;
use std::alloc::Global;
use std::io;
use std::io::{BufWriter, Read, Write};

// One call, and all of its effect.
fn probe<W: Write>(alloc: Global, input: &Input, out: &mut W) -> io::Result<()> {
    let set = input.set();
    let first = input.argument(0);
    let second = input.argument(1);
    match Entry::try_from(input.entry) {
        Ok(Entry::Start) => text::answer(out, "STATE", scr::start(set)),
        Ok(Entry::Step) => text::answer(out, "STATE", scr::step(set, first, second)),
        Ok(Entry::Run) => {
            let room = input.argument(2) as usize;
            calls::run(
                alloc,
                set,
                first,
                input.events(3),
                second as usize,
                room,
                out,
            )
        }
        Ok(Entry::Values) => calls::values(alloc, set, first, second as usize, out),
        Ok(Entry::Rows) => calls::rows(set, first, out),
        Ok(Entry::Check) => text::verdict(out, scr::check(set)),
        Err(_) => Ok(()),
    }
}

fn main(rt: HostRuntime) -> io::Result<()> {
    let mut bytes = Vec::new(rt.alloc());
    rt.stdin().take(input::MAX_BYTES).read_to_end(&mut bytes)?;
    let input = Input::new(rt.alloc(), &bytes)?;
    let mut out = BufWriter::new(rt.alloc(), io::writer(&rt))?;
    probe(rt.alloc(), &input, &mut out)?;
    out.flush()
}
