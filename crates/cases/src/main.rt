// The sixteen cases (CASE.1 to CASE.3), each by a new relay.
// Then the samples of RFC 3629, section 7 (TEXT.4), and what is not UTF-8 beside them: a wrong answer is printed, a
// right one is not.
#![tactic(auto)]

mod machine;
mod samples;
mod script;
#[cfg(test)]
mod tests;

use crate::machine::Lent;
use crate::samples::run_samples;
use crate::script::CASES;
use hnsr_circuit::answer::number as answer_number;
use std::io;

fn main(rt: HostRuntime) -> io::Result<()> {
    let mut lent = Lent::EMPTY;
    println!(rt; "case answer")?;
    for (number, case) in (1..=16).zip(CASES) {
        println!(rt; "{number} {}", answer_number(lent.run(case)))?;
    }
    run_samples(&rt)
}
