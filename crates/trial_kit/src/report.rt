// The lines that every test program prints.
use super::tally::Tally;
use std::io;

// What was compared of a kind, after its name, but for what differed.
pub fn counts(rt: &impl Print, t: Tally) -> io::Result<()> {
    print!(rt;
        ": compared {}, accepted {}, refused {}",
        t.compared, t.accepted, t.refused
    )
}

// What differed, at the end of the line.
pub fn differ_line(rt: &impl Print, t: Tally) -> io::Result<()> {
    println!(rt; ", differ {}", t.differ)
}

pub fn counts_line(rt: &impl Print, t: Tally) -> io::Result<()> {
    counts(rt, t)?;
    differ_line(rt, t)
}

// What the counts of causes, by their sorts, are of.
pub fn say_causes(rt: &impl Print) -> io::Result<()> {
    print!(rt;
        "causes asked for: of 0; of 1 claim for accesses, claim for writebacks, stock, neither for writebacks, neither for best \
        effort; of 2, 3 and 4; of 5 without yields and with some; of 6 with loose 0 and below; refused with 30 to 34, 61, 62, \
        63, and by the plan:"
    )
}

// How often a refusal was told.
fn told_line(rt: &impl Print, t: Tally, number: u32) -> io::Result<()> {
    let k = (number % 64) as usize;
    println!(rt; "refusal {number}: told {}", t.told[k])
}

pub fn told_lines(rt: &impl Print, t: Tally, numbers: &[u32]) -> io::Result<()> {
    for number in numbers {
        told_line(rt, t, *number)?;
    }
    Ok(())
}

// Where something differed, its first case, behind the name of its kind.
pub fn first_line<S: FnOnce(u32) -> io::Result<()>>(
    rt: &impl Print,
    t: Tally,
    say_name: S,
) -> io::Result<()>
    requires { S.IsAlwaysCallable say_name }
{
    if let Some(first) = t.first {
        print!(rt; "first difference: ")?;
        say_name(first.kind)?;
        println!(rt; ", case {}", first.case)?;
    }
    Ok(())
}

pub fn total_line(rt: &impl Print, t: Tally) -> io::Result<()> {
    println!(rt; "all: compared {}, differ {}", t.allcompared, t.alldiffer)
}
