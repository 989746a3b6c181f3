// Goes through a stack hour from sixty readings to grams, and prints each step in plain sentences.
#![tactic(auto)]

mod stack_hour;

use std::io;

fn main(rt: HostRuntime) -> io::Result<()> {
    println!(rt; "5. A stack hour")?;
    stack_hour::show(&rt)
}
