// Prints what the stack part answers over grids of cases and drawn hours. `stdout` has the same, worked by
// tools/stack_cases.py.
#![tactic(auto)]

mod draws;
mod faults;
mod figures;

use std::io;

fn main(rt: HostRuntime) -> io::Result<()> {
    faults::marks(&rt)?;
    faults::settings(&rt)?;
    faults::ranges(&rt)?;
    faults::hours(&rt)?;
    figures::known(&rt)?;
    figures::counts(&rt)?;
    figures::extremes(&rt)?;
    figures::drawn(&rt)
}
