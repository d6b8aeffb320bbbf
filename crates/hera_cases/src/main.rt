//! Runs the cases of standard input: what a case is, and what is printed of it, stands at [`case_runs`].
#![tactic(auto)]

use case_runs::{Case, Session, run_case};
use std::io::{self, BufRead, BufReader};

fn main(rt: HostRuntime) -> io::Result<()> {
    let alloc = rt.alloc();
    let mut session = Session::new(alloc, "")?;
    let mut current = None;
    for line in BufReader::new(alloc, rt.reader())?.lines(alloc) {
        let line = line?;
        match line.strip_prefix("== ") {
            Some(heading) => {
                if let Some(case) = current.replace(Case::new(alloc, heading)?) {
                    run_case(&rt, case, &mut session)?;
                }
            }
            None => {
                if let Some(case) = &mut current {
                    case.add_line(alloc, &line)?;
                }
            }
        }
    }
    if let Some(case) = current {
        run_case(&rt, case, &mut session)?;
    }
    Ok(())
}
