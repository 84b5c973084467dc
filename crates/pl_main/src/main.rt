//! The program `tohmeril`: the words after its name, real files, standard output and standard error.
//!
//! `main` only says where these come from; `program` does the rest, and its contract says how the process
//! ends. `pl_cli::run_program` does the work. `pl_edge` and `pl_adjust_sql` have the adapters to the outside.
#![tactic(auto)]

mod program;

use pl_adjust_sql::FileKeeper;
use pl_edge::{FileShelf, Stream};
use program::{GATHERED, program};
use std::env;
use std::io::BufWriter;
use std::marker::Brand;
use std::process::ExitCode;
use std::sync::ledger::Blank;

fn main(rt: HostRuntime) -> ExitCode {
    program::<_, _, Brand, _, _>(
        rt.alloc(),
        env::args(&rt),
        &mut FileShelf::new(&rt),
        &mut FileKeeper::new(&rt),
        &mut BufWriter::with_capacity(rt.alloc(), GATHERED, rt.stdout()).map(Stream::new),
        &mut Stream::new(rt.stderr()),
        Blank::new(1),
    )
}
