//! The program `refusals`: a scenario for each call of the crates that allocates, and for those that do not. A scenario makes its values,
//! shows them, writes a mark, makes the call, and writes another mark. Then it shows the result of the call and the values. So a harness
//! can let each allocation between the marks fail (faults/crates). The argument names the scenario; without an argument the program lists
//! all names.
#![tactic(auto)]

mod fault;
mod feeds;
mod hop_tables;
mod map_changes;
mod map_reads;
mod map_stores;
mod maps;
mod nets;
mod scenarios;
mod sets;
mod short_lists;
mod show;
mod subject;
mod tables;

use fault::{Fault, made};
use scenarios::named;
use show::part;
use std::env;
use std::env::Env;
use std::process::ExitCode;

/// The argument, if there is one.
fn argument<R: Env + Alloc>(rt: &R) -> Result<Option<String<R::A>>, Fault> {
    let mut args = made(env::args(rt))?;
    let _program = args.next();
    let first = args.next();
    if args.next().is_some() {
        return Err(Fault::Usage);
    }
    Ok(first)
}

fn list_all(rt: &HostRuntime) {
    for (name, _) in scenarios::all() {
        part(rt, name);
        part(rt, &"\n");
    }
}

fn run(rt: &HostRuntime) -> Result<(), Fault> {
    let Some(name) = argument(rt)? else {
        list_all(rt);
        return Ok(());
    };
    match named(name.as_str()) {
        Some(call) => scenarios::run(rt, call),
        None => Err(Fault::Usage),
    }
}

fn main(rt: HostRuntime) -> ExitCode {
    match run(&rt) {
        Ok(()) => ExitCode::SUCCESS,
        Err(fault) => {
            let _ = eprintln!(rt; "refusals: {fault}");
            ExitCode::FAILURE
        }
    }
}
