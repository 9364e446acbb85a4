//! The matrix profile of whole-number series: commands on standard input, reports on standard output.
#![tactic(auto)]

ghost use Rattle.std.specs.Prelude.{◌≡◌, IfOk, OnErr};
ghost use Rattle.std.specs.Process.{exit_status};
ghost use Rattle.mp_session.specs.Statuses.{number};

use mp_nums::Memory;
use mp_outside::{DiskShelf, OpenGate, StdSink, StdSource};
use mp_session::top::{Status, serve};
use std::alloc::Global;
use std::env;
use std::io::ErrorKind;
use std::process::ExitCode;
use std::rt::{Env, Files};
use std::thread::Threads;

fn main(rt: HostRuntime) -> ExitCode {
    serve_shell(&rt, &rt)
}

/// Serves standard input as `run` does. The code says how that ended.
fn serve_shell<R: AllocGlobal + Clone + Files + Threads + Sync, E: Env + Input + Print>(
    rt: &R,
    shell: &E,
) -> ExitCode {
    exit_code(run(rt, shell))
}

/// The code that the program exits with: the number of the run's status, that of `Memory` where there was none to begin
/// it.
fn exit_code(outcome: Result<Status, Memory>) -> ExitCode
    ensures status { IfOk outcome (λ status. exit_status result ≡ number status) }
    ensures memory { OnErr outcome (exit_status result ≡ number Status.Memory) }
{
    let status = match outcome {
        Ok(status) => status,
        Err(Memory) => Status::Memory,
    };
    ExitCode::from(status as u8)
}

/// Serves standard input with the words behind the program's name, both of which `shell` has, as it has standard
/// output. Files are those of the system.
fn run<R: AllocGlobal + Clone + Files + Threads + Sync, E: Env + Input + Print>(
    rt: &R,
    shell: &E,
) -> Result<Status, Memory> {
    let words = words(rt.alloc(), shell)?;
    let mut shelf = DiskShelf::new(rt)?;
    let mut input = StdSource::new(shell)?;
    let mut out = StdSink::new(shell)?;
    Ok(serve(
        rt,
        rt.alloc(),
        words.as_slice(),
        &mut shelf,
        &mut input,
        &mut out,
        &OpenGate,
    ))
}

/// The words behind the program's name, and none where one of them isn't UTF-8: no words are outside the grammar, too.
fn words<E: Env>(alloc: Global, shell: &E) -> Result<Vec<String>, Memory> {
    let mut words = Vec::new(alloc);
    match env::args(&(shell, alloc)) {
        Ok(args) => {
            for word in args.skip(1) {
                words.push(word)?;
            }
        }
        Err(error) if error.kind() == ErrorKind::InvalidData => {}
        Err(_) => return Err(Memory),
    }
    Ok(words)
}

#[cfg(test)]
mod tests;
