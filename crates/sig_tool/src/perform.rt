//! A command, from its files to a status.

ghost use Rattle.std.specs.Prelude.{◌≡◌, ◌≤◌};
ghost use Rattle.sig_tool.specs.Prelude.{[], Option, None, WORKERS_MAX, AllByRecursion, IsUtf8, loading, Performs, SaysLine, AreWithinBounds, running, files_of, Contents};
ghost use Rattle.sig_tool.specs.Commands.{IsLimited};
ghost use Rattle.sig_tool.specs.TopCall.{IfLoad, task_of};

use sig_base::Text;
use sig_compile_command::{Product, compile_command, print_command};
use sig_image_command::{build_command, exec_command};
use sig_judge_command::judge_command;
use sig_load_command::load_command;
use sig_play_command::play_command;
use sig_run_command::run_command;
use sig_text::{Files, Gate, Sink};
use sig_words::{Command, Settings};
use std::alloc::Global;
use std::str;
use std::sync::Wait;
use std::thread::Threads;

/// Does what a command asks for.
pub fn perform<R: Threads + Wait + Sync, F: Files, S: Sink, E: Sink, G: Gate + Sync>(
    rt: &R,
    alloc: Global,
    command: &Command,
    files: &mut F,
    out: &mut S,
    err: &mut E,
    gate: &G,
) -> u8
    requires names { AllByRecursion IsUtf8 (files_of command.now) }
    requires limited { IsLimited command.now }
    ensures performs { Performs (task_of command.now)
        (F.contents files.old) (F.at files.old) (F.at files.new)
        (F.misses files.old) (F.misses files.new) (F.faults files.old) (F.faults files.new)
        S.took out.old out.new (S.faults out.old) (S.faults out.new) (S.clean out.new)
        (SaysLine E.took (E.faults err.old) (E.faults err.new) err.old err.new) result }
    ensures no_files { files_of command.now ≡ [] → files.new ≡ files.old }

    // A load asks for no file: what is promised of it holds whatever files would tell.
    ensures load { IfLoad command.now (λ seed stages settings. (contents : Option Contents) →
        Performs (loading seed stages settings) contents None None 0 0 0 0
        S.took out.old out.new (S.faults out.old) (S.faults out.new) (S.clean out.new)
        (SaysLine E.took (E.faults err.old) (E.faults err.new) err.old err.new) result) }
{
    match command {
        Command::Run(program, flows, settings) => {
            let (program, flows) = (name_of(program), name_of(flows));
            run(rt, alloc, program, flows, *settings, files, out, err, gate)
        }
        Command::Play(program, flows, events, settings) => {
            let (program, flows, events) = (name_of(program), name_of(flows), name_of(events));
            play_command(alloc, program, flows, events, *settings, files, out, err)
        }
        Command::Check(program, pace) => {
            compile_command(
                alloc,
                Product::Verdict,
                name_of(program),
                *pace,
                files,
                out,
                err,
            )
        }
        Command::Tree(program, pace) => {
            compile_command(
                alloc,
                Product::Tree,
                name_of(program),
                *pace,
                files,
                out,
                err,
            )
        }
        Command::Code(program, pace) => {
            compile_command(
                alloc,
                Product::Code,
                name_of(program),
                *pace,
                files,
                out,
                err,
            )
        }
        Command::Judge(program, traces) => {
            let (program, traces) = (name_of(program), name_of(traces));
            judge_command(alloc, program, traces, files, out, err)
        }
        Command::Load(seed, stages, settings) => {
            load_command(rt, alloc, *seed, *stages, *settings, out, err, gate)
        }
        Command::Print(program) => print_command(alloc, name_of(program), files, out, err),
        Command::Build(program) => build_command(alloc, name_of(program), files, out, err),
        Command::Exec(image, flows, settings) => {
            let (image, flows) = (name_of(image), name_of(flows));
            exec_command(alloc, image, flows, *settings, files, out, err)
        }
    }
}

/// Runs a program, with no more workers than there may be.
fn run<R: Threads + Wait + Sync, F: Files, S: Sink, E: Sink, G: Gate + Sync>(
    rt: &R,
    alloc: Global,
    program: &str,
    flows: &str,
    settings: Settings,
    files: &mut F,
    out: &mut S,
    err: &mut E,
    gate: &G,
) -> u8
    requires bounds { AreWithinBounds settings }
    requires few { settings.workers ≤ WORKERS_MAX }
    ensures { Performs (running program.now flows.now settings)
        (F.contents files.old) (F.at files.old) (F.at files.new)
        (F.misses files.old) (F.misses files.new) (F.faults files.old) (F.faults files.new)
        S.took out.old out.new (S.faults out.old) (S.faults out.new) (S.clean out.new)
        (SaysLine E.took (E.faults err.old) (E.faults err.new) err.old err.new) result }
{
    run_command(rt, alloc, program, flows, settings, files, out, err, gate)
}

/// The name of a file, as the files are asked for it.
fn name_of(text: &Text) -> &str
    requires { IsUtf8 text.now }
    ensures { result.now ≡ text.now }
{
    match str::from_utf8(text.as_bytes()) {
        Ok(name) => name,
        Err(_) => unreachable!(),
    }
}
