//! Command lines with their commands, made by hand from the rule.

use sig_base::Text;
use sig_rows_base::written;
use sig_words::{Command, Settings, WordsAnswer, read_words};
use std::alloc::{AllocError, Global};
use std::fmt::Write;

/// The name of a command, and its texts.
fn name_and_texts(command: &Command) -> (&'static str, [Option<&Text>; 3]) {
    match command {
        Command::Check(program, _) => ("Check", [Some(program), None, None]),
        Command::Print(program) => ("Print", [Some(program), None, None]),
        Command::Tree(program, _) => ("Tree", [Some(program), None, None]),
        Command::Code(program, _) => ("Code", [Some(program), None, None]),
        Command::Run(program, flows, _) => ("Run", [Some(program), Some(flows), None]),
        Command::Play(program, flows, events, _) => {
            ("Play", [Some(program), Some(flows), Some(events)])
        }
        Command::Load(..) => ("Load", [None, None, None]),
        Command::Judge(program, trace) => ("Judge", [Some(program), Some(trace), None]),
        Command::Build(program) => ("Build", [Some(program), None, None]),
        Command::Exec(image, flows, _) => ("Exec", [Some(image), Some(flows), None]),
    }
}

/// Adds a command: its name, its texts, and its numbers or its pace.
fn write_command(out: &mut String, command: &Command) -> Result<(), AllocError> {
    let (name, texts) = name_and_texts(command);
    out.push_str(name)?;
    for text in texts {
        if let Some(text) = text {
            write!(out, " <{}>", written(text))?;
        }
    }
    match command {
        Command::Check(_, pace) | Command::Tree(_, pace) | Command::Code(_, pace) => {
            write!(out, " {pace}")
        }
        Command::Load(seed, stages, settings) => {
            write!(out, " {seed} {stages}")?;
            write_settings(out, settings)
        }
        Command::Run(_, _, settings)
        | Command::Play(_, _, _, settings)
        | Command::Exec(_, _, settings) => write_settings(out, settings),
        Command::Print(_) | Command::Judge(..) | Command::Build(_) => Ok(()),
    }
}

fn write_settings(out: &mut String, settings: &Settings) -> Result<(), AllocError> {
    write!(
        out,
        " {} {} {} {}",
        settings.workers, settings.capacity, settings.instants, settings.pace
    )
}

/// The words of a line, with one blank between two.
fn words_of(alloc: Global, line: &str) -> Result<Vec<String>, AllocError> {
    let mut words = Vec::new(alloc);
    if line != "NOTHING" {
        for word in line.split(' ') {
            words.push(String::from_str(alloc, word)?)?;
        }
    }
    Ok(words)
}

/// Adds the command of a line's words, or the answer.
pub(crate) fn write_words(alloc: Global, out: &mut String, line: &str) -> Result<(), AllocError> {
    let words = words_of(alloc, line)?;
    match read_words(alloc, words.as_slice()) {
        Ok(command) => write_command(out, &command),
        Err(answer) => write!(out, "{answer}"),
    }
}
