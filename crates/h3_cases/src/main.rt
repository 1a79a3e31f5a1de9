//! Calls of one endpoint of a connection and cases of the layers below it, a line each, and the line that each answers.
#![tactic(auto)]

mod acting;
mod answers;
mod call;
mod case;
mod choices;
mod entries;
mod examples;
mod feed;
mod frames;
mod heads;
mod ids;
mod instructions;
mod items;
mod lines;
mod memory;
mod numbers;
mod reading;
mod scripts;
mod sections;
mod sending;
mod settings;
mod streams;
mod strings;
mod talking;

use crate::case::{CaseError, Told, words};
use h3_session::endpoint::Endpoint;
use std::alloc::{AllocError, Global};
use std::io;

/// The endpoints that lines make: that of lines `call`, and those of a script.
#[derive(Drop)]
struct Ends {
    one: Option<Endpoint>,
    client: Option<Endpoint>,
    server: Option<Endpoint>,
    // whether a line `config` came
    is_script: bool,
}

fn main(rt: HostRuntime) -> io::Result<()> {
    let mut ends = Ends {
        one: None,
        client: None,
        server: None,
        is_script: false,
    };
    let done = answer_lines(&rt, &mut ends);
    let Ends {
        one,
        client,
        server,
        ..
    } = ends;
    free(one);
    free(client);
    free(server);
    done
}

fn free(endpoint: Option<Endpoint>) {
    if let Some(endpoint) = endpoint {
        endpoint.free();
    }
}

/// Answers each line of the standard input.
fn answer_lines(rt: &HostRuntime, ends: &mut Ends) -> io::Result<()> {
    let alloc = rt.alloc();
    for line in rt.lines(alloc) {
        let line = line?;
        let text = answer(alloc, ends, line.as_str())?;
        println!(rt; "{text}")?;
    }
    Ok(())
}

/// The line that a line gets. An empty line and one that begins with `#` come back as they are.
fn answer(alloc: Global, ends: &mut Ends, line: &str) -> Result<String, AllocError> {
    if line.is_empty() || line.starts_with('#') {
        return String::from_str(alloc, line);
    }
    let mut told = Told::new(alloc);
    of_line(&mut told, ends, line);
    match told.end() {
        Ok(text) => Ok(text),
        Err(CaseError::Unreadable) => String::from_str(alloc, unreadable(ends, line)),
        Err(CaseError::Refused) => String::from_str(alloc, "refused"),
    }
}

fn unreadable(ends: &Ends, line: &str) -> &'static str {
    if ends.is_script {
        "no such line"
    } else if line.starts_with("call ") {
        "no such call"
    } else {
        "no such case"
    }
}

/// What a line answers. After a line `config` each is one of a script, else a call or a case.
fn of_line(told: &mut Told, ends: &mut Ends, line: &str) {
    if let Some(choices) = line.strip_prefix("config ") {
        ends.is_script = true;
        return talking::config(told, &mut ends.client, &mut ends.server, choices);
    }
    if ends.is_script {
        return talking::answer(told, &mut ends.client, &mut ends.server, line);
    }
    of_group_line(told, &mut ends.one, line);
}

/// What a call or a case answers: its group, and what stands after that.
fn of_group_line(told: &mut Told, endpoint: &mut Option<Endpoint>, line: &str) {
    let Some((group, rest)) = line.split_once(' ') else {
        return told.unreadable();
    };
    match group {
        "call" => match words(told.alloc(), rest) {
            Ok(words) => acting::answer(told, endpoint, &words),
            Err(_) => told.refused(),
        },
        _ => of_case(told, group, rest),
    }
}

/// What a case answers: its group, its command, and what the command is given.
fn of_case(told: &mut Told, group: &str, rest: &str) {
    let (command, rest) = rest.split_once(' ').unwrap_or((rest, ""));
    if group == "script" {
        return scripts::answer(told, command, rest);
    }
    match words(told.alloc(), rest) {
        Ok(words) => of_group(told, group, command, &words),
        Err(_) => told.refused(),
    }
}

fn of_group(told: &mut Told, group: &str, command: &str, words: &[&str]) {
    match group {
        "varint" => numbers::answer(told, command, words),
        "id" => ids::answer(told, command, words),
        "settings" => settings::answer(told, command, words),
        "frame" => frames::answer(told, command, words),
        "send" => sending::answer(told, command, words),
        "stream" => streams::answer(told, command, words),
        _ => of_fields(told, group, command, words),
    }
}

/// The groups of fields and of what stands above them.
fn of_fields(told: &mut Told, group: &str, command: &str, words: &[&str]) {
    match group {
        "string" => strings::answer(told, command, words),
        "line" => lines::answer(told, command, words),
        "instruction" => instructions::answer(told, command, words),
        "section" => sections::answer(told, command, words),
        "entry" => entries::answer(told, command, words),
        "head" => heads::answer(told, command, words),
        "answer" => answers::answer(told, command, words),
        "example" => examples::answer(told, command),
        _ => told.unreadable(),
    }
}
