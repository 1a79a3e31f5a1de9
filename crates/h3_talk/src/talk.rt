//! The program: a script in, the answers out.
ghost use Rattle.std.specs.Prelude.{◌≡◌, ◌⊎◌, ◌≤◌, IfOk};
ghost use Rattle.std.specs.Process.{exit_status};
ghost use Rattle.h3_script.specs.Small.{ArePlain, AreSmall};
ghost use Rattle.h3_script.specs.Inputs.{RefusesInput};
ghost use Rattle.h3_talk.specs.Talks.{AnswersTo, Prints, AnswersScript, Loses};

use h3_script::input::read_script;
use h3_script::output::write_answers;
use h3_script::script::Script;
use h3_session::laws::calls_are_steps_of_two_endpoints;
use h3_session::run::{Outcome, run};
use h3_world::event::{Answer, Event};
use h3_world::setup::Setup;
use std::alloc::{AllocError, Global};
use std::io::{Read, Write};
use std::process::ExitCode;

/// Answers a script: reads it whole, drives a client and a server by it and writes a line for each
/// event. The status is 0 then. If a line is refused, nothing but `line` and the number of the
/// first such line is written, and the status is 1. It is 2 if an allocation failed outside an
/// event, or a read or a write failed. Then nothing was written, unless a line is refused or the
/// input is a script: nothing is promised of what was written of its number or its answers.
pub fn talk<R: Read, W: Write>(alloc: Global, reader: &mut R, writer: &mut W) -> u8
    ensures answered { result ≡ 0 → AnswersScript (R.remaining reader.old) (R.remaining reader.new)
        (W.contents writer.old) (W.contents writer.new) }
    ensures refused { result ≡ 1 → RefusesInput (R.remaining reader.old) (R.remaining reader.new)
        (W.contents writer.old) (W.contents writer.new) }
    ensures lost { result ≡ 2 → Loses (R.remaining reader.old) (R.remaining reader.new)
        (W.contents writer.old) (W.contents writer.new) }
    ensures statuses { result ≤ 2 }
{
    h3_script::laws::a_script_judges_plainly();
    h3_script::laws::a_script_has_small_events();
    match read_script(alloc, reader, writer) {
        Ok(script) => answer(alloc, script, writer),
        Err(status) => status,
    }
}

/// What the program ends with: the status of `talk`.
pub fn exit_code<R: Read, W: Write>(alloc: Global, reader: &mut R, writer: &mut W) -> ExitCode
    ensures answered { exit_status result ≡ 0 → AnswersScript (R.remaining reader.old) (R.remaining reader.new)
        (W.contents writer.old) (W.contents writer.new) }
    ensures refused { exit_status result ≡ 1 → RefusesInput (R.remaining reader.old) (R.remaining reader.new)
        (W.contents writer.old) (W.contents writer.new) }
    ensures lost { exit_status result ≡ 2 → Loses (R.remaining reader.old) (R.remaining reader.new)
        (W.contents writer.old) (W.contents writer.new) }
    ensures statuses { exit_status result ≤ 2 }
{
    ExitCode::from(talk(alloc, reader, writer))
}

/// Writes the answers to the events of a script.
fn answer<W: Write>(alloc: Global, script: Script, writer: &mut W) -> u8
    requires plain { ArePlain script.setup script.events.items }
    requires small { AreSmall script.events.items }
    ensures answered { result ≡ 0 → Prints script.setup script.events.items (W.contents writer.old) (W.contents writer.new) }
    ensures statuses { (result ≡ 0) ⊎ (result ≡ 2) }
{
    let Script { setup, events } = script;
    let Ok(answers) = answers_to(alloc, setup, &events) else {
        return 2;
    };
    if write_answers(alloc, &answers, writer) {
        0
    } else {
        2
    }
}

/// The answers of a run, without the endpoints that it leaves.
fn answers_to(alloc: Global, setup: Setup, events: &[Event]) -> Result<Vec<Answer>, AllocError>
    requires plain { ArePlain setup events.now }
    requires small { AreSmall events.now }
    ensures { IfOk result (λ answers. AnswersTo setup events.now answers.items) }
{
    calls_are_steps_of_two_endpoints();
    match run(alloc, setup, events) {
        Ok(outcome) => Ok(answers_of(outcome)),
        Err(e) => Err(e),
    }
}

/// Lets both endpoints go.
fn answers_of(outcome: Outcome) -> Vec<Answer>
    ensures { result.items ≡ outcome.answers.items }
{
    let Outcome {
        answers,
        client,
        server,
    } = outcome;
    client.free();
    server.free();
    answers
}
