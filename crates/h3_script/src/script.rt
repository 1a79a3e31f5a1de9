//! Scripts: a line with the settings, and then a line for each event.
ghost use Rattle.std.specs.Prelude.{◌<◌, ◌^◌, IfOk, IfErr};
ghost use Rattle.h3_script.specs.Script.{IsScript, RefusesScript};

use crate::error::ScriptError;
use crate::line::{event_line, is_skipped, setup_line};
use crate::pieces::pieces;
use h3_world::event::Event;
use h3_world::setup::Setup;
use std::alloc::Global;

/// A script that was read.
#[derive(Drop)]
pub struct Script {
    /// What both sides announce.
    pub setup: Setup,
    /// What happens, in order.
    pub events: Vec<Event>,
}

/// Reads a script of at most so many bytes, or tells the first line that is refused. Empty lines
/// and lines that begin with `#` are skipped; the first other line has the settings. A script
/// without it is refused at line 1, and a line that goes past so many bytes is refused.
pub fn parse(alloc: Global, text: &[u8], most: u64) -> Result<Script, ScriptError>
    requires { most < 2 ^ 62 }
    ensures ok { IfOk result (λ s. IsScript most text.now s.setup s.events.items) }
    ensures err { IfErr result (RefusesScript most text.now) }
{
    let found = pieces(alloc, text, b'\n')?;
    let lines = found.as_slice();
    let mut setup = None;
    let mut events = Vec::new(alloc);
    let mut end: u64 = 0;
    for i in 0..lines.len() {
        let line = lines[i];
        let number = i as u64 + 1;
        if end > most || line.len() as u64 > most - end {
            return Err(ScriptError::Line(number));
        }
        end += line.len() as u64 + 1;
        if is_skipped(line) {
            continue;
        }
        if setup.is_none() {
            match setup_line(alloc, line) {
                Ok(made) => setup = Some(made),
                Err(e) => return Err(e.at(number)),
            }
        } else {
            match event_line(alloc, line) {
                Ok(event) => events.push(event)?,
                Err(e) => return Err(e.at(number)),
            }
        }
    }
    match setup {
        Some(setup) => Ok(Script { setup, events }),
        None => Err(ScriptError::Line(1)),
    }
}
