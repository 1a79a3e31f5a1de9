//! Scripts of what a client and a server do, and what comes of it.
#![tactic(auto)]

mod talk;

pub use h3_script::script;
pub use h3_script::text::answer_text;
pub use h3_session::run::run;
use std::process::ExitCode;
pub use talk::{exit_code, talk};

fn main(rt: HostRuntime) -> ExitCode {
    let mut reader = rt.reader();
    let mut writer = std::io::writer(&rt);
    exit_code(rt.alloc(), &mut reader, &mut writer)
}
