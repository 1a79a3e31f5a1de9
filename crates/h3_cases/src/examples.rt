//! The short callers of `h3_examples`, and what they print.
use crate::case::Told;

pub fn answer(told: &mut Told, command: &str) {
    match command {
        "all" => all(told),
        _ => told.unreadable(),
    }
}

fn all(told: &mut Told) {
    let mut text = String::new(told.alloc());
    let done = h3_examples::all(told.alloc(), &mut text);
    told.done(done);
    told.say(text.as_str());
}
