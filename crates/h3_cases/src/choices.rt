//! What an endpoint is made of: choices by the names that `h3_config` of `include/h3.h` has.
use crate::case::Told;
use h3_connection::setup::Limits;
use h3_proto::config::Config;

/// What `h3_config_default` has. `scripts/gate/wide_scripts.py` compares it with `h3_c`.
const DEFAULT: &str =
    "max_field_section_size=65536 table=4096 blocked=16 strict count_acknowledgments encoder_table=4096 economical_table \
     unfinished_limit=0 kept_ids=1000 reject_requests any_protocol guard_secrets shortest_strings strict_connection \
     priority_updates=100 other_settings=0 other_streams=0";

/// No limit on what is unfinished.
const NONE: u64 = (1 << 62) - 1;

/// The choices of a side so far.
#[derive(Clone, Copy)]
struct Choices {
    config: Config,
    limits: Limits,
    section: u64,
    unfinished: u64,
}

/// The configuration and the limits of an endpoint that announces this size of field sections and these limits, unless one of the words
/// says otherwise: `name=number`, or `name` for 1. The word `default` has what `h3_config_default` has.
pub fn chosen(told: &mut Told, section: u64, limits: Limits, words: &[&str]) -> (Config, Limits) {
    let mut choices = Choices {
        config: Config::default().with_grease(false),
        limits,
        section,
        unfinished: NONE,
    };
    for word in words {
        choose(told, &mut choices, *word);
    }
    let limit = least(&choices);
    let config = choices
        .config
        .with_max_field_section_size(choices.section)
        .with_unfinished_limit(limit);
    (config, choices.limits)
}

/// The limit on what is unfinished. 0 stands for the least one that takes whatever a peer may send, as in `h3_config`.
fn least(choices: &Choices) -> u64 {
    let announced = choices.section.max(choices.limits.table);
    if choices.unfinished != 0 {
        return choices.unfinished;
    }
    if announced >= 1 << 60 {
        return NONE;
    }
    (4 * announced).max(256)
}

fn choose(told: &mut Told, choices: &mut Choices, word: &str) {
    if word != "default" {
        return choose_one(told, choices, word);
    }
    for word in DEFAULT.split_whitespace() {
        choose_one(told, choices, word);
    }
}

fn choose_one(told: &mut Told, choices: &mut Choices, word: &str) {
    match word.split_once('=') {
        Some((name, number)) => {
            let number = told.number(number);
            set(told, choices, name, number);
        }
        None => set(told, choices, word, 1),
    }
}

/// Sets one of the numbers.
fn set(told: &mut Told, choices: &mut Choices, name: &str, number: u64) {
    match name {
        "max_field_section_size" => choices.section = number,
        "table" => choices.limits.table = number,
        "blocked" => choices.limits.blocked = number,
        "unfinished_limit" => choices.unfinished = number,
        _ => choices.config = configured(told, choices.config, name, number),
    }
}

/// The configuration with one more choice.
fn configured(told: &mut Told, config: Config, name: &str, number: u64) -> Config {
    match name {
        "encoder_table" => config.with_encoder_table(number),
        "kept_ids" => config.with_kept_ids(number),
        "priority_updates" => config.with_priority_updates(number),
        "other_settings" => config.with_other_settings(number),
        _ => allowed(told, config, name, number != 0),
    }
}

/// The same of a choice that is yes or no.
fn allowed(told: &mut Told, config: Config, name: &str, yes: bool) -> Config {
    match name {
        "strict" => config.with_strict_messages(yes),
        "extended_connect" => config.with_extended_connect(yes),
        "webtransport" => config.with_webtransport(yes),
        "datagram" => config.with_datagram(yes),
        "count_acknowledgments" => config.with_acknowledgments_counted(yes),
        "economical_table" => config.with_economical_table(yes),
        "reject_requests" => config.with_requests_rejected(yes),
        "any_protocol" => config.with_any_protocol(yes),
        "guard_secrets" => config.with_secrets_guarded(yes),
        "shortest_strings" => config.with_shortest_strings(yes),
        "strict_connection" => config.with_strict_connection(yes),
        "other_streams" => config.with_other_streams(yes),
        _ => {
            told.unreadable();
            config
        }
    }
}
