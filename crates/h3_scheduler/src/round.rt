//! Rounds of turns.
ghost use Rattle.std.specs.Prelude.{◌≡◌, ◌<◌, ◌^◌, slice_set};
ghost use Rattle.h3_scheduler.specs.Rounds.{after_turn, is_in, no_round, no_rounds, round_at, within};

use h3_priority::priority::Priority;

/// A round of the streams of one urgency: the ids from one on and below another have a turn in it.
#[derive(Clone, Copy)]
pub struct Round {
    from: u64,
    until: u64,
}

impl Round {
    // No id has a turn, so the next stream begins another.
    fn none() -> Round
        ensures { result ≡ no_round }
    {
        Round { from: 0, until: 0 }
    }

    /// The first id that may have a turn.
    pub fn from(self) -> u64
        ensures { result ≡ self.from }
    {
        self.from
    }

    // Whether an id has a turn.
    fn has(self, id: u64) -> bool
        ensures { result ≡ is_in self id }
    {
        self.from <= id && id < self.until
    }

    /// An id, if it has a turn.
    pub fn within(self, id: Option<u64>) -> Option<u64>
        ensures { result ≡ within self id }
    {
        let Some(number) = id else {
            return None;
        };
        if self.has(number) { id } else { None }
    }

    // What is left after the turn of an id. If it had none in this round, another began with it: of the ids below `until`.
    fn after(self, id: u64, until: u64) -> Round
        requires { id < 2 ^ 62 }
        ensures { result ≡ after_turn self id until }
    {
        Round {
            from: id + 1,
            until: if self.has(id) { self.until } else { until },
        }
    }
}

/// Of each urgency the round of its streams.
#[derive(Clone, Copy)]
pub struct Rounds {
    rounds: [Round; 8],
}

impl Rounds {
    /// No round has begun.
    pub fn new() -> Rounds
        ensures { result.rounds ≡ no_rounds }
    {
        Rounds {
            rounds: [Round::none(); 8],
        }
    }

    /// The round of an urgency.
    pub fn of(&self, urgency: u64) -> Round
        ensures { result ≡ round_at self.now.rounds urgency }
    {
        match self.rounds.get(urgency as usize) {
            Some(round) => *round,
            None => Round::none(),
        }
    }

    /// The turn of a stream with this priority is over, as the ids of the streams that are open are below `until`.
    pub fn end_turn(&mut self, priority: Priority, id: u64, until: u64)
        requires { id < 2 ^ 62 }
        ensures { self.new.rounds
            ≡ slice_set self.old.rounds priority.urgency (after_turn (round_at self.old.rounds priority.urgency) id until) }
    {
        let urgency = priority.urgency();
        let round = self.of(urgency as u64);
        self.rounds[urgency as usize] = round.after(id, until);
    }
}
