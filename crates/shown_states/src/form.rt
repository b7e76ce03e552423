//! How an answer is written, and how it ends.

ghost use Rattle.std.specs.Prelude.{◌≡◌};
ghost use Rattle.shown_states.specs.Endings.{ending_of, status_of};

/// How an answer is written.
#[derive(Clone, Copy, Debug, PartialEq, Eq)]
pub enum Format {
    /// Lines for a reader.
    Text,
    /// One object, for scripts.
    Json,
}

/// How an answer ends.
#[derive(Clone, Copy, Debug, PartialEq, Eq)]
pub enum Ending {
    /// It speaks of all states, or it is the state that was looked for.
    Done,
    /// It speaks of the states that were kept, and there are more.
    Unfinished,
    /// No state is one that was looked for.
    Nowhere,
    /// The property on the line of this number is violated, and none before it.
    Violated(usize),
}

impl Ending {
    /// The ending of an answer about the states that a search kept, which may be all there are.
    pub fn of_search(is_complete: bool) -> Ending
        ensures { result ≡ ending_of is_complete }
    {
        if is_complete {
            Ending::Done
        } else {
            Ending::Unfinished
        }
    }

    /// The exit status of a program that answers so.
    pub fn status(self) -> u8
        ensures { result ≡ status_of self }
    {
        match self {
            Ending::Done => 0,
            Ending::Unfinished => 4,
            Ending::Nowhere => 5,
            Ending::Violated(_) => 1,
        }
    }
}
