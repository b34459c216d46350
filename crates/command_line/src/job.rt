//! What the program does.
ghost use Rattle.std.specs.Prelude.{◌≡◌, map};

/// What the program does with its input.
#[derive(Clone, Copy, Debug, PartialEq, Eq)]
pub enum Job {
    /// A verdict on tables and ranks.
    Check,
    /// Ranks for tables.
    Make,
    /// What the nodes of accepted tables put out for the lines of a script.
    Replay,
    /// The report of what threads did by a plan on accepted tables.
    Run,
    /// The elements of messages, one message a line, or in frames.
    Decode { frames: bool },
}

impl Job {
    ghost use Rattle.command_line.specs.Line.{line_of};

    /// The words that ask for it, behind the program's name.
    pub(crate) fn line(self) -> &'static [&'static str]
        ensures { map (λ w. w.now) result.now ≡ line_of self }
    {
        match self {
            Job::Check => &["check"],
            Job::Make => &["make"],
            Job::Replay => &["replay"],
            Job::Run => &["run"],
            Job::Decode { frames: false } => &["decode"],
            Job::Decode { frames: true } => &["decode", "--frames"],
        }
    }
}
