//! How the threads of a plan are told apart.
ghost use Rattle.std.specs.Prelude.{◌≡◌};
ghost use Rattle.plan_threads.specs.Numbers.{host_at, node_of_host, session_at, place_of_session};

/// How the threads of a plan are told apart: pumps by the places of their stations, behind them hosts in the same order, behind them
/// sessions.
#[derive(Clone, Copy)]
pub struct ThreadNumbers {
    pub pumps: usize,
    pub hosts: usize,
}

impl ThreadNumbers {
    /// The host at a place, where it has one.
    pub fn host(&self, n: usize) -> Option<usize>
        ensures { result ≡ host_at self.now n }
    {
        if n < self.hosts {
            Some(self.pumps.saturating_add(n))
        } else {
            None
        }
    }

    /// The place of the station whose host has this number.
    pub fn node_of_host(&self, thread: usize) -> usize
        ensures { result ≡ node_of_host self.now thread }
    {
        thread.saturating_sub(self.pumps)
    }

    /// The first session's.
    pub fn first_session(&self) -> usize
        ensures { result ≡ session_at self.now 0 }
    {
        self.pumps.saturating_add(self.hosts)
    }

    /// The session at a place of the plan.
    pub fn session(&self, place: usize) -> usize
        ensures { result ≡ session_at self.now place }
    {
        self.first_session().saturating_add(place)
    }
    /// The place in the plan of the session that has this number.
    pub fn place_of_session(&self, thread: usize) -> usize
        ensures { result ≡ place_of_session self.now thread }
    {
        thread.saturating_sub(self.first_session())
    }
}
