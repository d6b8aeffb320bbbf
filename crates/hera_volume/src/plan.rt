ghost use Rattle.std.specs.Prelude.{◌≡◌, ◌≢◌, ◌+◌, ◌-◌, ◌^◌, min, true, false, Some, Contains};
ghost use Rattle.hera_volume.specs.Plan.{MayGo, HasStopped};

/// Which calls on files are to fail, and how many were made.
#[derive(Drop)]
pub(crate) struct Plan {
    pub(crate) calls: usize,
    pub(crate) fails: Vec<u64>,
    pub(crate) stop: Option<u64>,
}

/// What is to become of a call.
#[derive(Clone, Copy, Debug, PartialEq, Eq)]
pub(crate) enum Fate {
    Goes,
    Fails,
    /// It takes effect and fails.
    Stops,
}

impl Plan {
    /// The fate of the next call on a file, which is then counted.
    pub(crate) fn next_fate(&mut self) -> Fate
        ensures goes { result ≡ Fate.Goes → MayGo self.old.calls self.old.fails.items self.old.stop }
        ensures stays { result ≢ Fate.Goes → ¬ MayGo self.old.calls self.old.fails.items self.old.stop }
        ensures fails { result ≡ Fate.Fails → self.old.stop ≢ Some self.old.calls }
        ensures stops { result ≡ Fate.Stops → self.old.stop ≡ Some self.old.calls }
        ensures calls { self.new.calls ≡ min (self.old.calls + 1) (2 ^ 64 - 1) }
        ensures plan { (self.new.fails ≡ self.old.fails) × (self.new.stop ≡ self.old.stop) }
    {
        let fate = fate_of(self.calls as u64, &self.fails, self.stop);
        self.calls = self.calls.saturating_add(1);
        fate
    }

    /// Whether the call at which all stops was made.
    pub(crate) fn has_stopped(&self) -> bool
        ensures stopped { result ≡ true → HasStopped self.now.calls self.now.stop }
        ensures goes { result ≡ false → ¬ HasStopped self.now.calls self.now.stop }
    {
        match self.stop {
            Some(number) => self.calls as u64 > number,
            None => false,
        }
    }
}

/// The fate of the call with this number. The stop comes before the list.
fn fate_of(call: u64, fails: &[u64], stop: Option<u64>) -> Fate
    ensures goes { result ≡ Fate.Goes → MayGo call fails.now stop }
    ensures stays { result ≢ Fate.Goes → ¬ MayGo call fails.now stop }
    ensures fails { result ≡ Fate.Fails → stop ≢ Some call }
    ensures stops { result ≡ Fate.Stops → stop ≡ Some call }
{
    match stop {
        Some(number) if call == number => Fate::Stops,
        Some(number) if call > number => Fate::Fails,
        Some(_) => listed(call, fails),
        None => listed(call, fails),
    }
}

/// The fate of a call by the list alone.
fn listed(call: u64, fails: &[u64]) -> Fate
    ensures goes { result ≡ Fate.Goes → ¬ Contains fails.now call }
    ensures stays { result ≢ Fate.Goes → Contains fails.now call }
    ensures known { result ≢ Fate.Stops }
{
    if fails.contains(&call) {
        Fate::Fails
    } else {
        Fate::Goes
    }
}
