//! What the answer to a session's line looks like, before its key is read.
ghost use Rattle.std.specs.Prelude.{◌≡◌};
ghost use Rattle.plan_state.specs.Wanted.{begins, may_be, stands_in, wanted_of};

/// How the answer to a line begins, and what stands in it: its type, and the time and trace number of the line's own message.
#[derive(Clone, Copy)]
pub struct Wanted {
    kind: [u8; 4],
    time: [u8; 10],
    trace: [u8; 6],
}

impl Wanted {
    /// What the answer to a message of this type with these elements 7 and 11 has, none where these have other lengths.
    pub fn new(line: &[u8], time: &[u8], trace: &[u8]) -> Option<Wanted>
        ensures { result ≡ wanted_of line.now time.now trace.now }
    {
        if line.len() < 4 {
            return None;
        }
        let Ok(time) = <[u8; 10]>::try_from(time) else {
            return None;
        };
        let Ok(trace) = <[u8; 6]>::try_from(trace) else {
            return None;
        };
        let kind = [line[0], line[1], line[2].wrapping_add(1), b'0'];
        Some(Wanted { kind, time, trace })
    }

    /// Whether the bytes begin with time and trace number.
    fn begins(&self, bytes: &[u8]) -> bool
        ensures { result ≡ begins self.now bytes.now }
    {
        match bytes.strip_prefix(self.time.as_slice()) {
            Some(behind) => behind.starts_with(self.trace.as_slice()),
            None => false,
        }
    }

    /// Whether time and trace number stand somewhere in the bytes.
    #[tactic(auto, using(crate::proofs::Stands::stands_here))]
    fn stands_in(&self, bytes: &[u8]) -> bool
        ensures { result ≡ stands_in self.now bytes.now }
    {
        for i in 0..bytes.len() {
            if self.begins(&bytes[i..]) {
                return true;
            }
        }
        false
    }

    /// Whether an answer may be the wanted one. Whoever looks compares keys then.
    pub(crate) fn may_be(&self, bytes: &[u8]) -> bool
        ensures { result ≡ may_be self.now bytes.now }
    {
        bytes.starts_with(self.kind.as_slice()) && self.stands_in(bytes)
    }
}
