//! The desk: the running cause and the waiting ones.
ghost use Rattle.std.specs.Prelude.{◌≡◌, ◌<◌};
ghost use Rattle.counter.specs.Desk.{queued_of, empty, waits, starting, waiting, resting};
ghost use Rattle.counter.specs.Desk.{advancing, post, finish, next_of};

/// The running cause and the waiting ones, by number, 0 for none. The waiting ones stand at the
/// front of `waiting`, `queued` of them, in order of arrival.
// Not `Option<Cause>`: a state holds any byte of a snapshot (`encode-decode`, `step-over`).
#[derive(Clone, Copy, Debug, PartialEq, Eq)]
pub struct Desk {
    pub running: u8,
    pub waiting: [u8; 2],
    pub queued: u8,
}

/// What becomes of a cause that is posted; one that waited before waits.
#[derive(Clone, Copy, Debug, PartialEq, Eq)]
pub enum Outcome {
    Starts,
    Waits,
    Lost,
}

/// How many causes wait, by the two places.
// By number, as the desk's places are.
#[tactic(auto, unfolding(crate::specs::Desk::queued_of))]
pub fn queued_of(first: u8, second: u8) -> u8
    ensures { result ≡ queued_of first second }
{
    if first == 0 {
        0
    } else {
        if second == 0 { 1 } else { 2 }
    }
}

/// Whether the cause stands in one of the two places.
// By number, as the desk's places are.
fn waits(cause: u8, first: u8, second: u8) -> bool
    ensures { result ≡ waits cause first second }
{
    (first == cause) | (second == cause)
}

// A cause comes and goes by number, as the desk's places are.
impl Desk {
    /// None running, none waiting.
    pub fn empty() -> Self
        ensures { result ≡ empty }
    {
        Desk {
            running: 0,
            waiting: [0, 0],
            queued: 0,
        }
    }

    fn start(&mut self, cause: u8)
        ensures { self.new ≡ starting cause self.old }
    {
        self.running = cause;
    }

    /// The cause waits behind those that wait already.
    fn wait(&mut self, cause: u8)
        requires { self.old.queued < 2 }
        ensures { self.new ≡ waiting cause self.old }
    {
        self.waiting[self.queued as usize] = cause;
        self.queued += 1;
    }

    /// None runs any more.
    fn rest(&mut self)
        ensures { self.new ≡ resting self.old }
    {
        self.running = 0;
    }

    /// The first waiting cause runs; the second moves up.
    fn advance(&mut self)
        requires { 0 < self.old.queued }
        ensures { self.new ≡ advancing self.old }
    {
        self.running = self.waiting[0];
        self.waiting = [self.waiting[1], 0];
        self.queued -= 1;
    }

    /// Takes the cause that has this number: it waits already, starts, waits or is lost.
    #[tactic(auto, unfolding(crate::specs::Desk::post))]
    pub fn post(&mut self, number: u8) -> Outcome
        ensures outcome { result ≡ (post number self.old).outcome }
        ensures desk { self.new ≡ (post number self.old).desk }
    {
        if waits(number, self.waiting[0], self.waiting[1]) {
            return Outcome::Waits;
        }
        if self.running == 0 {
            self.start(number);
            return Outcome::Starts;
        }
        if self.queued < 2 {
            self.wait(number);
            Outcome::Waits
        } else {
            Outcome::Lost
        }
    }

    /// Ends the routine: the first waiting cause starts, or none runs. Answers the number of the
    /// cause that starts.
    // By number, as the desk's places are.
    #[tactic(auto, unfolding(crate::specs::Desk::finish))]
    pub fn finish(&mut self) -> Option<u8>
        ensures next { next_of result ≡ (finish self.old).next }
        ensures desk { self.new ≡ (finish self.old).desk }
    {
        if self.running == 0 {
            return None;
        }
        if self.queued == 0 {
            self.rest();
            return None;
        }
        self.advance();
        Some(self.running)
    }
}
