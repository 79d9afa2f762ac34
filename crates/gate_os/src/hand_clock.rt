// A clock for tests: it stands still until it is moved by hand, or until someone sleeps over it.
use std::cell::Cell;
use std::io;
use std::io::ErrorKind;
use std::time::{Clock, Duration};

#[derive(Drop)]
pub(crate) struct HandClock {
    now: Cell<Duration>,
    is_broken: Cell<bool>,
}

impl HandClock {
    pub(crate) fn new() -> Self {
        HandClock {
            now: Cell::new(Duration::from_secs(7)),
            is_broken: Cell::new(false),
        }
    }

    pub(crate) fn now(&self) -> Duration {
        self.now.get()
    }

    pub(crate) fn pass(&self, time: Duration) {
        self.now.set(self.now.get().saturating_add(time));
    }

    // From now on it cannot be read.
    pub(crate) fn fail(&self) {
        self.is_broken.set(true);
    }
}

impl Clock for HandClock {
    fn monotonic(&self) -> io::Result<Duration> {
        if self.is_broken.get() {
            return Err(io::Error::from(ErrorKind::Unsupported));
        }
        Ok(self.now.get())
    }

    fn since_1970(&self) -> io::Result<Duration> {
        self.monotonic()
    }

    fn sleep(&self, duration: Duration) {
        self.pass(duration);
    }
}
