// A pause: the process sleeps and leaves the processor to others.
use std::thread;
use std::time::Duration;

// Lets a millisecond pass. Its contract says nothing, since none can speak of time.
pub(crate) fn pause(rt: &HostRuntime) {
    thread::sleep(rt, Duration::from_millis(1));
}
