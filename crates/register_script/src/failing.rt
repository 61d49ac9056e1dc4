// Why not all lines are answered. Standard error says so.
ghost use Rattle.std.specs.Prelude.{◌≤◌};

use crate::saying::say;
use std::io::Error;

#[derive(Clone, Copy)]
pub(crate) enum Failure {
    // The answers can't be written.
    Unwritten,
    // The input can't be read.
    Unread,
}

impl Failure {
    pub(crate) fn unwritten(rt: &HostRuntime, error: &Error) -> Failure {
        say(rt, "The answers can't be written", error);
        Failure::Unwritten
    }

    pub(crate) fn unread(rt: &HostRuntime, error: &Error) -> Failure {
        say(rt, "The script can't be read", error);
        Failure::Unread
    }

    // The exit status.
    pub(crate) fn status(self) -> u8
        ensures { result ≤ 2 }
    {
        match self {
            Failure::Unwritten => 1,
            Failure::Unread => 2,
        }
    }
}
